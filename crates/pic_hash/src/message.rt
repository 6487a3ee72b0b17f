//! Messages with the digests of a picture.
ghost use Rattle.std.specs.Prelude.{◌≡◌, ◌<◌, ◌↔◌, IfOk, IsTrue, [], ◌∷◌, ◌++◌, flat_map};
ghost use Rattle.h265_model.specs.NalUnits.{nal_unit_bytes};
ghost use Rattle.h265_model.specs.Hash.{hash_header, hash_of_planes};
ghost use Rattle.px_plane.specs.Planes.{planes_of, plane_of};
ghost use Rattle.md5.specs.Md5.{md5};

use annexb::append_unit;
use h265_model::NoMemory;
use md5::{Digest, Md5};
use px_plane::Picture;
use std::alloc::Global;

/// The header of a NAL unit of nal_unit_type SUFFIX_SEI_NUT, of layer 0 and temporal sub-layer 0 (7.3.1.2, 7.4.2.2).
pub const HASH_HEADER: [u8; 2] = [0x50, 1];

// The digest of one plane, of one byte a sample in rows (D.3.19).
fn plane_digest(picture: &Picture, component: u32) -> [u8; 16]
    requires { component < 3 }
    ensures { result ≡ md5 (plane_of picture.now component) }
{
    Md5::digest(picture.plane(component))
}

// The message and its trailing bits, of 52 bytes.
fn message(alloc: Global, picture: &Picture) -> Result<Vec<u8>, NoMemory>
    ensures { IfOk result (λ bytes. bytes.items ≡ hash_of_planes (planes_of picture.now)) }
{
    let mut bytes = Vec::with_capacity(alloc, 52)?;
    bytes.extend_from_slice(&[132, 49, 0])?;
    bytes.extend_from_slice(&plane_digest(picture, 0))?;
    bytes.extend_from_slice(&plane_digest(picture, 1))?;
    bytes.extend_from_slice(&plane_digest(picture, 2))?;
    bytes.push(0x80)?;
    Ok(bytes)
}

/// The NAL unit of a picture's hash: a start code of four bytes, the header, and the message with emulation prevention (B.2.1, 7.3.1.1, D.2.19).
///
/// # Errors
///
/// `NoMemory` where the allocator refuses the bytes.
pub fn hash_unit(alloc: Global, picture: &Picture) -> Result<Vec<u8>, NoMemory>
    ensures { IfOk result (λ unit. unit.items ≡ nal_unit_bytes (record { header = hash_header; rbsp = hash_of_planes (planes_of picture.now) })) }
{
    let message = message(alloc, picture)?;
    let mut unit = Vec::new(alloc);
    append_unit(&mut unit, HASH_HEADER, &message)?;
    Ok(unit)
}

/// Whether the bytes of a NAL unit after its header, without emulation prevention, are the hash of a picture.
///
/// # Errors
///
/// `NoMemory` where the allocator refuses the message that is compared.
pub fn hash_fits(alloc: Global, picture: &Picture, rbsp: &[u8]) -> Result<bool, NoMemory>
    ensures { IfOk result (λ fits. IsTrue fits ↔ (rbsp.now ≡ hash_of_planes (planes_of picture.now))) }
{
    let message = message(alloc, picture)?;
    Ok(rbsp == message.as_slice())
}
