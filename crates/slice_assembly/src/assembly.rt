//! A picture's NAL unit.
ghost use Rattle.std.specs.Prelude.{◌≡◌, ◌<◌, ◌^◌, ◌++◌, length, map, true, OnOk, IfOk};
ghost use Rattle.std.specs.List.{All};
ghost use Rattle.h265_model.specs.Plain.{joined};
ghost use Rattle.h265_model.specs.NalUnits.{escape};
ghost use Rattle.h265_model.specs.Stream.{nal_header, slice_piece};
ghost use Rattle.slice_assembly.specs.Substreams.{IsSubstream};

use annexb::{append_unit, escape};
use h265_model::{NoMemory, Numbers};
use slice_head::{Head, write_head};
use std::alloc::Global;

/// The substreams of a picture's rows.
#[derive(Drop)]
struct Substreams {
    // All of them, with emulation prevention, one after another.
    bytes: Vec<u8>,
    // How many bytes each has, with emulation prevention.
    lengths: Vec<u32>,
}

/// The NAL unit of a picture after a start code: its header, the slice segment header with an entry point for each row but the
/// first, and the rows with emulation prevention (7.3.1.1, 7.3.6.1, 7.3.8.1).
///
/// `poc` is the low 8 bits of the picture order count, and 0 for an IDR picture. `rows` are the substreams of the rows of coding
/// tree units, from the top, without emulation prevention. An entry point counts the inserted bytes (7.4.7.1).
pub fn assemble(alloc: Global, idr: bool, poc: u32, rows: &[Vec<u8>]) -> Result<Vec<u8>, NoMemory>
    requires low { poc < 256 }
    requires first { idr ≡ true → poc ≡ 0 }
    requires some { 0 < length rows.now }
    requires fewer { length rows.now < 2 ^ 32 }
    requires substreams { All (λ row. IsSubstream row.items) rows.now }
    ensures { IfOk result (λ piece. piece.items ≡ slice_piece idr poc (map (λ row. escape row.items) rows.now)) }
{
    let Substreams { bytes, mut lengths } = escape_rows(alloc, rows)?;
    // The last row has no entry point after it.
    let _ = lengths.pop();
    let offsets = Numbers::from_vec(lengths);
    let head = write_head(alloc, &Head { idr, poc, offsets })?;
    let mut piece = Vec::new(alloc);
    append_unit(&mut piece, header(idr), &head)?;
    piece.extend_from_slice(&bytes)?;
    Ok(piece)
}

// nal_unit_type is IDR_N_LP or TRAIL_R, in layer 0 and the lowest sub-layer (7.3.1.2, 7.4.2.2).
pub(crate) fn header(idr: bool) -> [u8; 2]
    ensures { result ≡ nal_header idr }
{
    if idr { [0x28, 0x01] } else { [0x02, 0x01] }
}

// The rows with emulation prevention, and the lengths of each.
fn escape_rows(alloc: Global, rows: &[Vec<u8>]) -> Result<Substreams, NoMemory>
    requires { All (λ row. IsSubstream row.items) rows.now }
    ensures bytes { IfOk result (λ s. s.bytes.items ≡ joined (map (λ row. escape row.items) rows.now)) }
    ensures lengths { IfOk result (λ s. s.lengths.items ≡ map (λ row. length (escape row.items)) rows.now) }
{
    let mut bytes = Vec::new(alloc);
    let mut lengths = Vec::with_capacity(alloc, rows.len())?;
    for row in rows {
        let escaped = escape(alloc, row)?;
        lengths.push(escaped.len() as u32)?;
        bytes.extend_from_slice(&escaped)?;
    }
    Ok(Substreams { bytes, lengths })
}
