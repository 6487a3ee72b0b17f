//! Emulation prevention, and NAL units after their start codes.
ghost use Rattle.std.specs.Prelude.{◌≡◌, ◌≤◌, ◌<◌, ◌++◌, length, take, drop, OnOk, OnErr, IfOk};
ghost use Rattle.h265_model.specs.NalUnits.{escape, nal_unit_bytes};
ghost use Rattle.annexb.specs.Escaping.{from_mark, Begins};

use crate::marks::find_mark;
use h265_model::NoMemory;
use std::alloc::Global;

/// Puts 03 before each byte of at most 3 that follows two zero bytes of the output (7.4.2.1).
///
/// It may be called for the bytes of a payload after its header, or for a part of them that follows a byte other than 0.
pub fn escape(alloc: Global, bytes: &[u8]) -> Result<Vec<u8>, NoMemory>
    ensures { IfOk result (λ out. out.items ≡ escape bytes.now) }
{
    let mut out = Vec::new(alloc);
    out.reserve(bytes.len())?;
    append_escaped(&mut out, bytes)?;
    Ok(out)
}

/// Appends a start code of four bytes, the NAL unit's header and its payload with emulation prevention (7.3.1.1, B.2.1).
///
/// After `NoMemory` the bytes are as they were.
pub fn append_unit(out: &mut Vec<u8>, header: [u8; 2], rbsp: &[u8]) -> Result<(), NoMemory>
    ensures ok { OnOk result (out.new.items
        ≡ out.old.items ++ nal_unit_bytes (record { header = header; rbsp = rbsp.now })) }
    ensures err { OnErr result (out.new.items ≡ out.old.items) }
{
    let start = out.len();
    match append_parts(out, header, rbsp) {
        Ok(()) => Ok(()),
        Err(refused) => {
            out.truncate(start);
            Err(refused)
        }
    }
}

fn append_parts(out: &mut Vec<u8>, header: [u8; 2], rbsp: &[u8]) -> Result<(), NoMemory>
    ensures ok { OnOk result (out.new.items
        ≡ out.old.items ++ nal_unit_bytes (record { header = header; rbsp = rbsp.now })) }
    ensures kept { Begins out.old.items out.new.items }
{
    out.extend_from_slice(&[0, 0, 0, 1])?;
    out.extend_from_slice(&header)?;
    append_escaped(out, rbsp)
}

fn append_escaped(out: &mut Vec<u8>, bytes: &[u8]) -> Result<(), NoMemory>
    ensures ok { OnOk result (out.new.items ≡ out.old.items ++ escape bytes.now) }
    ensures kept { Begins out.old.items out.new.items }
{
    let mut rest = bytes;
    loop {
        let mark = next_mark(rest);
        out.extend_from_slice(&rest[..mark])?;
        if mark == rest.len() {
            return Ok(());
        }
        out.push(3)?;
        rest = &rest[mark..];
    }
}

// The place of the first byte that needs a 03 before it, or the length.
fn next_mark(bytes: &[u8]) -> usize
    ensures within { result ≤ length bytes.now }
    ensures later { result < length bytes.now → 2 ≤ result }
    ensures parts { escape bytes.now ≡ take result bytes.now ++ from_mark (drop result bytes.now) }
{
    find_mark(bytes, 0, 3)
}
