//! A picture's NAL units, where each row of coding tree units is a slice segment.
ghost use Rattle.std.specs.Prelude.{◌≡◌, ◌<◌, ◌^◌, ◌*◌, ◌++◌, ℕ, List, length, map, flat_map, true, OnOk, IfOk};
ghost use Rattle.h265_model.specs.Plain.{Size, below, ctus};
ghost use Rattle.h265_model.specs.Stream.{segment_piece};
ghost use Rattle.slice_assembly.specs.Segments.{segment_unit};

use crate::assembly::header;
use annexb::{append_unit, escape};
use h265_model::NoMemory;
use slice_head::write_segment_head;
use std::alloc::Global;

/// The NAL units of a picture, one for each row of coding tree units, each after a start code: its header, the slice segment
/// header and the row with emulation prevention (7.3.1.1, 7.3.6.1, 7.3.8.1).
///
/// `poc` is the low 8 bits of the picture order count, and 0 for an IDR picture. `across` is how many coding tree units a row
/// has. `rows` are the data of the segments, from the top, without emulation prevention.
pub fn assemble_segments(
    alloc: Global,
    idr: bool,
    poc: u32,
    across: u32,
    rows: &[Vec<u8>],
) -> Result<Vec<u8>, NoMemory>
    requires low { poc < 256 }
    requires first { idr ≡ true → poc ≡ 0 }
    requires wide { 0 < across }
    requires fewer { length rows.now < 2 ^ 32 }
    requires units { across * length rows.now < 2 ^ 32 }
    ensures { IfOk result (λ pieces. (size : Size) (code : ℕ → List ℕ) → ctus size.w ≡ across → map (λ row. row.items) rows.now ≡ map code (below (ctus size.h))
        → pieces.items ≡ flat_map (λ row. segment_piece size idr poc row (code row)) (below (ctus size.h))) }
{
    let ctus = across * rows.len() as u32;
    let mut address = 0;
    let mut pieces = Vec::new(alloc);
    for row in rows {
        append_segment(alloc, &mut pieces, idr, poc, address, ctus, row)?;
        address += across;
    }
    Ok(pieces)
}

// Appends the NAL unit of a row.
fn append_segment(
    alloc: Global,
    pieces: &mut Vec<u8>,
    idr: bool,
    poc: u32,
    address: u32,
    ctus: u32,
    row: &[u8],
) -> Result<(), NoMemory>
    requires low { poc < 256 }
    requires first { idr ≡ true → poc ≡ 0 }
    requires inside { address < ctus }
    ensures { OnOk result (pieces.new.items ≡ pieces.old.items ++ segment_unit idr poc address ctus row.now) }
{
    let head = write_segment_head(alloc, idr, poc, address, ctus)?;
    let escaped = escape(alloc, row)?;
    append_unit(pieces, header(idr), &head)?;
    pieces.extend_from_slice(&escaped)?;
    Ok(())
}
