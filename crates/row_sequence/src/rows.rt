//! The rows of a picture.
ghost use Rattle.std.specs.Prelude.{◌≡◌, ◌<◌, ◌≤◌, ◌+◌, ◌*◌, ℕ, List, map, IfOk, OnOk};
ghost use Rattle.h265_model.specs.Plain.{ctus, below};
ghost use Rattle.h265_model.specs.Contexts.{row_start};
ghost use Rattle.h265_model.specs.Code.{code};
ghost use Rattle.h265_model.specs.Tiles.{tile_count};
ghost use Rattle.cabac_bytes.specs.State.{stands_for, phase_of};
ghost use Rattle.row_sequence.specs.Sequence.{CtuItems, ends_of, has_end, flagged, row_of, handed_of, code_of, IsAfter};

use crate::writer::{Ending, UnitWriter};
use bin_items::{Bin, BinSink, Place};
use cabac_bytes::ByteCoder;
use cabac_tables::Contexts;
use h265_model::{NoMemory, SliceKind};
use px_plane::Size;
use std::alloc::Global;

// A row that is coded.
#[derive(Drop)]
struct CodedRow {
    bytes: Vec<u8>,
    // The contexts after its second coding tree unit; after the first where there is no other.
    second: Contexts,
}

// The contexts that a row starts from (9.3.1). `across` is how many coding tree units stand side by side.
fn first_of(kind: SliceKind, across: u32, row: u32, handed: Contexts) -> Contexts
    ensures { (other : List ℕ) → (2 ≤ across → handed ≡ other) → result ≡ row_start kind across row other }
{
    if row == 0 || across < 2 {
        return Contexts::start(kind);
    }
    handed
}

// end_of_slice_segment_flag after a coding tree unit.
fn ends(ending: Ending, size: Size, ctu: u32) -> bool
    requires { ctu < tile_count size }
    ensures { result ≡ ends_of ending size ctu }
{
    let across = (size.w() + 31) / 32;
    match ending {
        Ending::Slice => ctu + 1 == across * ((size.h() + 31) / 32),
        Ending::Segment => (ctu + 1) % across == 0,
    }
}

// Whether end_of_subset_one_bit ends a row.
fn has_subset_end(ending: Ending, size: Size, row: u32) -> bool
    requires { row < ctus size.h }
    ensures { result ≡ has_end ending size row }
{
    match ending {
        Ending::Slice => row + 1 != (size.h() + 31) / 32,
        Ending::Segment => false,
    }
}

// Writes a coding tree unit of a row, and the flag after it.
fn write_unit<W: UnitWriter>(
    coder: &mut ByteCoder,
    size: Size,
    ending: Ending,
    row: u32,
    unit: u32,
    writer: &mut W,
) -> Result<(), NoMemory>
    requires size { W.size writer.old ≡ size }
    requires row { row < ctus size.h }
    requires unit { unit < ctus size.w }
    requires next { W.is_at writer.old (row * ctus size.w + unit) }
    requires phase { IsAfter ending size row unit (phase_of coder.old) }
    ensures size { W.size writer.new ≡ W.size writer.old }
    ensures items { W.items writer.new ≡ W.items writer.old }
    ensures next { OnOk result (W.is_at writer.new (row * ctus size.w + (unit + 1))) }
    ensures phase { OnOk result (IsAfter ending size row (unit + 1) (phase_of coder.new)) }
    ensures written { OnOk result ((first : List ℕ) → stands_for coder.old (flagged (ends_of ending size) size (W.items writer.old) row unit) first
        → stands_for coder.new (flagged (ends_of ending size) size (W.items writer.old) row (unit + 1)) first) }
{
    let ctu = row * ((size.w() + 31) / 32) + unit;
    writer.write_ctu(coder, ctu)?;
    coder.bin(Bin {
        value: ends(ending, size, ctu),
        place: Place::Terminate,
    })?;
    Ok(())
}

// Writes the coding tree units of a row from one on, before another.
fn write_units<W: UnitWriter>(
    coder: &mut ByteCoder,
    size: Size,
    ending: Ending,
    row: u32,
    from: u32,
    to: u32,
    writer: &mut W,
) -> Result<(), NoMemory>
    requires size { W.size writer.old ≡ size }
    requires row { row < ctus size.h }
    requires from { from ≤ to }
    requires to { to ≤ ctus size.w }
    requires next { W.is_at writer.old (row * ctus size.w + from) }
    requires phase { IsAfter ending size row from (phase_of coder.old) }
    ensures size { W.size writer.new ≡ W.size writer.old }
    ensures items { W.items writer.new ≡ W.items writer.old }
    ensures next { OnOk result (W.is_at writer.new (row * ctus size.w + to)) }
    ensures phase { OnOk result (IsAfter ending size row to (phase_of coder.new)) }
    ensures written { OnOk result ((first : List ℕ) → stands_for coder.old (flagged (ends_of ending size) size (W.items writer.old) row from) first
        → stands_for coder.new (flagged (ends_of ending size) size (W.items writer.old) row to) first) }
{
    for unit in from..to {
        write_unit(coder, size, ending, row, unit, writer)?;
    }
    Ok(())
}

// The bytes of a row whose coding tree units are written.
fn end_row(coder: ByteCoder, size: Size, ending: Ending, row: u32) -> Result<Vec<u8>, NoMemory>
    requires wide { 0 < ctus size.w }
    requires row { row < ctus size.h }
    requires phase { IsAfter ending size row (ctus size.w) (phase_of coder) }
    ensures { IfOk result (λ bytes. (items : CtuItems) (first : List ℕ) → stands_for coder (flagged (ends_of ending size) size items row (ctus size.w)) first
        → bytes.items ≡ code (row_of ending size items row) first) }
{
    let mut coder = coder;
    if has_subset_end(ending, size, row) {
        coder.bin(Bin {
            value: true,
            place: Place::Terminate,
        })?;
    }
    coder.finish()
}

// How many coding tree units of a row come before its contexts are handed on.
fn first_few(across: u32) -> u32
    ensures few { result ≤ across }
    ensures two { 2 ≤ across → result ≡ 2 }
{
    if across < 2 { across } else { 2 }
}

// Codes a row from what the row above hands on.
fn code_row<W: UnitWriter>(
    alloc: Global,
    kind: SliceKind,
    size: Size,
    ending: Ending,
    row: u32,
    handed: Contexts,
    writer: &mut W,
) -> Result<CodedRow, NoMemory>
    requires size { W.size writer.old ≡ size }
    requires row { row < ctus size.h }
    requires next { W.is_at writer.old (row * ctus size.w) }
    requires handed { 2 ≤ ctus size.w → handed ≡ handed_of kind size (W.items writer.old) row }
    ensures size { W.size writer.new ≡ W.size writer.old }
    ensures items { W.items writer.new ≡ W.items writer.old }
    ensures next { OnOk result (W.is_at writer.new ((row + 1) * ctus size.w)) }
    ensures bytes { IfOk result (λ coded. coded.bytes.items ≡ code_of ending kind size (W.items writer.old) row) }
    ensures second { IfOk result (λ coded. 2 ≤ ctus size.w → coded.second ≡ handed_of kind size (W.items writer.old) (row + 1)) }
{
    let across = (size.w() + 31) / 32;
    let few = first_few(across);
    let mut coder = ByteCoder::new(alloc, first_of(kind, across, row, handed));
    write_units(&mut coder, size, ending, row, 0, few, writer)?;
    let second = coder.contexts();
    write_units(&mut coder, size, ending, row, few, across, writer)?;
    let bytes = end_row(coder, size, ending, row)?;
    Ok(CodedRow { bytes, second })
}

/// The bytes of a picture's rows of coding tree units, from the top, in a slice of this kind, without emulation prevention. Each row but the first starts
/// from the contexts after the second coding tree unit of the row above, where there are two (9.3.1).
///
/// The writer has the size of the picture, and has written no coding tree unit.
///
/// # Errors
///
/// `NoMemory` where the allocator refuses something. The writer then writes no other unit.
pub fn rows_in_order<W: UnitWriter>(
    alloc: Global,
    kind: SliceKind,
    size: Size,
    ending: Ending,
    writer: &mut W,
) -> Result<Vec<Vec<u8>>, NoMemory>
    requires size { W.size writer.old ≡ size }
    requires first { W.is_at writer.old 0 }
    ensures { IfOk result (λ rows. map (λ row. row.items) rows.items ≡ map (code_of ending kind size (W.items writer.old)) (below (ctus size.h))) }
{
    let down = (size.h() + 31) / 32;
    let mut rows = Vec::with_capacity(alloc, down as usize)?;
    let mut handed = Contexts::start(kind);
    for row in 0..down {
        let coded = code_row(alloc, kind, size, ending, row, handed, writer)?;
        handed = coded.second;
        rows.push(coded.bytes)?;
    }
    Ok(rows)
}
