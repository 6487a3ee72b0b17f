//! Reading slice segment headers.
ghost use Rattle.std.specs.Prelude.{◌≡◌, ◌-◌, ◌<◌, ◌≤◌, ◌++◌, ◌∷◌, [], Ok, Err, length, true, IfOk, MatchResult};
ghost use Rattle.h265_model.specs.Fields.{golomb, read_fields};
ghost use Rattle.h265_model.specs.SliceHead.{head_front, head_middle, read_poc, read_offsets, read_entries, read_head};
ghost use Rattle.slice_head.specs.Answers.{IsAnswer, IsList, aligned_length, front_of};

use crate::tables::{front, middle};
use crate::{Head, HeadError};
use bit_string::{BitReader, Descriptor, Field, read_fields};
use h265_model::Numbers;
use std::alloc::Global;

/// Reads the header of a picture of `rows` rows of coding tree units that stands at the front of these bytes, and says how
/// many bytes it has (7.3.6.1).
///
/// It needs at least one row. `BadHead` names the first field that differs, or at which the bits end. After `NoMemory`
/// nothing has changed.
pub fn read_head(alloc: Global, rbsp: &[u8], idr: bool, rows: u32) -> Result<(Head, u64), HeadError>
    requires { 1 ≤ rows }
    ensures answer { IsAnswer (read_head rbsp.now idr rows) result }
    ensures within { IfOk result (λ found. found.1 ≤ length rbsp.now) }
{
    let mut from = BitReader::new(rbsp);
    let poc = match read_front(&mut from, idr, rows - 1) {
        Ok(poc) => poc,
        Err(field) => return Err(HeadError::BadHead { field }),
    };
    let offsets = match read_entries(alloc, &mut from, rows - 1) {
        Ok(offsets) => offsets,
        Err(error) => return Err(error),
    };
    match aligned_length(rbsp, &mut from, 13) {
        Ok(length) => Ok((Head { idr, poc, offsets }, length)),
        Err(field) => Err(HeadError::BadHead { field }),
    }
}

/// Reads byte_alignment, of this number in the header's table, and says how many of all these bytes are before what is left
/// (7.3.2.12).
pub(crate) fn aligned_length(rbsp: &[u8], from: &mut BitReader, number: u32) -> Result<u64, u32>
    ensures found { MatchResult result
        (λ length. aligned_length rbsp.now number from.old.left ≡ Ok length)
        (λ field. aligned_length rbsp.now number from.old.left ≡ Err field) }
    ensures within { IfOk result (λ end. end ≤ length rbsp.now) }
{
    match from.align_one() {
        None => Err(number),
        Some(()) => Ok(rbsp.len().saturating_sub(from.bytes_left()) as u64),
    }
}

/// Reads the fields up to num_entry_point_offsets, of which all but slice_pic_order_cnt_lsb are known: that one.
pub(crate) fn read_front(from: &mut BitReader, idr: bool, count: u32) -> Result<u32, u32>
    ensures read { MatchResult result
        (λ poc. front_of idr count from.old.left ≡ Ok (poc, from.new.left))
        (λ field. front_of idr count from.old.left ≡ Err field) }
    ensures low { IfOk result (λ poc. poc < 256) }
    ensures none { IfOk result (λ poc. idr ≡ true → poc ≡ 0) }
{
    read_fixed_front(from, idr)?;
    let poc = read_poc(from, idr)?;
    read_fixed_middle(from, idr, count)?;
    Ok(poc)
}

fn read_fixed_front(from: &mut BitReader, idr: bool) -> Result<(), u32>
    ensures { MatchResult result
        (λ _. read_fields (head_front idr) from.old.left ≡ Ok from.new.left)
        (λ field. read_fields (head_front idr) from.old.left ≡ Err field) }
{
    read_fields(from, front(idr))
}

fn read_fixed_middle(from: &mut BitReader, idr: bool, count: u32) -> Result<(), u32>
    ensures { MatchResult result
        (λ _. read_fields (head_middle idr ++ golomb 10 count ∷ []) from.old.left ≡ Ok from.new.left)
        (λ field. read_fields (head_middle idr ++ golomb 10 count ∷ []) from.old.left ≡ Err field) }
{
    read_fields(from, middle(idr))?;
    read_known(from, 10, count)
}

// A field in ue(v) of which the value is known
fn read_known(from: &mut BitReader, number: u32, value: u32) -> Result<(), u32>
    ensures { MatchResult result
        (λ _. read_fields (golomb number value ∷ []) from.old.left ≡ Ok from.new.left)
        (λ field. read_fields (golomb number value ∷ []) from.old.left ≡ Err field) }
{
    let coding = Descriptor::Ue;
    read_fields(
        from,
        &[Field {
            number,
            coding,
            value,
        }],
    )
}

fn read_poc(from: &mut BitReader, idr: bool) -> Result<u32, u32>
    ensures read { MatchResult result
        (λ poc. read_poc idr from.old.left ≡ Ok (poc, from.new.left))
        (λ field. read_poc idr from.old.left ≡ Err field) }
    ensures low { IfOk result (λ poc. poc < 256) }
    ensures none { IfOk result (λ poc. idr ≡ true → poc ≡ 0) }
{
    if idr {
        return Ok(0);
    }
    match from.bits(8) {
        Some(poc) if poc < 256 => Ok(poc),
        _ => Err(5),
    }
}

fn read_entries(alloc: Global, from: &mut BitReader, count: u32) -> Result<Numbers, HeadError>
    ensures { IsList (read_entries count from.old.left) result from.new.left }
{
    if count == 0 {
        return Ok(Numbers::from_vec(Vec::new(alloc)));
    }
    if let Err(field) = read_known(from, 11, 31) {
        return Err(HeadError::BadHead { field });
    }
    read_offsets(alloc, from, count)
}

fn read_offsets(alloc: Global, from: &mut BitReader, count: u32) -> Result<Numbers, HeadError>
    ensures { IsList (read_offsets count from.old.left) result from.new.left }
{
    let mut offsets = Vec::new(alloc);
    for _ in 0..count {
        match from.bits(32) {
            Some(last) if last < u32::MAX => match offsets.push(last + 1) {
                Ok(()) => {}
                Err(_) => return Err(HeadError::NoMemory),
            },
            _ => return Err(HeadError::BadHead { field: 12 }),
        }
    }
    Ok(Numbers::from_vec(offsets))
}
