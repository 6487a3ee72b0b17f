//! Reading parameter sets.
ghost use Rattle.std.specs.Prelude.{◌≡◌, ◌+◌, ◌<◌, ◌≤◌, Ok, Err, ◌∷◌, [], length, bytes_eq, nat_lt, IfOk, IsTrue, MatchResult};
ghost use Rattle.h265_model.specs.Plain.{coded};
ghost use Rattle.h265_model.specs.Fields.{golomb, read_fields};
ghost use Rattle.bit_string.specs.Tables.{fields_of, all_wide};
ghost use Rattle.h265_model.specs.ParamSets.{vps_fields, sps_front, sps_back, pps_front, pps_back, segments_flag, read_pps, read_fixed_set, read_sps, read_size, read_window, read_side, read_offset, read_params, is_coded_side};

use crate::Params;
use crate::tables::{PPS_BACK, PPS_FRONT, SPS_BACK, SPS_FRONT, VPS};
use annexb::Unit;
use bit_string::{BitReader, Descriptor, Field, read_fields, read_trailing};
use px_plane::Size;
use thiserror::Error;

// The longest side of a picture.
const MOST_SIDE: u32 = 4096;

/// The first field that isn't as this profile has it: the number of its set, 0 for the video, 1 for the sequence and 2 for
/// the picture parameter set, and its number in the set's table. Field 0 is the NAL unit's header.
#[derive(Clone, Copy, Debug, PartialEq, Eq, Error)]
#[error("field {field} of parameter set {set} differs")]
pub struct BadParam {
    pub set: u32,
    pub field: u32,
}

/// Reads three parameter sets, in the order in which they are written (7.3.2.1 to 7.3.2.3).
///
/// It needs three NAL units and takes no memory. The first field that differs is named, and so is the field at which the
/// bits end; bits after the trailing ones are that last field.
pub fn read_params(sets: &[Unit]) -> Result<Params, BadParam>
    requires { length sets.now ≡ 3 }
    ensures { MatchResult result
        (λ params. read_params sets.now ≡ Ok (params.size, params.segments))
        (λ bad. read_params sets.now ≡ Err (record { set = bad.set; field = bad.field })) }
{
    if let Err(field) = read_vps(&sets[0]) {
        return Err(BadParam { set: 0, field });
    }
    let size = match read_sps(&sets[1]) {
        Ok(size) => size,
        Err(field) => return Err(BadParam { set: 1, field }),
    };
    match read_pps(&sets[2], size) {
        Ok(segments) => Ok(Params { size, segments }),
        Err(field) => Err(BadParam { set: 2, field }),
    }
}

fn read_vps(unit: &Unit) -> Result<(), u32>
    ensures { MatchResult result
        (λ _. read_fixed_set 0x40 vps_fields 17 unit.now ≡ Ok tt)
        (λ field. read_fixed_set 0x40 vps_fields 17 unit.now ≡ Err field) }
{
    read_fixed_set(unit, 0x40, &VPS, 17)
}

// A set of which all fields are fixed.
fn read_fixed_set(unit: &Unit, first: u8, fields: &[Field], trailing: u32) -> Result<(), u32>
    requires { IsTrue (all_wide (fields_of fields.now)) }
    ensures { MatchResult result
        (λ _. read_fixed_set first (fields_of fields.now) trailing unit.now ≡ Ok tt)
        (λ field. read_fixed_set first (fields_of fields.now) trailing unit.now ≡ Err field) }
{
    if !has_header(unit, first) {
        return Err(0);
    }
    let mut from = BitReader::new(unit.rbsp.as_slice());
    read_fields(&mut from, fields)?;
    read_trailing(&mut from, trailing)
}

fn read_sps(unit: &Unit) -> Result<Size, u32>
    ensures { MatchResult result
        (λ size. read_sps unit.now ≡ Ok size)
        (λ field. read_sps unit.now ≡ Err field) }
{
    if !has_header(unit, 0x42) {
        return Err(0);
    }
    let mut from = BitReader::new(unit.rbsp.as_slice());
    read_sps_front(&mut from)?;
    let size = read_size(&mut from)?;
    read_sps_back(&mut from)?;
    read_trailing(&mut from, 63)?;
    Ok(size)
}

fn read_sps_front(from: &mut BitReader) -> Result<(), u32>
    ensures { MatchResult result
        (λ _. read_fields sps_front from.old.left ≡ Ok from.new.left)
        (λ field. read_fields sps_front from.old.left ≡ Err field) }
{
    read_fields(from, &SPS_FRONT)
}

fn read_sps_back(from: &mut BitReader) -> Result<(), u32>
    ensures { MatchResult result
        (λ _. read_fields sps_back from.old.left ≡ Ok from.new.left)
        (λ field. read_fields sps_back from.old.left ≡ Err field) }
{
    read_fields(from, &SPS_BACK)
}

// Whether a picture has a segment for each row.
fn read_pps(unit: &Unit, size: Size) -> Result<bool, u32>
    ensures { MatchResult result
        (λ segments. read_pps size unit.now ≡ Ok segments)
        (λ field. read_pps size unit.now ≡ Err field) }
{
    if !has_header(unit, 0x44) {
        return Err(0);
    }
    let mut from = BitReader::new(unit.rbsp.as_slice());
    read_pps_front(&mut from)?;
    let segments = read_segments(&mut from, size)?;
    read_pps_back(&mut from)?;
    read_trailing(&mut from, 31)?;
    Ok(segments)
}

fn read_pps_front(from: &mut BitReader) -> Result<(), u32>
    ensures { MatchResult result
        (λ _. read_fields pps_front from.old.left ≡ Ok from.new.left)
        (λ field. read_fields pps_front from.old.left ≡ Err field) }
{
    read_fields(from, &PPS_FRONT)
}

fn read_pps_back(from: &mut BitReader) -> Result<(), u32>
    ensures { MatchResult result
        (λ _. read_fields pps_back from.old.left ≡ Ok from.new.left)
        (λ field. read_fields pps_back from.old.left ≡ Err field) }
{
    read_fields(from, &PPS_BACK)
}

// dependent_slice_segments_enabled_flag, which is 0 where a picture is at most one coding tree block wide.
fn read_segments(from: &mut BitReader, size: Size) -> Result<bool, u32>
    ensures { MatchResult result
        (λ segments. segments_flag size from.old.left ≡ Ok (segments, from.new.left))
        (λ field. segments_flag size from.old.left ≡ Err field) }
{
    match from.bits(1) {
        None => Err(3),
        Some(0) => Ok(false),
        Some(_) if is_wide(size) => Ok(true),
        Some(_) => Err(3),
    }
}

// The coded picture is wider than a coding tree block.
fn is_wide(size: Size) -> bool
    ensures { result ≡ nat_lt 32 (coded size.w) }
{
    (size.w() + 7) / 8 * 8 > 32
}

fn has_header(unit: &Unit, first: u8) -> bool
    ensures { result ≡ bytes_eq unit.now.header (first ∷ 1 ∷ []) }
{
    unit.header == [first, 1]
}

// The size of the coded picture with the window of it that is shown (7.4.3.2.1).
fn read_size(from: &mut BitReader) -> Result<Size, u32>
    ensures { MatchResult result
        (λ size. read_size from.old.left ≡ Ok (size, from.new.left))
        (λ field. read_size from.old.left ≡ Err field) }
{
    let w = read_side(from, 8)?;
    let h = read_side(from, 9)?;
    match from.bits(1) {
        None => Err(10),
        Some(0) => Size::new(w, h).ok_or(10),
        Some(_) => read_window(from, w, h),
    }
}

fn read_window(from: &mut BitReader, w: u32, h: u32) -> Result<Size, u32>
    requires coded_w { IsTrue (is_coded_side w) }
    requires coded_h { IsTrue (is_coded_side h) }
    ensures { MatchResult result
        (λ size. read_window w h from.old.left ≡ Ok (size, from.new.left))
        (λ field. read_window w h from.old.left ≡ Err field) }
{
    read_no_offset(from, 11)?;
    let right = read_offset(from, 12)?;
    read_no_offset(from, 13)?;
    let bottom = read_offset(from, 14)?;
    if right + bottom == 0 {
        return Err(14);
    }
    Size::new(w - right, h - bottom).ok_or(14)
}

fn read_side(from: &mut BitReader, number: u32) -> Result<u32, u32>
    ensures read { MatchResult result
        (λ side. read_side number from.old.left ≡ Ok (side, from.new.left))
        (λ field. read_side number from.old.left ≡ Err field) }
    ensures coded { IfOk result (λ side. IsTrue (is_coded_side side)) }
{
    match from.ue() {
        Some(side) if side % 8 == 0 && side >= 8 && side <= MOST_SIDE => Ok(side),
        _ => Err(number),
    }
}

fn read_offset(from: &mut BitReader, number: u32) -> Result<u32, u32>
    ensures read { MatchResult result
        (λ offset. read_offset number from.old.left ≡ Ok (offset, from.new.left))
        (λ field. read_offset number from.old.left ≡ Err field) }
    ensures few { IfOk result (λ offset. offset < 8) }
{
    match from.ue() {
        Some(offset) if offset <= 7 => Ok(offset),
        _ => Err(number),
    }
}

fn read_no_offset(from: &mut BitReader, number: u32) -> Result<(), u32>
    ensures { MatchResult result
        (λ _. read_fields (golomb number 0 ∷ []) from.old.left ≡ Ok from.new.left)
        (λ field. read_fields (golomb number 0 ∷ []) from.old.left ≡ Err field) }
{
    let coding = Descriptor::Ue;
    read_fields(
        from,
        &[Field {
            number,
            coding,
            value: 0,
        }],
    )
}
