//! Slice segment headers of pictures whose slice has a segment for each row, written and read.
ghost use Rattle.std.specs.Prelude.{◌≡◌, ◌<◌, ◌≤◌, ◌^◌, ◌++◌, length, true, Ok, Err, OnOk, IfOk, MatchResult};
ghost use Rattle.h265_model.specs.Bits.{bits, bytes};
ghost use Rattle.h265_model.specs.Fields.{fields_bits, read_fields};
ghost use Rattle.h265_model.specs.SliceHead.{address_bits, dependent_fields, segment_bits, read_segment_head};
ghost use Rattle.slice_head.specs.Answers.{address_fields, first_read, later_read};

use crate::reading::{aligned_length, read_front};
use crate::tables::dependent_front;
use crate::{BadSegment, Head, write_head};
use bit_string::{BitReader, BitWriter, Descriptor, Field, read_fields, write_fields};
use h265_model::{NoMemory, Numbers};
use std::alloc::Global;

/// The bytes of the header of the segment that begins with the coding tree unit `address`, up to its substream (7.3.6.1).
///
/// `ctus` is the number of coding tree units of the picture, and `poc` the low 8 bits of the picture order count, which
/// only the segment at address 0 tells. The segments at other addresses are dependent ones.
pub fn write_segment_head(
    alloc: Global,
    idr: bool,
    poc: u32,
    address: u32,
    ctus: u32,
) -> Result<Vec<u8>, NoMemory>
    requires inside { address < ctus }
    requires low { poc < 256 }
    requires none { idr ≡ true → poc ≡ 0 }
    ensures { IfOk result (λ head. head.items ≡ bytes (segment_bits idr poc address ctus)) }
{
    if address == 0 {
        let offsets = Numbers::from_vec(Vec::new(alloc));
        return write_head(alloc, &Head { idr, poc, offsets });
    }
    let mut out = BitWriter::new(alloc);
    write_fields(&mut out, dependent_front(idr))?;
    write_address(&mut out, address, ctus)?;
    out.align_one()?;
    Ok(out.into_bytes())
}

// slice_segment_address and num_entry_point_offsets
fn write_address(out: &mut BitWriter, address: u32, ctus: u32) -> Result<(), NoMemory>
    requires later { 0 < address }
    requires inside { address < ctus }
    ensures { OnOk result (out.new ≡ out.old ++ fields_bits (address_fields address ctus)) }
{
    out.put(address_bits(ctus), address)?;
    out.ue(0)
}

// Ceil( Log2( PicSizeInCtbsY ) ), the number of bits of slice_segment_address (7.4.7.1)
fn address_bits(ctus: u32) -> u32
    requires { 2 ≤ ctus }
    ensures count { result ≡ address_bits ctus }
    ensures some { 0 < result }
    ensures most { result ≤ 32 }
    ensures holds { ctus ≤ 2 ^ result }
{
    (ctus - 1).ilog2() + 1
}

/// Reads the header of the segment that begins with the coding tree unit `address`, which stands at the front of these bytes: the
/// low 8 bits of the picture order count, and how many bytes the header has (7.3.6.1).
///
/// `ctus` is the number of coding tree units of the picture. The order count is 0 where the header has none, in an IDR
/// picture and for an address above 0. `BadSegment` names the first field that differs, or at which the bits end.
pub fn read_segment_head(
    rbsp: &[u8],
    idr: bool,
    address: u32,
    ctus: u32,
) -> Result<(u32, u64), BadSegment>
    requires inside { address < ctus }
    ensures found { MatchResult result
        (λ found. read_segment_head rbsp.now idr address ctus ≡ Ok found)
        (λ bad. read_segment_head rbsp.now idr address ctus ≡ Err bad.field) }
    ensures low { IfOk result (λ found. found.0 < 256) }
    ensures none { IfOk result (λ found. idr ≡ true → found.0 ≡ 0) }
    ensures within { IfOk result (λ found. found.1 ≤ length rbsp.now) }
{
    match read_segment(rbsp, idr, address, ctus) {
        Ok(found) => Ok(found),
        Err(field) => Err(BadSegment { field }),
    }
}

fn read_segment(rbsp: &[u8], idr: bool, address: u32, ctus: u32) -> Result<(u32, u64), u32>
    requires inside { address < ctus }
    ensures found { MatchResult result
        (λ found. read_segment_head rbsp.now idr address ctus ≡ Ok found)
        (λ field. read_segment_head rbsp.now idr address ctus ≡ Err field) }
    ensures low { IfOk result (λ found. found.0 < 256) }
    ensures none { IfOk result (λ found. idr ≡ true → found.0 ≡ 0) }
    ensures within { IfOk result (λ found. found.1 ≤ length rbsp.now) }
{
    if address == 0 {
        return read_first(rbsp, idr);
    }
    let length = read_later(rbsp, idr, address, ctus)?;
    Ok((0, length))
}

// The header of the segment at address 0, which is that of a slice without entry points
fn read_first(rbsp: &[u8], idr: bool) -> Result<(u32, u64), u32>
    ensures found { MatchResult result
        (λ found. first_read rbsp.now idr ≡ Ok found)
        (λ field. first_read rbsp.now idr ≡ Err field) }
    ensures low { IfOk result (λ found. found.0 < 256) }
    ensures none { IfOk result (λ found. idr ≡ true → found.0 ≡ 0) }
    ensures within { IfOk result (λ found. found.1 ≤ length rbsp.now) }
{
    let mut from = BitReader::new(rbsp);
    let poc = read_front(&mut from, idr, 0)?;
    let length = aligned_length(rbsp, &mut from, 13)?;
    Ok((poc, length))
}

// The length of the header of a dependent segment
fn read_later(rbsp: &[u8], idr: bool, address: u32, ctus: u32) -> Result<u64, u32>
    requires { 2 ≤ ctus }
    ensures found { MatchResult result
        (λ length. later_read rbsp.now (dependent_fields idr address ctus) ≡ Ok length)
        (λ field. later_read rbsp.now (dependent_fields idr address ctus) ≡ Err field) }
    ensures within { IfOk result (λ end. end ≤ length rbsp.now) }
{
    let mut from = BitReader::new(rbsp);
    read_dependent(&mut from, idr, address, ctus)?;
    aligned_length(rbsp, &mut from, 7)
}

fn read_dependent(from: &mut BitReader, idr: bool, address: u32, ctus: u32) -> Result<(), u32>
    requires { 2 ≤ ctus }
    ensures { MatchResult result
        (λ _. read_fields (dependent_fields idr address ctus) from.old.left ≡ Ok from.new.left)
        (λ field. read_fields (dependent_fields idr address ctus) from.old.left ≡ Err field) }
{
    read_fields(from, dependent_front(idr))?;
    read_address(from, address, ctus)
}

// slice_segment_address and num_entry_point_offsets
fn read_address(from: &mut BitReader, address: u32, ctus: u32) -> Result<(), u32>
    requires { 2 ≤ ctus }
    ensures { MatchResult result
        (λ _. read_fields (address_fields address ctus) from.old.left ≡ Ok from.new.left)
        (λ field. read_fields (address_fields address ctus) from.old.left ≡ Err field) }
{
    let coding = Descriptor::U(address_bits(ctus));
    read_fields(
        from,
        &[
            Field {
                number: 5,
                coding,
                value: address,
            },
            Field {
                number: 6,
                coding: Descriptor::Ue,
                value: 0,
            },
        ],
    )
}
