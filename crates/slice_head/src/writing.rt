//! Writing slice segment headers.
ghost use Rattle.std.specs.Prelude.{◌≡◌, ◌-◌, ◌<◌, ◌^◌, ◌++◌, length, map, true, OnOk, IfOk};
ghost use Rattle.std.specs.List.{All};
ghost use Rattle.h265_model.specs.Bits.{bytes};
ghost use Rattle.h265_model.specs.Fields.{fixed, fields_bits};
ghost use Rattle.h265_model.specs.SliceHead.{head_bits, poc_fields, entry_points};

use crate::Head;
use crate::tables::{front, middle};
use bit_string::{BitWriter, write_fields};
use h265_model::NoMemory;
use std::alloc::Global;

/// The header's bytes, up to the first substream (7.3.6.1).
pub fn write_head(alloc: Global, head: &Head) -> Result<Vec<u8>, NoMemory>
    requires some_bytes { All (λ offset. 0 < offset) head.now.offsets }
    requires fewer { length head.now.offsets < 2 ^ 32 - 1 }
    ensures { IfOk result (λ out. out.items ≡ bytes (head_bits head.now)) }
{
    let mut out = BitWriter::new(alloc);
    write_fields(&mut out, front(head.idr))?;
    write_poc(&mut out, head.idr, head.poc)?;
    write_fields(&mut out, middle(head.idr))?;
    write_entry_points(&mut out, head.offsets.as_slice())?;
    out.align_one()?;
    Ok(out.into_bytes())
}

// slice_pic_order_cnt_lsb, which IDR pictures don't have
fn write_poc(out: &mut BitWriter, idr: bool, poc: u32) -> Result<(), NoMemory>
    requires { poc < 256 }
    ensures { OnOk result (out.new ≡ out.old ++ fields_bits (poc_fields idr poc)) }
{
    if idr {
        return Ok(());
    }
    out.put(8, poc)
}

// num_entry_point_offsets and what follows it
fn write_entry_points(out: &mut BitWriter, offsets: &[u32]) -> Result<(), NoMemory>
    requires some_bytes { All (λ offset. 0 < offset) offsets.now }
    requires fewer { length offsets.now < 2 ^ 32 - 1 }
    ensures { OnOk result (out.new ≡ out.old ++ fields_bits (entry_points offsets.now)) }
{
    out.ue(offsets.len() as u32)?;
    if offsets.is_empty() {
        return Ok(());
    }
    out.ue(31)?;
    write_offsets(out, offsets)
}

fn write_offsets(out: &mut BitWriter, offsets: &[u32]) -> Result<(), NoMemory>
    requires { All (λ offset. 0 < offset) offsets.now }
    ensures { OnOk result (out.new ≡ out.old ++ fields_bits (map (λ offset. fixed 12 32 (offset - 1)) offsets.now)) }
{
    for offset in offsets {
        out.put(32, *offset - 1)?;
    }
    Ok(())
}
