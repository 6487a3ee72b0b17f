//! Writing parameter sets.
ghost use Rattle.std.specs.Prelude.{◌≡◌, ◌<◌, ◌++◌, ◌∷◌, [], OnOk, IfOk};
ghost use Rattle.h265_model.specs.Bits.{bytes, ue};
ghost use Rattle.h265_model.specs.Fields.{fixed, fields_bits, aligned_bits};
ghost use Rattle.h265_model.specs.NalUnits.{stream_bytes};
ghost use Rattle.h265_model.specs.ParamSets.{vps_fields, sps_fields, pps_fields, size_fields, flag, param_units};

use crate::tables::{PPS_BACK, PPS_FRONT, SPS_BACK, SPS_FRONT, VPS};
use annexb::append_unit;
use bit_string::{BitWriter, write_fields};
use h265_model::NoMemory;
use px_plane::Size;
use std::alloc::Global;

/// What parameter sets tell of a stream. All else in them is fixed.
#[derive(Clone, Copy, Debug, PartialEq, Eq)]
pub struct Params {
    /// The size of the desktop.
    pub size: Size,
    /// A picture has a slice segment for each row of coding tree blocks. Sets that say so are read where the picture is coded
    /// in more than 32 columns.
    pub segments: bool,
}

/// The first piece of a stream: the video, sequence and picture parameter sets, each after a start code of four bytes
/// (7.3.2.1 to 7.3.2.3, B.2.1).
pub fn write_params(alloc: Global, params: &Params) -> Result<Vec<u8>, NoMemory>
    ensures { IfOk result (λ out. out.items ≡ stream_bytes (param_units params.now.size params.now.segments)) }
{
    let vps = vps(alloc)?;
    let sps = sps(alloc, params.size)?;
    let pps = pps(alloc, params.segments)?;
    let mut out = Vec::new(alloc);
    append_unit(&mut out, [0x40, 1], &vps)?;
    append_unit(&mut out, [0x42, 1], &sps)?;
    append_unit(&mut out, [0x44, 1], &pps)?;
    Ok(out)
}

fn vps(alloc: Global) -> Result<Vec<u8>, NoMemory>
    ensures { IfOk result (λ rbsp. rbsp.items ≡ bytes (aligned_bits (fields_bits vps_fields))) }
{
    let mut out = BitWriter::new(alloc);
    write_fields(&mut out, &VPS)?;
    out.align_one()?;
    Ok(out.into_bytes())
}

fn sps(alloc: Global, size: Size) -> Result<Vec<u8>, NoMemory>
    ensures { IfOk result (λ rbsp. rbsp.items ≡ bytes (aligned_bits (fields_bits (sps_fields size)))) }
{
    let mut out = BitWriter::new(alloc);
    write_fields(&mut out, &SPS_FRONT)?;
    write_size(&mut out, size)?;
    write_fields(&mut out, &SPS_BACK)?;
    out.align_one()?;
    Ok(out.into_bytes())
}

fn pps(alloc: Global, segments: bool) -> Result<Vec<u8>, NoMemory>
    ensures { IfOk result (λ rbsp. rbsp.items ≡ bytes (aligned_bits (fields_bits (pps_fields segments)))) }
{
    let mut out = BitWriter::new(alloc);
    write_fields(&mut out, &PPS_FRONT)?;
    write_flag(&mut out, segments)?;
    write_fields(&mut out, &PPS_BACK)?;
    out.align_one()?;
    Ok(out.into_bytes())
}

// dependent_slice_segments_enabled_flag.
fn write_flag(out: &mut BitWriter, value: bool) -> Result<(), NoMemory>
    ensures { OnOk result (out.new ≡ out.old ++ fields_bits (fixed 3 1 (flag value) ∷ [])) }
{
    if value { out.put(1, 1) } else { out.put(1, 0) }
}

// The size of the coded picture, and the window of it that is shown (7.4.3.2.1).
fn write_size(out: &mut BitWriter, size: Size) -> Result<(), NoMemory>
    ensures { OnOk result (out.new ≡ out.old ++ fields_bits (size_fields size)) }
{
    let w = size.w();
    let h = size.h();
    let coded_w = (w + 7) / 8 * 8;
    let coded_h = (h + 7) / 8 * 8;
    out.ue(coded_w)?;
    out.ue(coded_h)?;
    let right = coded_w - w;
    let bottom = coded_h - h;
    if right + bottom == 0 {
        return out.put(1, 0);
    }
    out.put(1, 1)?;
    write_window(out, right, bottom)
}

// The left, right, top and bottom offsets of the conformance window.
fn write_window(out: &mut BitWriter, right: u32, bottom: u32) -> Result<(), NoMemory>
    requires few_columns { right < 8 }
    requires few_rows { bottom < 8 }
    ensures { OnOk result (out.new ≡ out.old ++ (ue 0 ++ (ue right ++ (ue 0 ++ ue bottom)))) }
{
    out.ue(0)?;
    out.ue(right)?;
    out.ue(0)?;
    out.ue(bottom)
}
