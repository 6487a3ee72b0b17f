//! The place of a block's last level other than 0 (7.4.9.11).
ghost use Rattle.std.specs.Prelude.{◌≡◌, ◌<◌, ◌≤◌, ◌*◌, ◌-◌, ◌^◌};
ghost use Rattle.h265_model.specs.Binarise.{fl, tr, bypass_bins, context_bins};
ghost use Rattle.h265_model.specs.Residual as residual;
ghost use Rattle.h265_model.specs.Residual.{last_context, suffix_bits, suffix_base, last_items};
ghost use Rattle.bin_items.specs.Growth.{IsOpen, Writes};
ghost use Rattle.residual_code.specs.Parts.{IsShape, shape_of};

use crate::shape::Shape;
use bin_items::{Bin, BinSink, NoMemory, Place};
use scan_orders::last_context;

// The prefix of a coordinate.
fn prefix_of(value: u32) -> u32
    ensures { result ≡ residual.prefix_of value }
{
    if value < 4 {
        value
    } else if value < 8 {
        4 + (value - 4) / 2
    } else if value < 16 {
        6 + (value - 8) / 4
    } else {
        8 + (value - 16) / 8
    }
}

// Writes last_sig_coeff_x_prefix, or last_sig_coeff_y_prefix where `vertical` holds.
fn write_prefix<S: BinSink>(
    sink: &mut S,
    shape: Shape,
    vertical: bool,
    prefix: u32,
) -> Result<(), NoMemory>
    requires shape { IsShape shape }
    requires prefix { prefix ≤ 2 * shape.log2 - 1 }
    requires not_ended { IsOpen (S.phase sink.old) }
    ensures taken { Writes (context_bins (last_context shape.component shape.log2 vertical) 0 (tr (2 * shape.log2 - 1) prefix)) (S.stands_for sink.old) (S.stands_for sink.new) result }
    ensures not_ended { IsOpen (S.phase sink.new) }
{
    for i in 0..prefix {
        sink.bin(Bin {
            value: true,
            place: Place::Context(last_context(shape.component, shape.log2, vertical, i)),
        })?;
    }
    if prefix < 2 * shape.log2 - 1 {
        sink.bin(Bin {
            value: false,
            place: Place::Context(last_context(shape.component, shape.log2, vertical, prefix)),
        })?;
    }
    Ok(())
}

// Writes last_sig_coeff_x_suffix or last_sig_coeff_y_suffix.
fn write_suffix<S: BinSink>(sink: &mut S, prefix: u32, value: u32) -> Result<(), NoMemory>
    requires prefix { prefix ≤ 9 }
    requires value { suffix_base prefix ≤ value }
    requires not_ended { IsOpen (S.phase sink.old) }
    ensures taken { Writes (bypass_bins (fl (suffix_bits prefix) (value - suffix_base prefix))) (S.stands_for sink.old) (S.stands_for sink.new) result }
    ensures not_ended { IsOpen (S.phase sink.new) }
{
    if prefix < 4 {
        return Ok(());
    }
    let bits = prefix / 2 - 1;
    sink.bypass(value - ((2 + prefix % 2) << bits), bits)
}

/// Writes the place of the last level other than 0, its column and its row. Under scan 2 they are exchanged.
pub(crate) fn write_last<S: BinSink>(
    sink: &mut S,
    shape: Shape,
    place: (u32, u32),
) -> Result<(), NoMemory>
    requires shape { IsShape shape }
    requires x { place.0 < 2 ^ shape.log2 }
    requires y { place.1 < 2 ^ shape.log2 }
    requires not_ended { IsOpen (S.phase sink.old) }
    ensures taken { Writes (last_items (shape_of shape) place) (S.stands_for sink.old) (S.stands_for sink.new) result }
    ensures not_ended { IsOpen (S.phase sink.new) }
{
    let (x, y) = swapped(shape.scan, place);
    let x_prefix = prefix_of(x);
    let y_prefix = prefix_of(y);
    write_prefix(sink, shape, false, x_prefix)?;
    write_prefix(sink, shape, true, y_prefix)?;
    write_suffix(sink, x_prefix, x)?;
    write_suffix(sink, y_prefix, y)
}

// The coordinates as they are coded.
fn swapped(scan: u32, place: (u32, u32)) -> (u32, u32)
    ensures { result ≡ residual.swapped scan place }
{
    if scan == 2 { (place.1, place.0) } else { place }
}
