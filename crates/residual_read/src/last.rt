//! Where the last level other than 0 is.
ghost use Rattle.std.specs.Prelude.{◌≡◌, ◌<◌, ◌≤◌, ◌+◌, ◌*◌, ◌-◌, ◌/◌, ◌^◌, IfSome};
ghost use Rattle.h265_model.specs.Residual.{coordinate_read};
ghost use Rattle.h265_model.specs.Residual as residual;
ghost use Rattle.cabac_dec.specs.State.{IsOpen, Answers};
ghost use Rattle.residual_read.specs.Parts.{IsShape, shape_of, prefix_from};

use crate::shape::Shape;
use cabac_dec::{Decoder, Place};
use scan_orders::last_context;

// Reads last_sig_coeff_x_prefix, or last_sig_coeff_y_prefix where `vertical` holds.
fn read_prefix(decoder: &mut Decoder, shape: Shape, vertical: bool) -> Option<u32>
    requires open { IsOpen decoder.old }
    requires shape { IsShape shape }
    ensures value { Answers result (prefix_from (shape_of shape) vertical 0 (2 * shape.log2 - 1) decoder.old) decoder.new }
    ensures open { IfSome result (λ _. IsOpen decoder.new) }
    ensures most { IfSome result (λ prefix. prefix ≤ 2 * shape.log2 - 1) }
{
    let limit = 2 * shape.log2 - 1;
    let mut ones = 0;
    while ones < limit {
        let context = last_context(shape.component, shape.log2, vertical, ones);
        if !decoder.bin(Place::Context(context))? {
            return Some(ones);
        }
        ones += 1;
    }
    Some(ones)
}

// Reads the rest of a coordinate.
fn read_coordinate(decoder: &mut Decoder, prefix: u32) -> Option<u32>
    requires open { IsOpen decoder.old }
    requires most { prefix ≤ 9 }
    ensures value { Answers result (coordinate_read prefix decoder.old) decoder.new }
    ensures open { IfSome result (λ _. IsOpen decoder.new) }
    ensures low { IfSome result (λ at. at < 2 ^ (prefix / 2 + 1)) }
{
    if prefix < 4 {
        return Some(prefix);
    }
    let bits = prefix / 2 - 1;
    let suffix = decoder.bypass(bits)?;
    Some(((2 + prefix % 2) << bits) + suffix)
}

/// Reads the place of the last level other than 0, its column and its row.
pub(crate) fn read_last(decoder: &mut Decoder, shape: Shape) -> Option<(u32, u32)>
    requires open { IsOpen decoder.old }
    requires shape { IsShape shape }
    ensures value { Answers result (residual.last_read (shape_of shape) decoder.old) decoder.new }
    ensures open { IfSome result (λ _. IsOpen decoder.new) }
    ensures x { IfSome result (λ place. place.0 < 2 ^ shape.log2) }
    ensures y { IfSome result (λ place. place.1 < 2 ^ shape.log2) }
{
    let x_prefix = read_prefix(decoder, shape, false)?;
    let y_prefix = read_prefix(decoder, shape, true)?;
    let x = read_coordinate(decoder, x_prefix)?;
    let y = read_coordinate(decoder, y_prefix)?;
    Some(swapped(shape.scan, (x, y)))
}

// The coordinates as they are coded.
#[inline(always)]
fn swapped(scan: u32, place: (u32, u32)) -> (u32, u32)
    ensures { result ≡ residual.swapped scan place }
{
    if scan == 2 { (place.1, place.0) } else { place }
}
