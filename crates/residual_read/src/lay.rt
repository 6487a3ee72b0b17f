//! Putting a sub-block's levels in their places.
ghost use Rattle.std.specs.Prelude.{◌≡◌, ◌<◌, ◌≤◌, ◌+◌, ◌*◌, ◌-◌, ◌/◌, ◌%◌, ◌^◌, ◌==◌, if◌then◌else◌, get_or, set, pos};
ghost use Rattle.h265_model.specs.Residual.{place_at};
ghost use Rattle.h265_model.specs.Residual as residual;
ghost use Rattle.bin_items.specs.Square.{place};
ghost use Rattle.residual_read.specs.Parts.{laid};

use crate::shape::SubBlock;
use crate::values::bit;
use bin_items::Block;
use scan_orders::places;

/// Puts the levels other than 0 of a sub-block in the places with a flag.
pub(crate) fn lay(out: &mut Block, scan: u32, sub: SubBlock, mask: u32, values: &[i16])
    requires scan { scan < 3 }
    requires x { sub.x < 2 ^ (out.old.log2 - 2) }
    requires y { sub.y < 2 ^ (out.old.log2 - 2) }
    ensures log2 { out.new.log2 ≡ out.old.log2 }
    ensures levels { out.new.levels ≡ laid scan out.old.log2 (sub.x, sub.y) mask values.now 0 16 out.old.levels }
{
    let mut left = 16;
    let mut next = 0;
    while left > 0 {
        left -= 1;
        next = lay_one(out, scan, sub, mask, values, left, next);
    }
}

// Puts the value with the number `next` in the place with this number, if it has a flag, and gives the number of the value after it.
#[inline(always)]
fn lay_one(
    out: &mut Block,
    scan: u32,
    sub: SubBlock,
    mask: u32,
    values: &[i16],
    number: u32,
    next: u32,
) -> u32
    requires scan { scan < 3 }
    requires x { sub.x < 2 ^ (out.old.log2 - 2) }
    requires y { sub.y < 2 ^ (out.old.log2 - 2) }
    requires number { number < 16 }
    requires next { next ≤ 16 }
    ensures log2 { out.new.log2 ≡ out.old.log2 }
    ensures levels { laid scan out.old.log2 (sub.x, sub.y) mask values.now next (number + 1) out.old.levels ≡ laid scan out.new.log2 (sub.x, sub.y) mask values.now result number out.new.levels }
    ensures next { result ≤ next + 1 }
{
    if bit(mask, number) {
        put(out, scan, sub, number, value_at(values, next));
        next + 1
    } else {
        next
    }
}

// Puts a level in the place with this number.
#[inline(always)]
fn put(out: &mut Block, scan: u32, sub: SubBlock, number: u32, value: i16)
    requires scan { scan < 3 }
    requires x { sub.x < 2 ^ (out.old.log2 - 2) }
    requires y { sub.y < 2 ^ (out.old.log2 - 2) }
    requires number { number < 16 }
    ensures { out.new ≡ record out.old { levels = set out.old.levels (place out.old.log2 (4 * sub.x + (place_at (residual.scan scan 2) number).0) (4 * sub.y + (place_at (residual.scan scan 2) number).1)) value } }
{
    let _side = out.log2();
    let place = places(scan, 2)[number as usize];
    out.set(
        4 * sub.x + u32::from(place.0),
        4 * sub.y + u32::from(place.1),
        value,
    );
}

// The value with this number, or 0 past the last one.
#[inline(always)]
fn value_at(values: &[i16], number: u32) -> i16
    ensures { result ≡ get_or values.now number (pos 0) }
{
    if (number as usize) < values.len() {
        values[number as usize]
    } else {
        0
    }
}
