//! Whole blocks.
ghost use Rattle.std.specs.Prelude.{◌≡◌, ◌<◌, ◌≤◌, ◌+◌, ◌*◌, ◌-◌, ◌^◌, IfSome, pos, replicate};
ghost use Rattle.h265_model.specs.Residual as residual;
ghost use Rattle.bin_items.specs.Square.{area};
ghost use Rattle.cabac_dec.specs.State.{IsOpen};
ghost use Rattle.residual_read.specs.Parts.{IsShape, shape_of, Gives};

use crate::last::read_last;
use crate::numbers::numbers;
use crate::shape::Shape;
use crate::subs::{mark_of, read_levels_of, read_subs, sub_block};
use bin_items::Block;
use cabac_dec::Decoder;

// Reads a block of zeros from its last level on, whose place is known.
fn read_from(decoder: &mut Decoder, shape: Shape, place: (u32, u32), out: &mut Block) -> Option<()>
    requires open { IsOpen decoder.old }
    requires shape { IsShape shape }
    requires x { place.0 < 2 ^ shape.log2 }
    requires y { place.1 < 2 ^ shape.log2 }
    requires zeros { out.old ≡ record { log2 = shape.log2; levels = replicate (area shape.log2) (pos 0) } }
    ensures value { Gives result out.new.levels (residual.residual_from (shape_of shape) place decoder.old) decoder.new }
    ensures open { IfSome result (λ _. IsOpen decoder.new) }
    ensures side { out.new.log2 ≡ out.old.log2 }
{
    let down = shape.log2 - 2;
    let number = u32::from(
        numbers(shape.scan, down)[(((place.1 / 4) << down) + place.0 / 4) as usize],
    );
    let top = u32::from(numbers(shape.scan, 2)[(4 * (place.1 % 4) + place.0 % 4) as usize]);
    let mut marks = [false; 81];
    let sub = sub_block(shape, number, &marks);
    let ended = read_levels_of(decoder, shape, sub, false, false, 1, top, out)?;
    marks[mark_of(sub.x, sub.y)] = true;
    read_subs(decoder, shape, number, &mut marks, ended, out)
}

/// Reads a block with a level other than 0 (7.3.8.11) and fills `out` with its levels. It answers nothing exactly where the bins end, or a level
/// isn't from -255 to 255.
pub fn read_residual(
    decoder: &mut Decoder,
    component: u32,
    scan: u32,
    out: &mut Block,
) -> Option<()>
    requires open { IsOpen decoder.old }
    requires component { component < 3 }
    requires scan { scan < 3 }
    ensures value { Gives result out.new.levels (residual.residual_read (residual.shape component out.old.log2 scan) decoder.old) decoder.new }
    ensures open { IfSome result (λ _. IsOpen decoder.new) }
    ensures side { out.new.log2 ≡ out.old.log2 }
{
    let shape = Shape {
        component,
        log2: out.log2(),
        scan,
    };
    let place = read_last(decoder, shape)?;
    *out = Block::zero(shape.log2);
    read_from(decoder, shape, place, out)
}
