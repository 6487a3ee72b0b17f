//! Flags in front of a unit's content.
ghost use Rattle.std.specs.Prelude.{◌≡◌, ◌<◌, ◌≤◌, ◌+◌, List, IfSome};
ghost use Rattle.h265_model.specs.declared.leaf.Leaf.{Leaf as TheLeaf};
ghost use Rattle.h265_model.specs.declared.Place.TheVariants as places;
ghost use Rattle.h265_model.specs.Plain.{coded};
ghost use Rattle.h265_model.specs.Engine.{Reader};
ghost use Rattle.h265_model.specs.Tree as tree;
ghost use Rattle.h265_model.specs.Tree.{skip_read, Content};
ghost use Rattle.pu_code.specs.Cells.{StandsFor};
ghost use Rattle.cabac_dec.specs.State.{IsOpen, Answers};
ghost use Rattle.unit_read.specs.Units.{part_then, Leads};

use cabac_dec::{Decoder, Place};
use h265_model::SliceKind;
use h265_model::syntax_elements::PART_MODE;
use pu_code::Grid;

/// Reads a bin under a context, which has to have this value.
pub(crate) fn expect(decoder: &mut Decoder, context: u32, value: bool) -> Option<()>
    requires open { IsOpen decoder.old }
    requires in_range { context < 130 }
    ensures value { (after : Reader Content) → Leads result (tree.expect (places.Context context) value after decoder.old) (after decoder.new) }
    ensures open { IfSome result (λ _. IsOpen decoder.new) }
{
    if decoder.bin(Place::Context(context))? == value {
        Some(())
    } else {
        None
    }
}

/// Reads part_mode, which intra units and PCM have at side 8 alone.
pub(crate) fn read_part_mode(decoder: &mut Decoder, log2: u32) -> Option<()>
    requires open { IsOpen decoder.old }
    ensures value { (after : Reader Content) → Leads result (part_then log2 after decoder.old) (after decoder.new) }
    ensures open { IfSome result (λ _. IsOpen decoder.new) }
{
    if log2 != 3 {
        return Some(());
    }
    expect(decoder, PART_MODE, true)
}

/// Reads cu_skip_flag, which P slices have.
pub(crate) fn read_skip_flag(
    decoder: &mut Decoder,
    kind: SliceKind,
    grid: &Grid,
    x: u32,
    y: u32,
) -> Option<bool>
    requires open { IsOpen decoder.old }
    requires across { x < coded grid.now.size.w }
    requires down { y < coded grid.now.size.h }
    ensures value { (leaves : List TheLeaf) → StandsFor grid.now leaves → Answers result (skip_read kind leaves x y decoder.old) decoder.new }
    ensures open { IfSome result (λ _. IsOpen decoder.new) }
{
    match kind {
        SliceKind::I => Some(false),
        SliceKind::P => decoder.bin(Place::Context(grid.skip_context(x, y))),
    }
}
