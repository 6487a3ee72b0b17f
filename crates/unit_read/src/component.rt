//! The levels of a component.
ghost use Rattle.std.specs.Prelude.{◌≡◌, ◌<◌, IfSome};
ghost use Rattle.h265_model.specs.Tree.{component_read};
ghost use Rattle.cabac_dec.specs.State.{IsOpen};
ghost use Rattle.residual_read.specs.Parts.{Gives};

use bin_items::Block;
use cabac_dec::Decoder;
use residual_read::read_residual;
use scan_orders::scan_kind;

/// Reads the levels of a component of a unit with a mode, where its flag says that one isn't 0, and fills `out` with them. It answers nothing exactly
/// where the bins end, or a level isn't from -255 to 255.
pub(crate) fn read_component(
    decoder: &mut Decoder,
    component: u32,
    mode: u32,
    flag: bool,
    out: &mut Block,
) -> Option<()>
    requires open { IsOpen decoder.old }
    requires component { component < 3 }
    ensures value { Gives result out.new.levels (component_read out.old.log2 mode component flag decoder.old) decoder.new }
    ensures open { IfSome result (λ _. IsOpen decoder.new) }
    ensures side { out.new.log2 ≡ out.old.log2 }
{
    let log2 = out.log2();
    if !flag {
        *out = Block::zero(log2);
        return Some(());
    }
    read_residual(decoder, component, scan_kind(mode, log2), out)
}
