//! Exponential Golomb codes.
ghost use Rattle.std.specs.Prelude.{◌≡◌, ◌<◌, ◌≤◌, IfSome};
ghost use Rattle.h265_model.specs.Binarise.{eg_read};
ghost use Rattle.cabac_dec.specs.State.{IsOpen, Answers};

use crate::values::read_escape;
use cabac_dec::Decoder;

/// Reads EGk (9.3.3.3), and answers nothing exactly where the bins end or 16 ones are in front.
pub fn read_exp_golomb(decoder: &mut Decoder, k: u32) -> Option<u32>
    requires open { IsOpen decoder.old }
    requires few { k ≤ 5 }
    ensures value { Answers result (eg_read k decoder.old) decoder.new }
    ensures low { IfSome result (λ rest. rest < 2097152) }
    ensures open { IfSome result (λ _. IsOpen decoder.new) }
{
    read_escape(decoder, k)
}
