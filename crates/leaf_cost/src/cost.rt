//! What coding levels is taken to cost.
ghost use Rattle.std.specs.Prelude.{◌≡◌, ◌*◌, ◌≤◌, length, sum_by, pos};
ghost use Rattle.h265_model.specs.Tree.{differences};
ghost use Rattle.h265_model.specs.Choice.{level_cost};

// The cost of a level of this size: 0, or else 1 and twice the number of its binary digits.
#[inline(always)]
fn size_cost(size: u8) -> u16
    ensures value { result ≡ level_cost (pos size) }
    ensures bound { result ≤ 17 }
{
    if size == 0 {
        0
    } else {
        17 - 2 * size.leading_zeros() as u16
    }
}

/// The cost of the differences between the samples of a block and their prediction, of at most 1024 samples.
pub fn run_cost(block: &[u8], guess: &[u8]) -> u16
    requires same { length block.now ≡ length guess.now }
    requires short { length block.now ≤ 1024 }
    ensures value { result ≡ sum_by level_cost (differences block.now guess.now) }
    ensures bound { result ≤ 17 * length block.now }
{
    let mut sum: u16 = 0;
    for i in 0..block.len() {
        sum += size_cost(block[i].abs_diff(guess[i]));
    }
    sum
}
