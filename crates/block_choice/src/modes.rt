//! The intra modes that are tried, in order.
ghost use Rattle.std.specs.Prelude.{◌≡◌, ◌<◌, ◌≤◌};
ghost use Rattle.std.specs.List.{All};
ghost use Rattle.h265_model.specs.Choice.{modes_of};

const FIRST_MODES: [u32; 4] = [1, 26, 10, 0];

const ALL_MODES: [u32; 35] = [
    1, 26, 10, 0, 2, 3, 4, 5, 6, 7, 8, 9, 11, 12, 13, 14, 15, 16, 17, 18, 19, 20, 21, 22, 23, 24,
    25, 27, 28, 29, 30, 31, 32, 33, 34,
];

/// The modes of an effort.
pub(crate) fn modes_for(effort: u32) -> &'static [u32]
    requires { effort ≤ 2 }
    ensures modes { result.now ≡ modes_of effort }
    ensures small { All (λ mode. mode < 35) result.now }
{
    match effort {
        0 => &[],
        1 => &FIRST_MODES,
        _ => &ALL_MODES,
    }
}
