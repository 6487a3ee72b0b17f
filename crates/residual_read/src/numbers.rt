//! The numbers of places in the scans, as tables.
ghost use Rattle.std.specs.Prelude.{◌≡◌, ◌<◌, ◌≤◌, ◌^◌, length};
ghost use Rattle.residual_read.specs.Whole.{numbers_of};

static DIAGONAL_2: [u8; 4] = [0, 2, 1, 3];

static DIAGONAL_4: [u8; 16] = [0, 2, 5, 9, 1, 4, 8, 12, 3, 7, 11, 14, 6, 10, 13, 15];

static DIAGONAL_8: [u8; 64] = [
    0, 2, 5, 9, 14, 20, 27, 35, 1, 4, 8, 13, 19, 26, 34, 42, 3, 7, 12, 18, 25, 33, 41, 48, 6, 11,
    17, 24, 32, 40, 47, 53, 10, 16, 23, 31, 39, 46, 52, 57, 15, 22, 30, 38, 45, 51, 56, 60, 21, 29,
    37, 44, 50, 55, 59, 62, 28, 36, 43, 49, 54, 58, 61, 63,
];

static HORIZONTAL_2: [u8; 4] = [0, 1, 2, 3];

static HORIZONTAL_4: [u8; 16] = [0, 1, 2, 3, 4, 5, 6, 7, 8, 9, 10, 11, 12, 13, 14, 15];

static HORIZONTAL_8: [u8; 64] = [
    0, 1, 2, 3, 4, 5, 6, 7, 8, 9, 10, 11, 12, 13, 14, 15, 16, 17, 18, 19, 20, 21, 22, 23, 24, 25,
    26, 27, 28, 29, 30, 31, 32, 33, 34, 35, 36, 37, 38, 39, 40, 41, 42, 43, 44, 45, 46, 47, 48, 49,
    50, 51, 52, 53, 54, 55, 56, 57, 58, 59, 60, 61, 62, 63,
];

static VERTICAL_2: [u8; 4] = [0, 2, 1, 3];

static VERTICAL_4: [u8; 16] = [0, 4, 8, 12, 1, 5, 9, 13, 2, 6, 10, 14, 3, 7, 11, 15];

static VERTICAL_8: [u8; 64] = [
    0, 8, 16, 24, 32, 40, 48, 56, 1, 9, 17, 25, 33, 41, 49, 57, 2, 10, 18, 26, 34, 42, 50, 58, 3,
    11, 19, 27, 35, 43, 51, 59, 4, 12, 20, 28, 36, 44, 52, 60, 5, 13, 21, 29, 37, 45, 53, 61, 6,
    14, 22, 30, 38, 46, 54, 62, 7, 15, 23, 31, 39, 47, 55, 63,
];

/// The numbers of a square's places in a scan, in rows.
#[inline(always)]
#[tactic(auto, unfolding(h265_model::specs::Residual::scan))]
pub(crate) fn numbers(kind: u32, log2: u32) -> &'static [u8]
    requires kind { kind < 3 }
    requires low { 1 ≤ log2 }
    requires high { log2 ≤ 3 }
    ensures value { result.now ≡ numbers_of kind log2 }
    ensures long { length result.now ≡ 4 ^ log2 }
{
    match (kind, log2) {
        (0, 1) => &DIAGONAL_2,
        (0, 2) => &DIAGONAL_4,
        (0, _) => &DIAGONAL_8,
        (1, 1) => &HORIZONTAL_2,
        (1, 2) => &HORIZONTAL_4,
        (1, _) => &HORIZONTAL_8,
        (_, 1) => &VERTICAL_2,
        (_, 2) => &VERTICAL_4,
        (_, _) => &VERTICAL_8,
    }
}
