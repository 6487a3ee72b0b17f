//! Eight neighbours of a block beside each other: all of them are there, or none is.
ghost use Rattle.std.specs.Prelude.{◌≡◌, ℕ, ◌+◌, ◌-◌, ◌%◌, ◌<◌, ◌≤◌, length, slice_index, true};
ghost use Rattle.h265_model.specs.Plain.{coded};
ghost use Rattle.h265_model.specs.Predict.{seen};
ghost use Rattle.px_plane.specs.Planes.{picture_of};
ghost use Rattle.intra_refs.specs.Neighbours.{left_of, above, carried, IsFilled, AreAll, neighbour};

use crate::available::is_available;
use px_plane::Picture;

/// Whether the eight neighbours on the left from `row` down are there.
pub(crate) fn has_left(picture: &Picture, component: u32, x: u32, y: u32, row: u32) -> bool
    requires x { x < 4096 }
    requires y { y < 4096 }
    requires whole_x { x % 8 ≡ 0 }
    requires whole_y { y % 8 ≡ 0 }
    requires whole_row { row % 8 ≡ 0 }
    requires row { row < 8192 }
    ensures same { AreAll result (λ j. left_of picture.now.size (picture_of picture.now) component x y (row + 8 - j)) (λ j. picture_of picture.now component (x - 1) (row + (7 - j))) }
    ensures right { result ≡ true → 1 ≤ x }
    ensures across { result ≡ true → x ≤ coded picture.now.size.w }
    ensures down { result ≡ true → row + 8 ≤ coded picture.now.size.h }
{
    x > 0 && is_available(picture.size(), x, y, x - 1, row)
}

/// Whether the eight neighbours above from `column` on are there.
pub(crate) fn has_above(picture: &Picture, component: u32, x: u32, y: u32, column: u32) -> bool
    requires x { x < 4096 }
    requires y { y < 4096 }
    requires whole_x { x % 8 ≡ 0 }
    requires whole_y { y % 8 ≡ 0 }
    requires whole_column { column % 8 ≡ 0 }
    requires column { column < 8192 }
    ensures same { AreAll result (λ j. above picture.now.size (picture_of picture.now) component x y (column + j + 1)) (λ j. picture_of picture.now component (column + j) (y - 1)) }
    ensures across { result ≡ true → column + 8 ≤ coded picture.now.size.w }
    ensures low { result ≡ true → 1 ≤ y }
    ensures down { result ≡ true → y ≤ coded picture.now.size.h }
{
    y > 0 && is_available(picture.size(), x, y, column, y - 1)
}

// Eight samples of a column, from the lowest up.
fn copy_up(picture: &Picture, component: u32, x: u32, row: u32, out: &mut [u8])
    requires component { component < 3 }
    requires across { x < coded picture.now.size.w }
    requires down { row + 8 ≤ coded picture.now.size.h }
    requires row { row < 8192 }
    requires eight { length out.old ≡ 8 }
    ensures { (j : ℕ) → j < 8 → slice_index out.new j ≡ picture_of picture.now component x (row + (7 - j)) }
{
    for j in 0..8 {
        out[j as usize] = picture.sample(component, x, row + (7 - j));
    }
}

/// Fills the eight places of a part of the left side, and gives what is carried on.
pub(crate) fn fill_left(
    picture: &Picture,
    component: u32,
    x: u32,
    y: u32,
    row: u32,
    before: u8,
    out: &mut [u8],
) -> u8
    requires component { component < 3 }
    requires x { x < 4096 }
    requires y { y < 4096 }
    requires whole_x { x % 8 ≡ 0 }
    requires whole_y { y % 8 ≡ 0 }
    requires whole_row { row % 8 ≡ 0 }
    requires row { row < 8192 }
    requires eight { length out.old ≡ 8 }
    ensures filled { IsFilled out.new before (λ j. left_of picture.now.size (picture_of picture.now) component x y (row + 8 - j)) 8 }
    ensures carried { result ≡ carried before (λ j. left_of picture.now.size (picture_of picture.now) component x y (row + 8 - j)) 8 }
{
    if has_left(picture, component, x, y, row) {
        copy_up(picture, component, x - 1, row, out);
        out[7]
    } else {
        out.fill(before);
        before
    }
}

/// Fills the eight places of a part of the row above, and gives what is carried on.
pub(crate) fn fill_above(
    picture: &Picture,
    component: u32,
    x: u32,
    y: u32,
    column: u32,
    before: u8,
    out: &mut [u8],
) -> u8
    requires component { component < 3 }
    requires x { x < 4096 }
    requires y { y < 4096 }
    requires whole_x { x % 8 ≡ 0 }
    requires whole_y { y % 8 ≡ 0 }
    requires whole_column { column % 8 ≡ 0 }
    requires column { column < 8192 }
    requires eight { length out.old ≡ 8 }
    ensures filled { IsFilled out.new before (λ j. above picture.now.size (picture_of picture.now) component x y (column + j + 1)) 8 }
    ensures carried { result ≡ carried before (λ j. above picture.now.size (picture_of picture.now) component x y (column + j + 1)) 8 }
{
    if has_above(picture, component, x, y, column) {
        out.copy_from_slice(picture.row(component, column, y - 1, 8));
        out[7]
    } else {
        out.fill(before);
        before
    }
}
