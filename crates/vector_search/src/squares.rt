//! Which squares of 8 of a coding tree unit are copies, by each vector that is tried.
ghost use Rattle.std.specs.Prelude.{◌≡◌, ◌↔◌, ◌+◌, ◌*◌, ◌%◌, ◌<◌, ◌≤◌, length, IsTrue, true, false};
ghost use Rattle.px_plane.specs.Planes.{picture_of};
ghost use Rattle.vector_search.specs.Copies.{TellsFirst, TellsMoves, AreAllMoved, IsFirst};

use crate::compare::is_moved;
use crate::vectors::{VECTORS, vector_at};
use px_plane::Picture;

// How many answers there are: one for each vector and each of 16 squares.
const ANSWERS: usize = 4112;

/// For each vector that is tried, in order, which of the 16 squares of 8 of a coding tree unit, in rows of four, are copies by it, once they were compared.
#[derive(Drop)]
pub(crate) struct Squares {
    pub is_made: bool,
    pub equal: [bool; ANSWERS],
}

/// Squares that were not compared.
pub(crate) fn blank() -> Squares
    ensures { result.is_made ≡ false }
{
    Squares {
        is_made: false,
        equal: [false; ANSWERS],
    }
}

// Compares the squares of the coding tree unit at (x, y) by the vector of this number.
fn compare_by(last: &Picture, current: &Picture, x: u32, y: u32, number: u32, equal: &mut [bool])
    requires sizes { last.now.size ≡ current.now.size }
    requires x { x < 4096 }
    requires y { y < 4096 }
    requires whole_x { x % 8 ≡ 0 }
    requires whole_y { y % 8 ≡ 0 }
    requires number { number < 257 }
    requires long { length equal.old ≡ 4112 }
    requires known { TellsFirst equal.old (picture_of last.now) (picture_of current.now) current.now.size x y (16 * number) }
    ensures long { length equal.new ≡ 4112 }
    ensures tells { TellsFirst equal.new (picture_of last.now) (picture_of current.now) current.now.size x y (16 * number + 16) }
{
    let (w, h) = (current.size().w(), current.size().h());
    let vector = vector_at(number);
    for k in 0..16u32 {
        let (left, top) = (x + k % 4 * 8, y + k / 4 * 8);
        if left < w && top < h {
            equal[(16 * number + k) as usize] = is_moved(last, current, left, top, 8, vector);
        }
    }
}

/// Compares the squares of the coding tree unit at (x, y) by all vectors that are tried, where that was not done yet.
pub(crate) fn compare_all(last: &Picture, current: &Picture, x: u32, y: u32, squares: &mut Squares)
    requires sizes { last.now.size ≡ current.now.size }
    requires x { x < 4096 }
    requires y { y < 4096 }
    requires whole_x { x % 8 ≡ 0 }
    requires whole_y { y % 8 ≡ 0 }
    requires known { TellsMoves squares.old (picture_of last.now) (picture_of current.now) current.now.size x y }
    ensures made { squares.new.is_made ≡ true }
    ensures tells { TellsMoves squares.new (picture_of last.now) (picture_of current.now) current.now.size x y }
{
    if squares.is_made {
        return;
    }
    for number in 0..VECTORS {
        compare_by(last, current, x, y, number, &mut squares.equal);
    }
    squares.is_made = true;
}

// Whether all squares of the block of this many squares a side, which begins at this square, are copies by the vector of this number.
fn are_moved(equal: &[bool], number: u32, i: usize, j: usize, side: usize) -> bool
    requires long { length equal.now ≡ 4112 }
    requires number { number < 257 }
    requires across { i + side ≤ 4 }
    requires down { j + side ≤ 4 }
    ensures { IsTrue result ↔ AreAllMoved equal.now number i j side side }
{
    for v in 0..side {
        for u in 0..side {
            if !equal[16 * number as usize + (4 * (j + v) + (i + u))] {
                return false;
            }
        }
    }
    true
}

/// The number of the first vector by which all squares of the block of this many squares a side, which begins at this square, are copies.
pub(crate) fn first_number(equal: &[bool], i: usize, j: usize, side: usize) -> Option<u32>
    requires long { length equal.now ≡ 4112 }
    requires across { i + side ≤ 4 }
    requires down { j + side ≤ 4 }
    ensures { IsFirst result equal.now i j side 257 }
{
    for number in 0..VECTORS {
        if are_moved(equal, number, i, j, side) {
            return Some(number);
        }
    }
    None
}
