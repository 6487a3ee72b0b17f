//! The search of copies in a coding tree unit.
ghost use Rattle.std.specs.Prelude.{◌≡◌, ◌<◌, ◌≤◌, ◌%◌, ◌^◌, IfSome};
ghost use Rattle.std.specs.List.{find};
ghost use Rattle.h265_model.specs.declared.leaf.Kind.{Kind};
ghost use Rattle.h265_model.specs.declared.leaf.Kind.TheVariants.{Pcm};
ghost use Rattle.h265_model.specs.Plain.{leaf_with};
ghost use Rattle.h265_model.specs.MotionChoice.{tried_vectors, is_copy_by};
ghost use Rattle.px_plane.specs.Planes.{picture_of};
ghost use Rattle.vector_search.specs.Copies.{IsBlockOf, IsNear};

use crate::compare::is_moved;
use crate::squares::{Squares, blank, compare_all, first_number};
use crate::vectors::vector_at;
use h265_model::{CodingBlock, Vector};
use px_plane::Picture;
use std::marker::Model;

// The side of a block.
fn side_of(log2: u32) -> u32
    requires low { 3 ≤ log2 }
    requires high { log2 ≤ 5 }
    ensures value { result ≡ 2 ^ log2 }
    ensures least { 8 ≤ result }
    ensures most { result ≤ 32 }
{
    match log2 {
        3 => 8,
        4 => 16,
        _ => 32,
    }
}

/// A search of the blocks of a coding tree unit in the picture before.
#[derive(Drop)]
pub struct VectorSearch<'a> {
    last: &'a Picture,
    current: &'a Picture,
    x: u32,
    y: u32,
    squares: Squares,
}

impl<'a> Model for VectorSearch<'a> {
    ghost use Rattle.std.specs.Prelude.{◌≡◌, ◌<◌, ◌%◌};
    ghost use Rattle.px_plane.specs.Planes.{picture_of};
    ghost use Rattle.vector_search.specs.Copies.{Search, TellsMoves};

    ghost Value = { Search };

    ghost view = { λ s. record { last = s.last.now; current = s.current.now; x = s.x; y = s.y } };

    ghost invariant = { λ s. (s.last.now.size ≡ s.current.now.size) × (s.x < 4096) × (s.y < 4096) × (s.x % 32 ≡ 0) × (s.y % 32 ≡ 0)
        × TellsMoves s.squares (picture_of s.last.now) (picture_of s.current.now) s.current.now.size s.x s.y };
}

impl<'a> VectorSearch<'a> {
    /// A search in the coding tree unit at (x, y), which has compared nothing yet.
    pub fn new(last: &'a Picture, current: &'a Picture, x: u32, y: u32) -> VectorSearch<'a>
        requires sizes { last.now.size ≡ current.now.size }
        requires x { x < 4096 }
        requires y { y < 4096 }
        requires whole_x { x % 32 ≡ 0 }
        requires whole_y { y % 32 ≡ 0 }
        ensures { result ≡ record { last = last.now; current = current.now; x = x; y = y } }
    {
        VectorSearch {
            last,
            current,
            x,
            y,
            squares: blank(),
        }
    }

    /// The picture whose blocks are searched.
    pub fn current(&self) -> &'a Picture
        ensures { result.now ≡ self.now.current }
    {
        self.current
    }

    /// Whether a block equals the block of the picture before that the vector names, wholly in the coded picture.
    pub fn is_copy(&self, block: CodingBlock, vector: Vector) -> bool
        requires block { IsBlockOf self.now block }
        ensures copy { (kind : Kind) → result ≡ is_copy_by (picture_of self.now.last) (picture_of self.now.current) self.now.current.size (leaf_with block kind) vector }
    {
        is_moved(
            self.last,
            self.current,
            block.x,
            block.y,
            side_of(block.log2),
            vector,
        )
    }

    /// The first of the vectors that are tried by which a block is a copy.
    ///
    /// At the first call all squares of 8 of the coding tree unit are compared by all these vectors, and never again.
    pub fn first_copy(&mut self, block: CodingBlock) -> Option<Vector>
        requires block { IsBlockOf self.old block }
        ensures same { self.new ≡ self.old }
        ensures first { result ≡ find
            (λ v. is_copy_by (picture_of self.old.last) (picture_of self.old.current) self.old.current.size (leaf_with block Pcm) v) tried_vectors }
        ensures near { IfSome result IsNear }
    {
        compare_all(self.last, self.current, self.x, self.y, &mut self.squares);
        let i = ((block.x - self.x) / 8) as usize;
        let j = ((block.y - self.y) / 8) as usize;
        let side = (side_of(block.log2) / 8) as usize;
        match first_number(&self.squares.equal, i, j, side) {
            Some(number) => Some(vector_at(number)),
            None => None,
        }
    }
}
