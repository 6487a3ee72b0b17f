//! Units that are copied, by the merge vector or by their own.
ghost use Rattle.std.specs.Prelude.{◌≡◌, ◌<◌, ◌≤◌, ◌+◌, ◌%◌, ◌^◌, ◌&&◌, List, IfSome};
ghost use Rattle.h265_model.specs.Plain.{coded};
ghost use Rattle.h265_model.specs.Engine.{Engine};
ghost use Rattle.h265_model.specs.Motion as motion;
ghost use Rattle.h265_model.specs.Motion.{Moving};
ghost use Rattle.h265_model.specs.Tree.{IsMode, Copied, Moved, move_read};
ghost use Rattle.motion_grid.specs.Cells.{HasMotion};
ghost use Rattle.cabac_dec.specs.State.{IsOpen};
ghost use Rattle.unit_read.specs.Units.{Hands, Takes, Moves, placed, placed_after};

use crate::flags::expect;
use crate::kept::Kept;
use crate::vector::read_vector;
use bin_items::Kind;
use cabac_dec::Decoder;
use h265_model::syntax_elements::{MERGE_FLAG, PART_MODE, RQT_ROOT_CBF};
use h265_model::{CodingBlock, Vector};
use leaf_sink::LeafSink;
use motion_grid::MotionGrid;
use px_plane::Size;

// Along one axis: whether `n` places from `at` on are in a picture of this side after they were moved.
fn reaches(limit: u32, n: u32, at: u32, by: i32) -> bool
    requires limit { limit ≤ 4096 }
    requires n { n ≤ 32 }
    requires at { at ≤ 4096 }
    ensures { result ≡ motion.reaches limit n at by }
{
    if by < 0 {
        let back = by.unsigned_abs();
        back <= at && at - back + n <= limit
    } else {
        at + by as u32 + n <= limit
    }
}

// A side in whole blocks of 8.
fn coded_side(side: u32) -> u32
    requires { side ≤ 4096 }
    ensures value { result ≡ coded side }
    ensures low { result ≤ 4096 }
{
    (side + 7) / 8 * 8
}

// The side of a block.
fn side(log2: u32) -> u32
    requires low { 3 ≤ log2 }
    requires high { log2 ≤ 5 }
    ensures value { result ≡ 2 ^ log2 }
    ensures few { result ≤ 32 }
{
    match log2 {
        3 => 8,
        4 => 16,
        _ => 32,
    }
}

// Whether both are true.
fn both(first: bool, second: bool) -> bool
    ensures { result ≡ (first && second) }
{
    first && second
}

// Whether the block that a vector names lies in the coded picture.
fn has_source(size: Size, block: CodingBlock, vector: Vector) -> bool
    requires low { 3 ≤ block.log2 }
    requires high { block.log2 ≤ 5 }
    requires across { block.x + 2 ^ block.log2 ≤ coded size.w }
    requires down { block.y + 2 ^ block.log2 ≤ coded size.h }
    ensures { result ≡ motion.has_source size block vector }
{
    let n = side(block.log2);
    let (wide, tall) = (coded_side(size.w()), coded_side(size.h()));
    both(
        reaches(wide, n, block.x, vector.x),
        reaches(tall, n, block.y, vector.y),
    )
}

/// Hands a copy by the merge vector to the sink, where its source lies in the picture.
pub(crate) fn take_copied<S: LeafSink>(
    size: Size,
    block: CodingBlock,
    vector: Vector,
    sink: &mut S,
) -> Option<Kept>
    requires size { (S.last sink.old).size ≡ size }
    requires low { 3 ≤ block.log2 }
    requires high { block.log2 ≤ 5 }
    requires column { block.x % 2 ^ block.log2 ≡ 0 }
    requires row { block.y % 2 ^ block.log2 ≡ 0 }
    requires across { block.x + 2 ^ block.log2 ≤ coded size.w }
    requires down { block.y + 2 ^ block.log2 ≤ coded size.h }
    ensures value { (e : Engine) → Hands result (placed size block (Copied vector) e) e (Takes (S.stands_for sink.old) (S.stands_for sink.new) size block) }
    ensures mode { IfSome result (λ kept. IsMode kept.kind) }
    ensures last { S.last sink.new ≡ S.last sink.old }
{
    if !has_source(size, block, vector) {
        return None;
    }
    sink.copied(block, vector);
    Some(Kept {
        kind: Kind::Skip,
        vector: Some(vector),
    })
}

// Hands a copy by a vector of its own to the sink, where its source lies in the picture.
fn take_moved<S: LeafSink>(
    size: Size,
    block: CodingBlock,
    vector: Vector,
    sink: &mut S,
) -> Option<Kept>
    requires size { (S.last sink.old).size ≡ size }
    requires low { 3 ≤ block.log2 }
    requires high { block.log2 ≤ 5 }
    requires column { block.x % 2 ^ block.log2 ≡ 0 }
    requires row { block.y % 2 ^ block.log2 ≡ 0 }
    requires across { block.x + 2 ^ block.log2 ≤ coded size.w }
    requires down { block.y + 2 ^ block.log2 ≤ coded size.h }
    ensures value { (e : Engine) → Hands result (placed size block (Moved vector) e) e (Takes (S.stands_for sink.old) (S.stands_for sink.new) size block) }
    ensures mode { IfSome result (λ kept. IsMode kept.kind) }
    ensures last { S.last sink.new ≡ S.last sink.old }
{
    if !has_source(size, block, vector) {
        return None;
    }
    sink.moved(block, vector);
    Some(Kept {
        kind: Kind::Pcm,
        vector: Some(vector),
    })
}

// Reads the vector of a moved unit, from part_mode to rqt_root_cbf.
fn read_move(decoder: &mut Decoder, motion: &MotionGrid, block: CodingBlock) -> Option<Vector>
    requires open { IsOpen decoder.old }
    requires low { 3 ≤ block.log2 }
    requires high { block.log2 ≤ 5 }
    requires across { block.x < coded motion.now.size.w }
    requires down { block.y < coded motion.now.size.h }
    ensures value { (before : List Moving) → HasMotion motion.now before → Moves result (move_read before block decoder.old) decoder.new }
    ensures open { IfSome result (λ _. IsOpen decoder.new) }
{
    expect(decoder, PART_MODE, true)?;
    expect(decoder, MERGE_FLAG, false)?;
    let vector = read_vector(decoder, motion.predictors(block))?;
    expect(decoder, RQT_ROOT_CBF, false)?;
    Some(vector)
}

/// Reads a moved unit from part_mode on, and hands it to the sink.
pub(crate) fn read_moved<S: LeafSink>(
    decoder: &mut Decoder,
    size: Size,
    motion: &MotionGrid,
    block: CodingBlock,
    sink: &mut S,
) -> Option<Kept>
    requires open { IsOpen decoder.old }
    requires grid { motion.now.size ≡ size }
    requires size { (S.last sink.old).size ≡ size }
    requires low { 3 ≤ block.log2 }
    requires high { block.log2 ≤ 5 }
    requires column { block.x % 2 ^ block.log2 ≡ 0 }
    requires row { block.y % 2 ^ block.log2 ≡ 0 }
    requires across { block.x + 2 ^ block.log2 ≤ coded size.w }
    requires down { block.y + 2 ^ block.log2 ≤ coded size.h }
    ensures value { (before : List Moving) → HasMotion motion.now before
        → Hands result (placed_after (move_read before block) size block decoder.old) decoder.new (Takes (S.stands_for sink.old) (S.stands_for sink.new) size block) }
    ensures open { IfSome result (λ _. IsOpen decoder.new) }
    ensures mode { IfSome result (λ kept. IsMode kept.kind) }
    ensures last { S.last sink.new ≡ S.last sink.old }
{
    let vector = read_move(decoder, motion, block)?;
    take_moved(size, block, vector, sink)
}
