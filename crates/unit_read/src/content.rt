//! Units that aren't copied: their samples, or their mode and levels.
ghost use Rattle.std.specs.Prelude.{◌≡◌, ◌<◌, ◌≤◌, ◌+◌, ◌*◌, ◌%◌, ◌^◌, List, length, None, IfSome};
ghost use Rattle.h265_model.specs.Plain.{coded};
ghost use Rattle.h265_model.specs.Motion.{Moving, leaves};
ghost use Rattle.h265_model.specs.Tree.{IsMode, pcm_read, intra_read, content_read, own_read};
ghost use Rattle.pu_code.specs.Cells.{StandsFor};
ghost use Rattle.cabac_dec.specs.State.{IsOpen, IsEnded};
ghost use Rattle.unit_read.specs.Units.{Hands, Takes};

use crate::flags::read_part_mode;
use crate::intra::read_intra;
use crate::kept::Kept;
use bin_items::{Block, Kind};
use cabac_dec::{Decoder, Place};
use h265_model::CodingBlock;
use leaf_sink::{LeafSink, Residuals};
use pu_code::Grid;
use px_plane::Size;

// How many samples a unit has in its three components.
fn sample_count(log2: u32) -> usize
    requires low { 3 ≤ log2 }
    requires high { log2 ≤ 5 }
    ensures value { result ≡ 2 ^ log2 * 2 ^ log2 + 2 ^ log2 * 2 ^ log2 + 2 ^ log2 * 2 ^ log2 }
    ensures few { result ≤ 3072 }
{
    match log2 {
        3 => 192,
        4 => 768,
        _ => 3072,
    }
}

// Reads the samples of a unit, behind pcm_flag (7.3.8.7), and hands them to the sink.
fn read_samples<S: LeafSink>(
    decoder: &mut Decoder,
    size: Size,
    block: CodingBlock,
    sink: &mut S,
) -> Option<Kept>
    requires ended { IsEnded decoder.old }
    requires size { (S.last sink.old).size ≡ size }
    requires low { 3 ≤ block.log2 }
    requires high { block.log2 ≤ 5 }
    requires column { block.x % 2 ^ block.log2 ≡ 0 }
    requires row { block.y % 2 ^ block.log2 ≡ 0 }
    requires across { block.x + 2 ^ block.log2 ≤ coded size.w }
    requires down { block.y + 2 ^ block.log2 ≤ coded size.h }
    ensures value { Hands result (pcm_read (2 ^ block.log2 * 2 ^ block.log2) decoder.old) decoder.new (Takes (S.stands_for sink.old) (S.stands_for sink.new) size block) }
    ensures open { IfSome result (λ _. IsOpen decoder.new) }
    ensures still { IfSome result (λ kept. kept.vector ≡ None) }
    ensures mode { IfSome result (λ kept. IsMode kept.kind) }
    ensures last { S.last sink.new ≡ S.last sink.old }
{
    let mut planes = [0; 3072];
    let count = sample_count(block.log2);
    let samples = &mut planes[..count];
    decoder.pcm(samples)?;
    sink.samples(block, samples);
    Some(Kept {
        kind: Kind::Pcm,
        vector: None,
    })
}

// The levels of a block, in rows from the top.
fn rows(block: &Block) -> &[i16]
    ensures value { result.now ≡ block.now.levels }
    ensures long { length result.now ≡ 2 ^ block.now.log2 * 2 ^ block.now.log2 }
{
    let _side = block.log2();
    block.as_slice()
}

// Reads the mode and the levels of a unit, behind pcm_flag, and hands them to the sink.
fn read_levels<S: LeafSink>(
    decoder: &mut Decoder,
    size: Size,
    grid: &Grid,
    block: CodingBlock,
    sink: &mut S,
) -> Option<Kept>
    requires open { IsOpen decoder.old }
    requires grid { grid.now.size ≡ size }
    requires size { (S.last sink.old).size ≡ size }
    requires low { 3 ≤ block.log2 }
    requires high { block.log2 ≤ 5 }
    requires column { block.x % 2 ^ block.log2 ≡ 0 }
    requires row { block.y % 2 ^ block.log2 ≡ 0 }
    requires across { block.x + 2 ^ block.log2 ≤ coded size.w }
    requires down { block.y + 2 ^ block.log2 ≤ coded size.h }
    ensures value { (before : List Moving) → StandsFor grid.now (leaves before)
        → Hands result (intra_read before block decoder.old) decoder.new (Takes (S.stands_for sink.old) (S.stands_for sink.new) size block) }
    ensures open { IfSome result (λ _. IsOpen decoder.new) }
    ensures still { IfSome result (λ kept. kept.vector ≡ None) }
    ensures mode { IfSome result (λ kept. IsMode kept.kind) }
    ensures last { S.last sink.new ≡ S.last sink.old }
{
    let candidates = grid.candidates(block.x, block.y);
    let mut luma = Block::zero(block.log2);
    let mut cb = Block::zero(block.log2);
    let mut cr = Block::zero(block.log2);
    let mode = read_intra(decoder, &candidates, &mut luma, &mut cb, &mut cr)?;
    let residuals = Residuals {
        luma: Some(rows(&luma)),
        cb: Some(rows(&cb)),
        cr: Some(rows(&cr)),
    };
    sink.levels(block, mode, residuals);
    Some(Kept {
        kind: Kind::Intra(mode),
        vector: None,
    })
}

// Reads a unit from pcm_flag on, and hands it to the sink.
fn read_content<S: LeafSink>(
    decoder: &mut Decoder,
    size: Size,
    grid: &Grid,
    block: CodingBlock,
    sink: &mut S,
) -> Option<Kept>
    requires open { IsOpen decoder.old }
    requires grid { grid.now.size ≡ size }
    requires size { (S.last sink.old).size ≡ size }
    requires low { 3 ≤ block.log2 }
    requires high { block.log2 ≤ 5 }
    requires column { block.x % 2 ^ block.log2 ≡ 0 }
    requires row { block.y % 2 ^ block.log2 ≡ 0 }
    requires across { block.x + 2 ^ block.log2 ≤ coded size.w }
    requires down { block.y + 2 ^ block.log2 ≤ coded size.h }
    ensures value { (before : List Moving) → StandsFor grid.now (leaves before)
        → Hands result (content_read before block decoder.old) decoder.new (Takes (S.stands_for sink.old) (S.stands_for sink.new) size block) }
    ensures open { IfSome result (λ _. IsOpen decoder.new) }
    ensures still { IfSome result (λ kept. kept.vector ≡ None) }
    ensures mode { IfSome result (λ kept. IsMode kept.kind) }
    ensures last { S.last sink.new ≡ S.last sink.old }
{
    if decoder.bin(Place::Terminate)? {
        read_samples(decoder, size, block, sink)
    } else {
        read_levels(decoder, size, grid, block, sink)
    }
}

/// Reads a unit that isn't copied from part_mode on, and hands it to the sink.
pub(crate) fn read_own<S: LeafSink>(
    decoder: &mut Decoder,
    size: Size,
    grid: &Grid,
    block: CodingBlock,
    sink: &mut S,
) -> Option<Kept>
    requires open { IsOpen decoder.old }
    requires grid { grid.now.size ≡ size }
    requires size { (S.last sink.old).size ≡ size }
    requires low { 3 ≤ block.log2 }
    requires high { block.log2 ≤ 5 }
    requires column { block.x % 2 ^ block.log2 ≡ 0 }
    requires row { block.y % 2 ^ block.log2 ≡ 0 }
    requires across { block.x + 2 ^ block.log2 ≤ coded size.w }
    requires down { block.y + 2 ^ block.log2 ≤ coded size.h }
    ensures value { (before : List Moving) → StandsFor grid.now (leaves before)
        → Hands result (own_read before block decoder.old) decoder.new (Takes (S.stands_for sink.old) (S.stands_for sink.new) size block) }
    ensures open { IfSome result (λ _. IsOpen decoder.new) }
    ensures still { IfSome result (λ kept. kept.vector ≡ None) }
    ensures mode { IfSome result (λ kept. IsMode kept.kind) }
    ensures last { S.last sink.new ≡ S.last sink.old }
{
    read_part_mode(decoder, block.log2)?;
    read_content(decoder, size, grid, block, sink)
}
