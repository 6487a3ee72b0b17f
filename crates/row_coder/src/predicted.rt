//! The samples of a coding unit, and what its prediction leaves of them.
ghost use Rattle.std.specs.Prelude.{◌≡◌, ◌<◌, ◌≤◌, ◌+◌, ◌*◌, ◌^◌, ◌%◌, ◌&&◌, true, false, length, map, pos, ◌-ℤ◌, IfSome, IsNone};
ghost use Rattle.h265_model.specs.Plain.{AreBytes};
ghost use Rattle.h265_model.specs.Predict.{prediction};
ghost use Rattle.h265_model.specs.Residual.{AreLevels};
ghost use Rattle.h265_model.specs.Tree.{differences, samples_in};
ghost use Rattle.px_plane.specs.Planes.{picture_of};
ghost use Rattle.h265_model.specs.declared.leaf.Kind.TheVariants.{Intra};
ghost use Rattle.coding_tree.specs.Filled.{HasLevels, HasSamples};
ghost use Rattle.row_coder.specs.Sources.{is_placed, is_predicted, IsPlaced, picture_source};

use bin_items::{Block, Kind, Leaf};
use intra_predict::predict;
use intra_refs::{filter, filtered, refs};
use px_plane::{Picture, Size};

// The side of a block.
fn side(log2: u32) -> u32
    requires low { 3 ≤ log2 }
    requires high { log2 ≤ 5 }
    ensures value { result ≡ 2 ^ log2 }
    ensures least { 8 ≤ result }
    ensures most { result ≤ 32 }
{
    match log2 {
        3 => 8,
        4 => 16,
        _ => 32,
    }
}

// Whether a coding unit begins at multiples of its side and lies wholly in the coded picture.
fn is_placed(size: Size, leaf: Leaf) -> bool
    requires low { 3 ≤ leaf.block.log2 }
    requires high { leaf.block.log2 ≤ 5 }
    ensures value { result ≡ is_placed size leaf }
    ensures placed { result ≡ true → IsPlaced size leaf }
{
    let side = 1u32 << leaf.block.log2;
    let (w, h) = ((size.w() + 7) / 8 * 8, (size.h() + 7) / 8 * 8);
    leaf.block.x % side == 0
        && leaf.block.y % side == 0
        && leaf.block.x <= w
        && leaf.block.x + side <= w
        && leaf.block.y <= h
        && leaf.block.y + side <= h
}

// The mode of a coding unit, where it has one and its block is predicted.
fn predicted_mode(size: Size, leaf: Leaf) -> Option<u32>
    requires low { 3 ≤ leaf.block.log2 }
    requires high { leaf.block.log2 ≤ 5 }
    ensures some { IfSome result (λ mode. (leaf.kind ≡ Intra mode) × (mode < 35) × IsPlaced size leaf × ((is_placed size leaf && is_predicted leaf.kind) ≡ true)) }
    ensures none { IsNone result → (is_placed size leaf && is_predicted leaf.kind) ≡ false }
{
    match leaf.kind {
        Kind::Intra(mode) => {
            if is_placed(size, leaf) && mode < 35 {
                return Some(mode);
            }
            None
        }
        Kind::Skip | Kind::Pcm => None,
    }
}

// The prediction of a coding unit's samples under a mode (8.4.4.2), in rows.
fn predict_block(picture: &Picture, component: u32, leaf: Leaf, mode: u32, guess: &mut [u8])
    requires component { component < 3 }
    requires mode { mode < 35 }
    requires placed { IsPlaced picture.now.size leaf }
    requires block { length guess.old ≡ 2 ^ leaf.block.log2 * 2 ^ leaf.block.log2 }
    ensures { guess.new ≡ prediction picture.now.size (picture_of picture.now) mode component leaf.block }
{
    let plain = refs(picture, component, leaf.block);
    if filtered(mode, leaf.block.log2) {
        predict(mode, component, &filter(&plain), guess);
    } else {
        predict(mode, component, &plain, guess);
    }
}

// A sample less another.
#[inline(always)]
fn difference(sample: u8, guess: u8) -> i16
    ensures { result ≡ (pos sample -ℤ pos guess) }
{
    i16::from(sample) - i16::from(guess)
}

// A row of samples less another row.
#[inline(always)]
fn subtract_row(samples: &[u8], guess: &[u8], out: &mut [i16])
    requires same { length samples.now ≡ length guess.now }
    requires out { length samples.now ≡ length out.old }
    ensures levels { out.new ≡ differences samples.now guess.now }
    ensures bytes { AreBytes samples.now }
{
    for i in 0..samples.len() {
        out[i] = difference(samples[i], guess[i]);
    }
}

// Fills a block with a coding unit's samples less those of another block, which are in rows.
fn subtract_block(picture: &Picture, component: u32, leaf: Leaf, guess: &[u8], out: &mut Block)
    requires component { component < 3 }
    requires placed { IsPlaced picture.now.size leaf }
    requires block { length guess.now ≡ 2 ^ leaf.block.log2 * 2 ^ leaf.block.log2 }
    requires side { out.old.log2 ≡ leaf.block.log2 }
    ensures side { out.new.log2 ≡ leaf.block.log2 }
    ensures levels { out.new.levels ≡ differences (samples_in (picture_of picture.now) leaf component) guess.now }
    ensures bytes { AreBytes (samples_in (picture_of picture.now) leaf component) }
    ensures fit { AreLevels out.new.levels }
{
    let n = side(leaf.block.log2);
    let mut values = [0i16; 32];
    let row = &mut values[..n as usize];
    for y in 0..n {
        let at = (y * n) as usize;
        let samples = picture.row(component, leaf.block.x, leaf.block.y + y, n);
        subtract_row(samples, &guess[at..at + n as usize], row);
        out.set_row(y, row);
    }
    let _log2 = out.log2();
}

// Fills a block with a coding unit's samples less their prediction under a mode.
fn fill_predicted(picture: &Picture, component: u32, leaf: Leaf, mode: u32, out: &mut Block)
    requires component { component < 3 }
    requires mode { mode < 35 }
    requires placed { IsPlaced picture.now.size leaf }
    requires side { out.old.log2 ≡ leaf.block.log2 }
    ensures side { out.new.log2 ≡ leaf.block.log2 }
    ensures levels { out.new.levels ≡ differences (samples_in (picture_of picture.now) leaf component)
        (prediction picture.now.size (picture_of picture.now) mode component leaf.block) }
    ensures fit { AreLevels out.new.levels }
{
    let n = side(leaf.block.log2);
    let mut samples = [0u8; 1024];
    let guess = &mut samples[..(n * n) as usize];
    predict_block(picture, component, leaf, mode, guess);
    subtract_block(picture, component, leaf, guess, out);
}

// Fills a block with a coding unit's samples.
fn fill_plain(picture: &Picture, component: u32, leaf: Leaf, out: &mut Block)
    requires component { component < 3 }
    requires placed { IsPlaced picture.now.size leaf }
    requires side { out.old.log2 ≡ leaf.block.log2 }
    ensures side { out.new.log2 ≡ leaf.block.log2 }
    ensures samples { out.new.levels ≡ map pos (samples_in (picture_of picture.now) leaf component) }
    ensures bytes { AreBytes (samples_in (picture_of picture.now) leaf component) }
{
    let n = side(leaf.block.log2);
    let nothing = [0u8; 1024];
    subtract_block(picture, component, leaf, &nothing[..(n * n) as usize], out);
}

/// Fills a block with the levels of a coding unit.
pub(crate) fn fill_levels(picture: &Picture, component: u32, leaf: Leaf, out: &mut Block)
    requires component { component < 3 }
    requires side { out.old.log2 ≡ leaf.block.log2 }
    ensures { HasLevels (picture_source picture.now.size (picture_of picture.now)) leaf component out.new }
{
    let log2 = out.log2();
    match predicted_mode(picture.size(), leaf) {
        Some(mode) => fill_predicted(picture, component, leaf, mode, out),
        None => *out = Block::zero(log2),
    }
}

/// Fills a block with the samples of a coding unit.
pub(crate) fn fill_samples(picture: &Picture, component: u32, leaf: Leaf, out: &mut Block)
    requires component { component < 3 }
    requires side { out.old.log2 ≡ leaf.block.log2 }
    ensures { HasSamples (picture_source picture.now.size (picture_of picture.now)) leaf component out.new }
{
    let log2 = out.log2();
    if is_placed(picture.size(), leaf) {
        fill_plain(picture, component, leaf, out);
    } else {
        *out = Block::zero(log2);
    }
}
