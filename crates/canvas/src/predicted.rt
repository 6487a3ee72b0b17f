//! Predicted blocks.
ghost use Rattle.std.specs.Prelude.{◌≡◌, ◌+◌, ◌*◌, ◌<◌, ◌≤◌, ◌%◌, ◌^◌, length};
ghost use Rattle.std.specs.Option.{option_copied};
ghost use Rattle.h265_model.specs.Plain.{coded, AreBytes};
ghost use Rattle.h265_model.specs.Predict.{prediction};
ghost use Rattle.h265_model.specs.Rebuild.{sums};
ghost use Rattle.px_plane.specs.Planes.{IsPicture, Stores, picture_of};
ghost use Rattle.px_plane.specs.Rows.{with_square};
ghost use Rattle.leaf_sink.specs.Units.{IsLong, levels_or};
ghost use Rattle.canvas.specs.Drawing.{drawn_block};

use crate::levels::add_levels;
use crate::side::{area, side};
use h265_model::CodingBlock;
use intra_predict::predict;
use intra_refs::{filter, filtered, refs};
use px_plane::Picture;

// The block that a mode predicts of a component from what is drawn (8.4.4.2).
fn predict_block(drawn: &Picture, component: u32, block: CodingBlock, mode: u32, out: &mut [u8])
    requires component { component < 3 }
    requires low { 3 ≤ block.log2 }
    requires high { block.log2 ≤ 5 }
    requires column { block.x % 2 ^ block.log2 ≡ 0 }
    requires row { block.y % 2 ^ block.log2 ≡ 0 }
    requires across { block.x + 2 ^ block.log2 ≤ coded drawn.now.size.w }
    requires down { block.y + 2 ^ block.log2 ≤ coded drawn.now.size.h }
    requires mode { mode < 35 }
    requires long { length out.old ≡ 2 ^ block.log2 * 2 ^ block.log2 }
    ensures { out.new ≡ prediction drawn.now.size (picture_of drawn.now) mode component block }
{
    let line = refs(drawn, component, block);
    if filtered(mode, block.log2) {
        predict(mode, component, &filter(&line), out);
    } else {
        predict(mode, component, &line, out);
    }
}

// Samples are bytes.
fn bytes_fit(samples: &[u8])
    ensures { AreBytes samples.now }
{}

// Adds the levels of a component, if it has any.
fn add_residual(log2: u32, samples: &mut [u8], levels: Option<&[i16]>)
    requires samples { length samples.old ≡ 2 ^ log2 * 2 ^ log2 }
    requires levels { IsLong log2 (option_copied levels) }
    ensures { samples.new ≡ sums samples.old (levels_or log2 (option_copied levels.entry)) }
{
    match levels {
        Some(levels) => add_levels(samples, levels),
        None => bytes_fit(samples),
    }
}

/// Draws a component of a block from its prediction and its levels (8.4.4.1). `room` is for the samples.
pub(crate) fn draw_component(
    drawn: &mut Picture,
    room: &mut [u8; 1024],
    component: u32,
    block: CodingBlock,
    mode: u32,
    levels: Option<&[i16]>,
)
    requires component { component < 3 }
    requires low { 3 ≤ block.log2 }
    requires high { block.log2 ≤ 5 }
    requires column { block.x % 2 ^ block.log2 ≡ 0 }
    requires row { block.y % 2 ^ block.log2 ≡ 0 }
    requires across { block.x + 2 ^ block.log2 ≤ coded drawn.old.size.w }
    requires down { block.y + 2 ^ block.log2 ≤ coded drawn.old.size.h }
    requires mode { mode < 35 }
    requires levels { IsLong block.log2 (option_copied levels) }
    ensures size { drawn.new.size ≡ drawn.old.size }
    ensures whole { IsPicture drawn.new }
    ensures drawn { Stores drawn.new (with_square (picture_of drawn.old) component block.x block.y (2 ^ block.log2)
        (drawn_block drawn.old.size (picture_of drawn.old) mode component block (option_copied levels.entry))) }
{
    let samples = &mut room[..area(block.log2)];
    predict_block(drawn, component, block, mode, samples);
    add_residual(block.log2, samples, levels);
    drawn.put_block(component, block.x, block.y, side(block.log2), samples);
}
