//! Copies and fills that are likely to help. What they leave wrong is mended afterwards.
ghost use Rattle.std.specs.Prelude.{◌≡◌, ◌≤◌, IsTrue};
ghost use Rattle.frame_paints.specs.Lines.{PaintsIn};
ghost use Rattle.frame_paints.specs.Parts.{IsInRows};

use crate::blocks::Fill;
use crate::lines::put;
use crate::moves::{Move, find_move};
use crate::plans::Work;
use h265_model::{NoMemory, Rect};
use paint_script::Script;
use px_plane::{Picture, Size};
use recorder_model::Line;
use std::alloc::Global;

// The most copies of a frame.
const MOST_MOVES: u32 = 8;

// Whether a rectangle lies in the rows from `top` up to `bottom`.
fn is_in_rows(size: Size, rect: Rect, top: u32, bottom: u32) -> bool
    requires { bottom ≤ size.h }
    ensures { IsTrue result → IsInRows size rect top bottom }
{
    let across = rect.w >= 1 && rect.w <= size.w() && rect.x <= size.w() - rect.w;
    let down = rect.h >= 1 && rect.h <= bottom && rect.y >= top && rect.y <= bottom - rect.h;
    across && down
}

// Paints a fill, if it lies in the rows.
fn put_fill(
    shown: &mut Picture,
    script: &mut Script,
    fill: Fill,
    top: u32,
    bottom: u32,
) -> Result<(), NoMemory>
    requires down { bottom ≤ shown.old.size.h }
    ensures { PaintsIn shown.old script.old shown.new script.new top bottom }
{
    let Fill { rect, colour } = fill;
    if !is_in_rows(shown.size(), rect, top, bottom) {
        return Ok(());
    }
    put(shown, script, Line::Fill { rect, colour })
}

// Paints a copy, if it and what it reads lie in the rows.
fn put_copy(
    shown: &mut Picture,
    script: &mut Script,
    copy: Move,
    top: u32,
    bottom: u32,
) -> Result<(), NoMemory>
    requires down { bottom ≤ shown.old.size.h }
    requires version { script.old.version ≡ 2 }
    ensures { PaintsIn shown.old script.old shown.new script.new top bottom }
{
    let Move { rect, to_x, to_y } = copy;
    let Rect { w, h, .. } = rect;
    let target = Rect {
        x: to_x,
        y: to_y,
        w,
        h,
    };
    let size = shown.size();
    if !is_in_rows(size, rect, top, bottom) || !is_in_rows(size, target, top, bottom) {
        return Ok(());
    }
    put(shown, script, Line::Copy { rect, to_x, to_y })
}

// Paints fills.
fn put_fills(
    shown: &mut Picture,
    script: &mut Script,
    fills: &[Fill],
    top: u32,
    bottom: u32,
) -> Result<(), NoMemory>
    requires down { bottom ≤ shown.old.size.h }
    ensures { PaintsIn shown.old script.old shown.new script.new top bottom }
{
    for fill in fills {
        put_fill(shown, script, *fill, top, bottom)?;
    }
    Ok(())
}

// Paints what moved in the rows from `top` up to `bottom`.
fn paint_moves(
    alloc: Global,
    shown: &mut Picture,
    frame: &Picture,
    top: u32,
    bottom: u32,
    script: &mut Script,
) -> Result<(), NoMemory>
    requires sizes { frame.now.size ≡ shown.old.size }
    requires down { (top ≤ bottom) × (bottom ≤ shown.old.size.h) }
    requires version { script.old.version ≡ 2 }
    ensures { PaintsIn shown.old script.old shown.new script.new top bottom }
{
    for _ in 0..MOST_MOVES {
        let Some(copy) = find_move(alloc, shown, frame, top, bottom)? else {
            return Ok(());
        };
        put_copy(shown, script, copy, top, bottom)?;
    }
    Ok(())
}

// Paints all that changed with one colour, where that helps.
fn paint_ground(
    work: &mut Work,
    shown: &mut Picture,
    frame: &Picture,
    top: u32,
    bottom: u32,
    script: &mut Script,
) -> Result<(), NoMemory>
    requires sizes { frame.now.size ≡ shown.old.size }
    requires down { (top ≤ bottom) × (bottom ≤ shown.old.size.h) }
    ensures { PaintsIn shown.old script.old shown.new script.new top bottom }
{
    match work.ground_of(shown, frame, top, bottom) {
        None => Ok(()),
        Some(fill) => put_fill(shown, script, fill, top, bottom),
    }
}

// Paints what is solid.
fn paint_solids(
    alloc: Global,
    work: &mut Work,
    shown: &mut Picture,
    frame: &Picture,
    top: u32,
    bottom: u32,
    script: &mut Script,
) -> Result<(), NoMemory>
    requires sizes { frame.now.size ≡ shown.old.size }
    requires down { (top ≤ bottom) × (bottom ≤ shown.old.size.h) }
    ensures { PaintsIn shown.old script.old shown.new script.new top bottom }
{
    let mut fills = Vec::new(alloc);
    work.plan_rows(shown, frame, top, bottom, &mut fills)?;
    put_fills(shown, script, &fills, top, bottom)
}

/// Paints what moved and what is solid in the rows from `top` up to `bottom`.
pub(crate) fn paint_guesses(
    alloc: Global,
    shown: &mut Picture,
    frame: &Picture,
    top: u32,
    bottom: u32,
    script: &mut Script,
) -> Result<(), NoMemory>
    requires sizes { frame.now.size ≡ shown.old.size }
    requires down { bottom ≤ shown.old.size.h }
    requires version { script.old.version ≡ 2 }
    ensures { PaintsIn shown.old script.old shown.new script.new top bottom }
{
    if top >= bottom {
        return Ok(());
    }
    let mut work = Work::new(alloc)?;
    paint_moves(alloc, shown, frame, top, bottom, script)?;
    paint_ground(&mut work, shown, frame, top, bottom, script)?;
    paint_solids(alloc, &mut work, shown, frame, top, bottom, script)
}
