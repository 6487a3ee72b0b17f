//! What is left to paint, square by square.
ghost use Rattle.std.specs.Prelude.{◌≡◌, ◌+◌, ◌<◌, ◌≤◌, OnOk};
ghost use Rattle.frame_paints.specs.Lines.{Went};
ghost use Rattle.frame_paints.specs.Parts.{SameBetween, SameIn, KeptBeside, IsPiece};

use crate::compare::{differing, first_row, last_row};
use crate::pieces::paint_piece;
use h265_model::{NoMemory, Rect};
use paint_script::Script;
use px_plane::Picture;
use std::alloc::Global;

// The longest side of a square.
const SIDE: u32 = 64;

// Paints what differs in a square.
fn mend_square(
    alloc: Global,
    shown: &mut Picture,
    frame: &Picture,
    square: Rect,
    script: &mut Script,
) -> Result<(), NoMemory>
    requires sizes { frame.now.size ≡ shown.old.size }
    requires square { IsPiece frame.now.size square }
    ensures went { Went shown.old script.old shown.new script.new }
    ensures mended { OnOk result (SameIn shown.new frame.now square) }
    ensures beside { OnOk result (KeptBeside shown.old shown.new square.x (square.x + square.w) square.y (square.y + square.h)) }
{
    match differing(shown, frame, square) {
        None => Ok(()),
        Some(part) => paint_piece(alloc, shown, frame, part, script),
    }
}

// Paints what differs in the rows from `top` up to `bottom`, of which there are no more than a square has.
fn mend_strip(
    alloc: Global,
    shown: &mut Picture,
    frame: &Picture,
    top: u32,
    bottom: u32,
    script: &mut Script,
) -> Result<(), NoMemory>
    requires sizes { frame.now.size ≡ shown.old.size }
    requires down { (top < bottom) × (bottom ≤ frame.now.size.h) }
    requires low { bottom ≤ top + 64 }
    ensures went { Went shown.old script.old shown.new script.new }
    ensures mended { OnOk result (SameBetween shown.new frame.now 0 frame.now.size.w top bottom) }
    ensures beside { OnOk result (KeptBeside shown.old shown.new 0 frame.now.size.w top bottom) }
{
    let w = frame.size().w();
    for column in 0..(w + SIDE - 1) / SIDE {
        let x = column * SIDE;
        let square = Rect {
            x,
            y: top,
            w: (w - x).min(SIDE),
            h: bottom - top,
        };
        mend_square(alloc, shown, frame, square, script)?;
    }
    Ok(())
}

// The same, of the rows between the first and the last one that differ.
fn mend_trimmed(
    alloc: Global,
    shown: &mut Picture,
    frame: &Picture,
    top: u32,
    bottom: u32,
    script: &mut Script,
) -> Result<(), NoMemory>
    requires sizes { frame.now.size ≡ shown.old.size }
    requires down { (top ≤ bottom) × (bottom ≤ frame.now.size.h) }
    requires low { bottom ≤ top + 64 }
    ensures went { Went shown.old script.old shown.new script.new }
    ensures mended { OnOk result (SameBetween shown.new frame.now 0 frame.now.size.w top bottom) }
    ensures beside { OnOk result (KeptBeside shown.old shown.new 0 frame.now.size.w top bottom) }
{
    let w = frame.size().w();
    let first = first_row(shown, frame, 0, w, top, bottom);
    let last = last_row(shown, frame, 0, w, first, bottom);
    if first < last {
        mend_strip(alloc, shown, frame, first, last, script)
    } else {
        Ok(())
    }
}

/// Paints what differs in the rows from `top` up to `bottom`.
pub(crate) fn mend_rows(
    alloc: Global,
    shown: &mut Picture,
    frame: &Picture,
    top: u32,
    bottom: u32,
    script: &mut Script,
) -> Result<(), NoMemory>
    requires sizes { frame.now.size ≡ shown.old.size }
    requires down { bottom ≤ frame.now.size.h }
    ensures went { Went shown.old script.old shown.new script.new }
    ensures mended { OnOk result (SameBetween shown.new frame.now 0 frame.now.size.w top bottom) }
    ensures beside { OnOk result (KeptBeside shown.old shown.new 0 frame.now.size.w top bottom) }
{
    let _size = frame.size();
    let rows = bottom.saturating_sub(top);
    for strip in 0..(rows + SIDE - 1) / SIDE {
        let y = top + strip * SIDE;
        let end = bottom.min(y + SIDE);
        mend_trimmed(alloc, shown, frame, y, end, script)?;
    }
    Ok(())
}
