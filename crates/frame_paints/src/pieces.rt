//! Pieces of a frame: a fill where a piece has one colour, or else a blit.
ghost use Rattle.std.specs.Prelude.{◌≡◌, ℕ, ◌+◌, ◌*◌, ◌<◌, ◌++◌, length, slice_index, IsTrue, ◌↔◌, IfSome, IfOk, OnOk};
ghost use Rattle.std.specs.List.{All};
ghost use Rattle.h265_model.specs.Plain.{place_values};
ghost use Rattle.px_plane.specs.Planes.{picture_of, Stores};
ghost use Rattle.paint_script.specs.Spellable.{IsSpellableColour};
ghost use Rattle.frame_paints.specs.Lines.{Went, patched};
ghost use Rattle.frame_paints.specs.Parts.{IsPiece, HasSample, HasColour};
ghost use Rattle.frame_paints.specs.Pixels.{mixed, colour_at};

use crate::lines::put;
use h265_model::{NoMemory, Rect, Rgb};
use paint_script::Script;
use px_plane::Picture;
use recorder_model::{Line, Pixels};
use std::alloc::Global;

// Whether all samples of a row are this one. It looks at all, which goes many at a time.
fn is_all(row: &[u8], sample: u8) -> bool
    ensures { IsTrue result ↔ ((i : ℕ) → i < length row.now → slice_index row.now i ≡ sample) }
{
    let mut same = true;
    for i in 0..row.len() {
        same &= row[i] == sample;
    }
    same
}

// Whether a component has one sample at all places of a piece.
fn has_sample(frame: &Picture, piece: Rect, component: u32, sample: u8) -> bool
    requires piece { IsPiece frame.now.size piece }
    requires component { component < 3 }
    ensures { IsTrue result → HasSample frame.now piece component sample }
{
    let _size = frame.size();
    for y in piece.y..piece.y + piece.h {
        if !is_all(frame.row(component, piece.x, y, piece.w), sample) {
            return false;
        }
    }
    true
}

// The colour of all places of a piece, if it has one.
fn one_colour(frame: &Picture, piece: Rect) -> Option<Rgb>
    requires { IsPiece frame.now.size piece }
    ensures colour { IfSome result (HasColour frame.now piece) }
    ensures spellable { IfSome result IsSpellableColour }
{
    let (x, y) = (piece.x, piece.y);
    for component in 0..3 {
        let sample = frame.sample(component, x, y);
        if !has_sample(frame, piece, component, sample) {
            return None;
        }
    }
    Some(Rgb {
        r: frame.sample(2, x, y),
        g: frame.sample(0, x, y),
        b: frame.sample(1, x, y),
    })
}

// Adds the pixels of a row.
fn add_row(pixels: &mut Vec<Rgb>, r: &[u8], g: &[u8], b: &[u8]) -> Result<(), NoMemory>
    requires green { length g.now ≡ length r.now }
    requires blue { length b.now ≡ length r.now }
    ensures mixed { OnOk result (pixels.new.items ≡ pixels.old.items ++ mixed r.now g.now b.now) }
    ensures colours { OnOk result (All IsSpellableColour pixels.old.items → All IsSpellableColour pixels.new.items) }
{
    for i in 0..r.len() {
        pixels.push(Rgb {
            r: r[i],
            g: g[i],
            b: b[i],
        })?;
    }
    Ok(())
}

// The pixels of a piece, in rows from the top.
fn pixels_of(alloc: Global, frame: &Picture, piece: Rect) -> Result<Pixels, NoMemory>
    requires { IsPiece frame.now.size piece }
    ensures pixels { IfOk result (λ pixels. pixels ≡ place_values piece.w piece.h (λ x y. colour_at frame.now (piece.x + x) (piece.y + y))) }
    ensures colours { IfOk result (All IsSpellableColour) }
{
    let _size = frame.size();
    let Rect { x, y, w, h } = piece;
    let mut pixels = Vec::with_capacity(alloc, w as usize * h as usize)?;
    for row in 0..h {
        add_row(
            &mut pixels,
            frame.row(2, x, y + row, w),
            frame.row(0, x, y + row, w),
            frame.row(1, x, y + row, w),
        )?;
    }
    Ok(Pixels::from_vec(pixels))
}

/// Paints a piece as the frame has it.
pub(crate) fn paint_piece(
    alloc: Global,
    shown: &mut Picture,
    frame: &Picture,
    piece: Rect,
    script: &mut Script,
) -> Result<(), NoMemory>
    requires sizes { frame.now.size ≡ shown.old.size }
    requires piece { IsPiece frame.now.size piece }
    ensures went { Went shown.old script.old shown.new script.new }
    ensures patched { OnOk result (Stores shown.new (patched shown.old frame.now piece)) }
{
    let _size = frame.size();
    let rect = piece;
    if let Some(colour) = one_colour(frame, piece) {
        return put(shown, script, Line::Fill { rect, colour });
    }
    let pixels = pixels_of(alloc, frame, piece)?;
    put(shown, script, Line::Blit { rect, pixels })
}
