//! Rows of a frame: what is likely to help first, and then what is left.
ghost use Rattle.std.specs.Prelude.{◌≡◌, ◌≤◌, OnOk};
ghost use Rattle.frame_paints.specs.Lines.{Went};
ghost use Rattle.frame_paints.specs.Parts.{SameBetween, KeptBeside};

use crate::guesses::paint_guesses;
use crate::squares::mend_rows;
use h265_model::NoMemory;
use paint_script::Script;
use px_plane::Picture;
use std::alloc::Global;

/// Paints the rows of a frame from `top` up to `bottom`.
pub(crate) fn paint_strip(
    alloc: Global,
    shown: &mut Picture,
    frame: &Picture,
    top: u32,
    bottom: u32,
    script: &mut Script,
) -> Result<(), NoMemory>
    requires sizes { frame.now.size ≡ shown.old.size }
    requires down { bottom ≤ frame.now.size.h }
    requires version { script.old.version ≡ 2 }
    ensures went { Went shown.old script.old shown.new script.new }
    ensures painted { OnOk result (SameBetween shown.new frame.now 0 frame.now.size.w top bottom) }
    ensures beside { OnOk result (KeptBeside shown.old shown.new 0 frame.now.size.w top bottom) }
{
    paint_guesses(alloc, shown, frame, top, bottom, script)?;
    mend_rows(alloc, shown, frame, top, bottom, script)
}
