//! Lines that are added to a script and painted.
ghost use Rattle.std.specs.Prelude.{◌≡◌, OnOk, OnErr, false};
ghost use Rattle.recorder_model.specs.Script.{is_cut};
ghost use Rattle.recorder_model.specs.Painting.{Shown, painted};
ghost use Rattle.px_plane.specs.Planes.{Stores, ShowsColours};
ghost use Rattle.paint_script.specs.Spellable.{IsSpellable, IsOfVersion};
ghost use Rattle.frame_paints.specs.Lines.{drawn, Went};

use h265_model::NoMemory;
use paint_script::Script;
use px_plane::Picture;
use recorder_model::Line;

// Paints a line.
fn paint(shown: &mut Picture, line: &Line)
    requires { IsSpellable line.now }
    ensures size { shown.new.size ≡ shown.old.size }
    ensures drawn { Stores shown.new (drawn shown.old line.now) }
    ensures shows { (before : Shown) → ShowsColours shown.old before → ShowsColours shown.new (painted shown.old.size before line.now) }
{
    match line {
        Line::Fill { rect, colour } => shown.fill(*rect, *colour),
        Line::Blit { rect, pixels } => shown.blit(*rect, pixels.as_slice()),
        Line::Copy { rect, to_x, to_y } => shown.copy(*rect, *to_x, *to_y),
        Line::Cut => {}
    }
}

/// Adds a line to a script, and paints it.
pub(crate) fn put(shown: &mut Picture, script: &mut Script, line: Line) -> Result<(), NoMemory>
    requires paints { is_cut line ≡ false }
    requires spellable { IsSpellable line }
    requires version { IsOfVersion script.old.version line }
    ensures went { Went shown.old script.old shown.new script.new }
    ensures drawn { OnOk result (Stores shown.new (drawn shown.old line)) }
    ensures unchanged { OnErr result (shown.new ≡ shown.old) }
{
    let index = script.lines();
    if index == u32::MAX {
        return Err(NoMemory);
    }
    script.add(line)?;
    paint(shown, script.line(index).unwrap());
    Ok(())
}
