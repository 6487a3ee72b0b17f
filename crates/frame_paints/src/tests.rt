//! Frames painted one after another. What the lines paint is painted here again, line by line, and compared with the frames.
ghost use Rattle.std.specs.Prelude.{◌≡◌};

use crate::FramePainter;
use h265_model::{NoMemory, Rect, Rgb};
use paint_script::{Script, write_script};
use px_plane::{Picture, Size};
use recorder_model::Line;
use std::alloc::Global;
use std::test::Fail;

const GREY: Rgb = Rgb {
    r: 96,
    g: 97,
    b: 98,
};

const RED: Rgb = Rgb {
    r: 200,
    g: 3,
    b: 17,
};

fn rect(x: u32, y: u32, w: u32, h: u32) -> Rect
    ensures { result ≡ record { x = x; y = y; w = w; h = h } }
{
    Rect { x, y, w, h }
}

// Whether two pictures show the same.
fn is_equal(a: &Picture, b: &Picture) -> bool {
    a.size() == b.size()
        && a.plane(0) == b.plane(0)
        && a.plane(1) == b.plane(1)
        && a.plane(2) == b.plane(2)
}

// Paints a line, and says whether it is a cut.
fn paint(shown: &mut Picture, line: &Line) -> bool {
    match line {
        Line::Fill { rect, colour } => shown.fill(*rect, *colour),
        Line::Copy { rect, to_x, to_y } => shown.copy(*rect, *to_x, *to_y),
        Line::Blit { rect, pixels } => {
            let pixels = pixels.as_slice();
            if pixels.len() == rect.w as usize * rect.h as usize {
                shown.blit(*rect, pixels);
            }
        }
        Line::Cut => return true,
    }
    false
}

// How many lines of a script are cuts and how many are copies, painted over what is shown.
fn paint_all(shown: &mut Picture, script: &Script) -> (u32, u32) {
    let (mut cuts, mut copies) = (0u32, 0u32);
    for index in 0..script.lines() {
        if let Some(line) = script.line(index) {
            copies = copies.wrapping_add(u32::from(matches!(line, Line::Copy { .. })));
            cuts = cuts.wrapping_add(u32::from(paint(shown, line)));
        }
    }
    (cuts, copies)
}

// Pixels of which no two neighbours are alike.
fn pixels_of(alloc: Global, count: usize) -> Result<Vec<Rgb>, NoMemory> {
    let mut pixels = Vec::new(alloc);
    let mut seed = 12345u32;
    for _ in 0..count {
        seed = seed.wrapping_mul(1_664_525).wrapping_add(1_013_904_223);
        let part = (seed / 65536 % 256) as u8;
        pixels.push(Rgb {
            r: part,
            g: part / 3,
            b: 255 - part,
        })?;
    }
    Ok(pixels)
}

#[test]
fn what_changes_is_painted(rt: HostRuntime) -> Result<(), Fail> {
    let alloc = rt.alloc();
    let size = Size::new(150, 100).ok_or("no size")?;
    let mut painter = FramePainter::new(alloc, size)?;
    let mut frame = Picture::black(alloc, size)?;
    let rows = [
        (rect(0, 0, 0, 0), RED, "cut\n"),
        (rect(0, 0, 150, 100), GREY, "fill 0 0 150 100 606162\ncut\n"),
        (rect(7, 9, 20, 10), RED, "fill 7 9 20 10 c80311\ncut\n"),
        (rect(7, 9, 20, 10), RED, "cut\n"),
        (rect(149, 99, 9, 9), RED, "fill 149 99 1 1 c80311\ncut\n"),
    ];
    for (painted, colour, want) in rows {
        frame.fill(painted, colour);
        let mut script = Script::empty_of(alloc, 2);
        painter.next(&frame, &mut script)?;
        let text = write_script(alloc, &script)?;
        let want = format!(in alloc; "paint 2\n{want}")?;
        assert!(rt; text.as_slice() == want.as_bytes(), "{want}");
    }
    Ok(())
}

// Makes the next one of some frames.
fn change(frame: &mut Picture, step: u32, pixels: &[Rgb])
    ensures { frame.new.size ≡ frame.old.size }
{
    match step {
        0 => frame.fill(rect(3, 3, 140, 90), GREY),
        1 => {
            if pixels.len() == 4096 {
                frame.blit(rect(20, 10, 64, 64), pixels);
            }
        }
        2 => frame.fill(rect(40, 20, 9, 60), RED),
        3 => frame.copy(rect(10, 13, 130, 80), 10, 0),
        _ => frame.copy(rect(20, 0, 64, 60), 50, 30),
    }
}

#[test]
fn the_lines_give_the_frames(rt: HostRuntime) -> Result<(), Fail> {
    let alloc = rt.alloc();
    let size = Size::new(150, 100).ok_or("no size")?;
    let mut painter = FramePainter::new(alloc, size)?;
    let mut frame = Picture::black(alloc, size)?;
    let mut shown = Picture::black(alloc, size)?;
    let pixels = pixels_of(alloc, 64 * 64)?;
    for step in 0..5 {
        change(&mut frame, step, &pixels);
        let mut script = Script::empty_of(alloc, 2);
        painter.next(&frame, &mut script)?;
        let (cuts, copies) = paint_all(&mut shown, &script);
        assert!(rt; is_equal(&shown, &frame), "frame {step}");
        assert_eq!(rt; cuts, 1, "frame {step}");
        assert_eq!(rt; copies >= 1, step >= 3, "frame {step}");
    }
    Ok(())
}

#[test]
fn a_strip_is_painted_alone(rt: HostRuntime) -> Result<(), Fail> {
    let alloc = rt.alloc();
    let size = Size::new(70, 90).ok_or("no size")?;
    let mut painter = FramePainter::new(alloc, size)?;
    let mut frame = Picture::black(alloc, size)?;
    frame.fill(rect(0, 0, 70, 90), GREY);
    frame.fill(rect(5, 40, 60, 10), RED);
    let mut want = Picture::black(alloc, size)?;
    want.fill(rect(0, 30, 70, 15), GREY);
    want.fill(rect(5, 40, 60, 5), RED);
    let mut shown = Picture::black(alloc, size)?;
    let mut script = Script::empty_of(alloc, 2);
    let middle = painter.size().h() / 2;
    painter.paint_rows(&frame, 30, middle, &mut script)?;
    assert_eq!(rt; paint_all(&mut shown, &script).0, 0);
    assert!(rt; is_equal(&shown, &want));
    painter.restart();
    assert!(rt; painter.size() == size);
    let black = Picture::black(alloc, size)?;
    let mut script = Script::empty_of(alloc, 2);
    painter.next(&black, &mut script)?;
    assert_eq!(rt; (script.lines(), script.cuts()), (1, 1));
    Ok(())
}
