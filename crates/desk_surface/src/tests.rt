//! Damaged tiles and their samples.
ghost use Rattle.std.specs.Prelude.{◌≡◌, false};
ghost use Rattle.recorder_model.specs.Script.{is_cut};
ghost use Rattle.desk_surface.specs.Damage.{HasPixels};

use crate::{Line, Size, Surface};
use h265_model::{Rect, Rgb};
use recorder_model::Pixels;
use std::test::Fail;

const WHITE: Rgb = Rgb {
    r: 255,
    g: 255,
    b: 255,
};

const ORANGE: Rgb = Rgb {
    r: 255,
    g: 128,
    b: 64,
};

fn fill(x: u32, y: u32, w: u32, h: u32, colour: Rgb) -> Line
    ensures paints { is_cut result ≡ false }
    ensures pixels { HasPixels result }
{
    let rect = Rect { x, y, w, h };
    Line::Fill { rect, colour }
}

#[test]
fn a_job_lists_the_tiles_painted_in(rt: HostRuntime) -> Result<(), Fail> {
    let size = Size::new(96, 64).ok_or("no size")?;
    let mut surface = Surface::new(rt.alloc(), size)?;
    surface.apply(&fill(31, 0, 2, 33, WHITE));
    let job = surface.cut_job(7)?;
    assert_eq!(rt; job.number, 7);
    assert!(rt; job.tiles.as_slice() == [0, 1, 3, 4].as_slice());
    assert_eq!(rt; job.samples.as_slice().len(), 4 * 3072);
    let again = surface.cut_job(8)?;
    assert!(rt; again.tiles.as_slice().is_empty() && again.samples.as_slice().is_empty());
    surface.apply(&fill(96, 0, 5, 5, WHITE));
    assert!(rt; surface.cut_job(9)?.tiles.as_slice().is_empty());
    Ok(())
}

// The sample of a tile that is filled with one colour within 8 by 8
fn expected(place: usize) -> u8 {
    let (plane, y, x) = (place / 1024, place / 32 % 32, place % 32);
    match plane {
        _ if x >= 8 || y >= 8 => 0,
        0 => 128,
        1 => 64,
        _ => 255,
    }
}

#[test]
fn samples_are_0_outside_the_desktop(rt: HostRuntime) -> Result<(), Fail> {
    let size = Size::new(8, 8).ok_or("no size")?;
    let mut surface = Surface::new(rt.alloc(), size)?;
    surface.apply(&fill(0, 0, 100, 100, ORANGE));
    let job = surface.cut_job(0)?;
    let samples = job.samples.as_slice();
    assert_eq!(rt; samples.len(), 3072);
    for place in 0..samples.len() {
        assert_eq!(rt; samples[place], expected(place));
    }
    assert_eq!(rt; surface.picture().sample(2, 7, 7), 255);
    Ok(())
}

#[test]
fn a_blit_raises_the_flags_of_its_part(rt: HostRuntime) -> Result<(), Fail> {
    let size = Size::new(64, 33).ok_or("no size")?;
    let mut surface = Surface::new(rt.alloc(), size)?;
    let pixels = [ORANGE, WHITE].to_vec(rt.alloc())?;
    let line = Line::Blit {
        rect: Rect {
            x: 63,
            y: 32,
            w: 2,
            h: 1,
        },
        pixels: Pixels::from_vec(pixels),
    };
    surface.apply(&line);
    let job = surface.cut_job(0)?;
    assert!(rt; job.tiles.as_slice() == [3].as_slice());
    let samples = job.samples.as_slice();
    assert!(rt; samples.len() == 3072 && samples[31] == 128 && samples[30] == 0);
    Ok(())
}
