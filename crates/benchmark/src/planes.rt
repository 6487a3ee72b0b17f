//! Pictures of 1920 by 1080: filled, painted with pixels, moved up and down by a row, and tiles laid into them.
ghost use Rattle.std.specs.Prelude.{◌≡◌, IfOk};
ghost use Rattle.px_plane.specs.Tiles.{IsJobOf};

use crate::measure::{Mode, Work, measure};
use crate::trouble::Trouble;
use h265_model::{Bytes, NoMemory, Numbers};
use px_plane::{Job, Picture, Rect, Rgb, Size};
use std::alloc::Global;
use std::rt::Clock;

const W: u32 = 1920;

const H: u32 = 1080;

#[derive(Drop)]
struct Filling {
    picture: Picture,
    grey: u8,
}

impl Work for Filling {
    fn round(&mut self, _: Global) -> Result<usize, Trouble> {
        let whole = Rect {
            x: 0,
            y: 0,
            w: W,
            h: H,
        };
        let colour = Rgb {
            r: self.grey,
            g: self.grey,
            b: self.grey,
        };
        self.picture.fill(whole, colour);
        self.grey ^= 0x55;
        Ok(self.picture.plane(0).len())
    }
}

#[derive(Drop)]
struct Blitting {
    picture: Picture,
    pixels: Vec<Rgb>,
}

impl Work for Blitting {
    fn round(&mut self, _: Global) -> Result<usize, Trouble> {
        let pixels = self.pixels.as_slice();
        if pixels.len() != 4096 {
            return Err(Trouble::Refused);
        }
        for y in 0..16u32 {
            for x in 0..30u32 {
                let rect = Rect {
                    x: x * 64,
                    y: y * 64,
                    w: 64,
                    h: 64,
                };
                self.picture.blit(rect, pixels);
            }
        }
        Ok(self.picture.plane(0).len())
    }
}

#[derive(Drop)]
struct Copying {
    picture: Picture,
    up: bool,
}

impl Work for Copying {
    fn round(&mut self, _: Global) -> Result<usize, Trouble> {
        let (from, to) = if self.up { (1, 0) } else { (0, 1) };
        let rect = Rect {
            x: 0,
            y: from,
            w: W,
            h: H - 1,
        };
        self.picture.copy(rect, 0, to);
        self.up = !self.up;
        Ok(self.picture.plane(0).len())
    }
}

#[derive(Drop)]
struct Laying;

// How often the tiles are laid in a round
const LAYINGS: u32 = 1000;

impl Work for Laying {
    fn round(&mut self, alloc: Global) -> Result<usize, Trouble> {
        let size = Size::new(W, H).ok_or(Trouble::Refused)?;
        let mut picture = Picture::black(alloc, size)?;
        let job = two_tiles(alloc)?;
        for _ in 0..LAYINGS {
            picture.lay(&job);
        }
        Ok(picture.plane(0).len())
    }
}

// A job with the first two tiles.
fn two_tiles(alloc: Global) -> Result<Job, NoMemory>
    ensures { IfOk result (IsJobOf (record { w = 1920; h = 1080 })) }
{
    let tiles = [0, 1].to_vec(alloc)?;
    let samples = [7u8; 6144].to_vec(alloc)?;
    Ok(Job {
        number: 0,
        tiles: Numbers::from_vec(tiles),
        samples: Bytes::from_vec(samples),
    })
}

/// Fills the whole picture, paints it with pixels in squares of 64 by 64, moves it by a row, and lays two tiles a thousand times.
pub fn run<R: Clock + Print>(rt: &R, alloc: Global, mode: Mode) -> Result<(), Trouble> {
    let size = Size::new(W, H).ok_or(Trouble::Refused)?;
    let picture = Picture::black(alloc, size)?;
    let bytes = 3 * W as usize * H as usize;
    let mut filling = Filling { picture, grey: 1 };
    measure(rt, alloc, mode, "fill", bytes, &mut filling)?;
    let picture = Picture::black(alloc, size)?;
    let pixel = Rgb { r: 1, g: 2, b: 3 };
    let pixels = vec![in alloc; pixel; 4096]?;
    let mut blitting = Blitting { picture, pixels };
    measure(rt, alloc, mode, "blit", 5_898_240, &mut blitting)?;
    let picture = Picture::black(alloc, size)?;
    let mut copying = Copying { picture, up: true };
    measure(rt, alloc, mode, "copy", 6_215_040, &mut copying)?;
    measure(rt, alloc, mode, "lay", 6_144_000, &mut Laying)
}
