//! Blocks of pictures of 1920 by 1080: compared, planned, and their levels coded.
ghost use Rattle.std.specs.Prelude.{◌≡◌, ◌<◌, length, IsTrue};
ghost use Rattle.h265_model.specs.Residual.{AreLevels, cbf};
ghost use Rattle.bin_items.specs.Growth.{IsOpen};
ghost use Rattle.cabac_bytes.specs.State.{phase_of};

use crate::measure::{Mode, Work, measure};
use crate::noise::noise;
use crate::trouble::Trouble;
use bin_items::{Bin, BinSink, Block, Kind, Leaf, Place};
use block_choice::plan_ctu;
use cabac_bytes::ByteCoder;
use cabac_tables::{Contexts, SliceKind};
use coding_tree::LevelSource;
use h265_model::CodingBlock;
use px_plane::{Picture, Rect, Rgb, Size, Steps};
use residual_code::write_residual;
use row_coder::PictureLevels;
use std::alloc::Global;
use std::marker::Brand;
use std::rt::Clock;
use std::sync::Arc;
use std::sync::ledger::{Blank, Ledger};

const W: u32 = 1920;

const H: u32 = 1080;

// The bytes of the three planes, which a work on the whole picture looks at.
const SAMPLES: usize = 3 * W as usize * H as usize;

// How often a block's levels are coded in a row
const TIMES: usize = 64;

const END: Bin = Bin {
    value: true,
    place: Place::Terminate,
};

// Plans each coding tree unit of an intra picture.
#[derive(Drop)]
struct Planning {
    picture: Picture,
    effort: u32,
}

// How many coding units are planned.
fn planned<L: Ledger>(picture: &Picture, effort: u32, steps: &mut Steps<L>) -> usize {
    let size = picture.size();
    let units = (size.w() + 31) / 32 * ((size.h() + 31) / 32);
    let mut count = 0usize;
    for unit in 0..units {
        count = count.wrapping_add(plan_ctu(None, picture, effort.min(2), unit, true, steps).len());
    }
    count
}

fn planned_in<L: Ledger>(picture: &Picture, effort: u32, blank: Blank) -> usize
    requires name { blank.name ≡ L.name }
    requires parts { blank.parts ≡ L.parts }
    requires some { 0 < blank.parts }
{
    planned(picture, effort, &mut Steps::<L>::new(blank))
}

impl Work for Planning {
    fn round(&mut self, _: Global) -> Result<usize, Trouble> {
        Ok(planned_in::<Brand>(&self.picture, self.effort, Blank::new(1)))
    }
}

// Compares a picture with its twin.
#[derive(Drop)]
struct Comparing {
    picture: Picture,
    twin: Picture,
}

fn compared<L: Ledger>(picture: &Picture, twin: &Picture, blank: Blank) -> usize
    requires name { blank.name ≡ L.name }
    requires parts { blank.parts ≡ L.parts }
    requires some { 0 < blank.parts }
{
    let size = picture.size();
    if twin.size() != size {
        return 0;
    }
    let whole = Rect {
        x: 0,
        y: 0,
        w: size.w(),
        h: size.h(),
    };
    usize::from(picture.block_equal(twin, whole, &mut Steps::<L>::new(blank)))
}

impl Work for Comparing {
    fn round(&mut self, _: Global) -> Result<usize, Trouble> {
        Ok(compared::<Brand>(&self.picture, &self.twin, Blank::new(1)))
    }
}

// Codes the levels of the picture's first blocks by planar prediction, each block often.
#[derive(Drop)]
struct Residuals {
    picture: Arc<Picture, Global>,
    log2: u32,
    blocks: u32,
}

fn code_often(coder: &mut ByteCoder, block: &Block) -> Result<(), Trouble>
    requires levels { AreLevels block.now.levels }
    requires some { IsTrue (cbf block.now.levels) }
    requires not_ended { IsOpen (phase_of coder.old) }
    ensures not_ended { IsOpen (phase_of coder.new) }
{
    for _ in 0..TIMES {
        write_residual(coder, block, 0, 0)?;
    }
    Ok(())
}

impl Work for Residuals {
    fn round(&mut self, alloc: Global) -> Result<usize, Trouble> {
        let mut coder = ByteCoder::new(alloc, Contexts::start(SliceKind::I));
        let mut source = PictureLevels::new(self.picture.clone()?);
        let log2 = self.log2.clamp(3, 5);
        let mut block = Block::zero(log2);
        for number in 0..self.blocks.min(32) {
            let leaf = Leaf {
                block: CodingBlock {
                    x: number << log2,
                    y: 0,
                    log2,
                },
                kind: Kind::Intra(0),
            };
            source.levels(leaf, 0, &mut block);
            if !residual_code::cbf(&block) {
                return Err(Trouble::Refused);
            }
            code_often(&mut coder, &block)?;
        }
        coder.bin(END)?;
        Ok(coder.finish()?.len())
    }
}

fn blank(alloc: Global) -> Result<Picture, Trouble> {
    let size = Size::new(W, H).ok_or(Trouble::Refused)?;
    Ok(Picture::black(alloc, size)?)
}

// A pixel of these samples.
fn colour(samples: &[u8]) -> Rgb
    requires { 2 < length samples.now }
{
    Rgb {
        r: samples[0],
        g: samples[1],
        b: samples[2],
    }
}

// The pixels of these samples.
fn pixels_of(alloc: Global, samples: &[u8]) -> Result<Vec<Rgb>, Trouble> {
    let mut pixels = Vec::with_capacity(alloc, samples.len() / 3)?;
    for sample in samples.chunks_exact(3) {
        pixels.push(colour(sample))?;
    }
    Ok(pixels)
}

// Squares of 64 by 64 without a pattern.
fn noise_picture(alloc: Global) -> Result<Picture, Trouble> {
    let mut picture = blank(alloc)?;
    let bytes = noise(alloc, 510 * 3 * 4096)?;
    for (number, samples) in bytes.chunks_exact(3 * 4096).enumerate() {
        let pixels = pixels_of(alloc, samples)?;
        if pixels.len() == 4096 {
            let rect = Rect {
                x: (number % 30) as u32 * 64,
                y: (number / 30 % 32) as u32 * 64,
                w: 64,
                h: 64,
            };
            picture.blit(rect, &pixels);
        }
    }
    Ok(picture)
}

fn fill(picture: &mut Picture, x: u32, y: u32, w: u32, h: u32, grey: u8) {
    let rect = Rect { x, y, w, h };
    let colour = Rgb {
        r: grey,
        g: grey,
        b: grey,
    };
    picture.fill(rect, colour);
}

// A letter of 8 by 16 pixels.
fn write_letter(picture: &mut Picture, strokes: &[u8], left: u32, top: u32) {
    for (place, stroke) in strokes.iter().enumerate() {
        if *stroke < 160 {
            let x = left.saturating_add((place % 4) as u32);
            let y = top.saturating_add((place % 13) as u32);
            fill(picture, x, y, 2, 1, *stroke);
        }
    }
}

// Lines of 60 letters, dark on light.
fn write_text(picture: &mut Picture, letters: &[u8], x: u32, y: u32) {
    for (number, strokes) in letters.chunks_exact(16).enumerate() {
        let left = x.saturating_add((number % 60) as u32 * 8);
        let top = y.saturating_add((number / 60 % 32) as u32 * 16);
        write_letter(picture, strokes, left, top);
    }
}

// A gradient, and four windows with text.
fn desktop_picture(alloc: Global) -> Result<Picture, Trouble> {
    let mut picture = blank(alloc)?;
    for strip in 0..240u32 {
        fill(&mut picture, strip * 8, 0, 8, H, strip as u8);
    }
    let letters = noise(alloc, 60 * 20 * 16)?;
    for window in 0..4u32 {
        let (x, y) = (100 + window % 2 * 900, 60 + window / 2 * 500);
        fill(&mut picture, x, y, 700, 440, 240);
        fill(&mut picture, x, y, 700, 24, 70);
        write_text(&mut picture, &letters, x + 20, y + 40);
    }
    Ok(picture)
}

fn measure_plans<R: Clock + Print>(rt: &R, alloc: Global, mode: Mode) -> Result<(), Trouble> {
    let mut planning = Planning {
        picture: desktop_picture(alloc)?,
        effort: 1,
    };
    measure(
        rt,
        alloc,
        mode,
        "plan of a desktop, EFFORT 1",
        SAMPLES,
        &mut planning,
    )?;
    planning.effort = 2;
    measure(
        rt,
        alloc,
        mode,
        "plan of a desktop, EFFORT 2",
        SAMPLES,
        &mut planning,
    )?;
    planning.picture = noise_picture(alloc)?;
    measure(
        rt,
        alloc,
        mode,
        "plan of noise, EFFORT 2",
        SAMPLES,
        &mut planning,
    )?;
    planning.effort = 1;
    measure(
        rt,
        alloc,
        mode,
        "plan of noise, EFFORT 1",
        SAMPLES,
        &mut planning,
    )
}

fn measure_levels<R: Clock + Print>(rt: &R, alloc: Global, mode: Mode) -> Result<(), Trouble> {
    let picture = Arc::new(alloc, noise_picture(alloc)?)?;
    let mut residuals = Residuals {
        picture,
        log2: 5,
        blocks: 16,
    };
    measure(
        rt,
        alloc,
        mode,
        "levels of noise",
        16 * 1024 * TIMES,
        &mut residuals,
    )?;
    let mut flat = blank(alloc)?;
    fill(&mut flat, 0, 0, W, H, 128);
    fill(&mut flat, 5, 6, 1, 1, 129);
    residuals.picture = Arc::new(alloc, flat)?;
    residuals.blocks = 1;
    measure(
        rt,
        alloc,
        mode,
        "one level in 32 by 32",
        TIMES,
        &mut residuals,
    )?;
    residuals.log2 = 3;
    measure(
        rt,
        alloc,
        mode,
        "one level in 8 by 8",
        TIMES,
        &mut residuals,
    )
}

/// Compares, plans and codes blocks. A speed counts a sample or a level as a byte; where a block has one level, it counts blocks.
pub fn run<R: Clock + Print>(rt: &R, alloc: Global, mode: Mode) -> Result<(), Trouble> {
    let picture = desktop_picture(alloc)?;
    let twin = picture.twin()?;
    let mut comparing = Comparing { picture, twin };
    measure(rt, alloc, mode, "block_equal", SAMPLES, &mut comparing)?;
    measure_plans(rt, alloc, mode)?;
    measure_levels(rt, alloc, mode)
}
