//! Pictures drawn from units, whose samples an independent model of the recorder in Python gave.
ghost use Rattle.std.specs.Prelude.{◌≡◌, ◌+◌, ◌*◌, ◌%◌, ◌^◌, ◌≤◌, ◌<◌, IfOk, length};
ghost use Rattle.std.specs.Option.{option_copied};
ghost use Rattle.leaf_sink.specs.Units.{IsLong};

use super::{Canvas, LeafSink, Residuals, Vector};
use crate::side::{area, side};
use h265_model::CodingBlock;
use leaf_sink::has_source;
use px_plane::{Picture, Size};
use std::alloc::Global;
use std::test::Fail;

// A canvas of 40 by 24.
fn empty(alloc: Global) -> Result<Canvas, Fail>
    ensures { IfOk result (λ c. c.last.size ≡ record { w = 40; h = 24 }) }
{
    let size = Size::new(40, 24).ok_or("size")?;
    Ok(Canvas::new(alloc, size)?)
}

// Some samples.
fn pattern(seed: usize) -> [u8; 3072]
    requires { seed ≤ 1000 }
{
    let mut samples = [0u8; 3072];
    for i in 0..3072usize {
        samples[i] = (((i + seed) * 7 + (i + seed) / 5) % 256) as u8;
    }
    samples
}

// Some levels.
fn pattern_of_levels(seed: usize) -> [i16; 1024]
    requires { seed ≤ 1000 }
{
    let mut levels = [0i16; 1024];
    for i in 0..1024usize {
        levels[i] = ((i * 13 + seed * 29 + i / 7) % 511) as i16 - 255;
    }
    levels
}

// A sum over a plane, in which each sample has its weight.
fn digest(plane: &[u8]) -> u32 {
    let mut sum: u32 = 1;
    for sample in plane {
        sum = sum.wrapping_mul(31).wrapping_add(u32::from(*sample));
    }
    sum
}

fn digests(picture: &Picture) -> [u32; 3] {
    [
        digest(picture.plane(0)),
        digest(picture.plane(1)),
        digest(picture.plane(2)),
    ]
}

// What is drawn of a unit: its samples by their seed, or its mode and the levels of its components by their seeds, of which 0 means none.
#[derive(Clone, Copy)]
enum Content {
    Samples(usize),
    Levels(u32, [usize; 3]),
    Copied(i32, i32),
    Moved(i32, i32),
}

#[derive(Clone, Copy)]
struct Unit {
    block: CodingBlock,
    content: Content,
}

fn draw_samples(canvas: &mut Canvas, block: CodingBlock, seed: usize)
    requires size { canvas.old.last.size ≡ record { w = 40; h = 24 } }
    requires low { 3 ≤ block.log2 }
    requires high { block.log2 ≤ 5 }
    requires column { block.x % 2 ^ block.log2 ≡ 0 }
    requires row { block.y % 2 ^ block.log2 ≡ 0 }
    requires across { block.x + 2 ^ block.log2 ≤ 40 }
    requires down { block.y + 2 ^ block.log2 ≤ 24 }
    ensures { canvas.new.last.size ≡ record { w = 40; h = 24 } }
{
    let samples = pattern(seed % 1000);
    canvas.samples(block, &samples[..3 * area(block.log2)]);
}

fn levels_if(some: bool, log2: u32, levels: &[i16]) -> Option<&[i16]>
    requires { length levels.now ≡ 2 ^ log2 * 2 ^ log2 }
    ensures { IsLong log2 (option_copied result) }
{
    if some { Some(levels) } else { None }
}

fn draw_levels(canvas: &mut Canvas, block: CodingBlock, mode: u32, seeds: [usize; 3])
    requires size { canvas.old.last.size ≡ record { w = 40; h = 24 } }
    requires low { 3 ≤ block.log2 }
    requires high { block.log2 ≤ 5 }
    requires column { block.x % 2 ^ block.log2 ≡ 0 }
    requires row { block.y % 2 ^ block.log2 ≡ 0 }
    requires across { block.x + 2 ^ block.log2 ≤ 40 }
    requires down { block.y + 2 ^ block.log2 ≤ 24 }
    requires mode { mode < 35 }
    ensures { canvas.new.last.size ≡ record { w = 40; h = 24 } }
{
    let n = area(block.log2);
    let luma = pattern_of_levels(seeds[0] % 1000);
    let cb = pattern_of_levels(seeds[1] % 1000);
    let cr = pattern_of_levels(seeds[2] % 1000);
    let residuals = Residuals {
        luma: levels_if(seeds[0] > 0, block.log2, &luma[..n]),
        cb: levels_if(seeds[1] > 0, block.log2, &cb[..n]),
        cr: levels_if(seeds[2] > 0, block.log2, &cr[..n]),
    };
    canvas.levels(block, mode, residuals);
}

// Draws a unit, or gives false where it doesn't lie in the picture.
fn draw(canvas: &mut Canvas, unit: Unit) -> bool
    requires { canvas.old.last.size ≡ record { w = 40; h = 24 } }
    ensures { canvas.new.last.size ≡ record { w = 40; h = 24 } }
{
    let Unit { block, content } = unit;
    let CodingBlock { x, y, log2 } = block;
    if log2 < 3 || log2 > 5 || x > 40 || y > 24 {
        return false;
    }
    let n = side(log2);
    if x % n != 0 || y % n != 0 || x + n > 40 || y + n > 24 {
        return false;
    }
    match content {
        Content::Samples(seed) => draw_samples(canvas, block, seed),
        Content::Levels(mode, seeds) => {
            if mode >= 35 {
                return false;
            }
            draw_levels(canvas, block, mode, seeds);
        }
        Content::Copied(across, down) => {
            let vector = Vector { x: across, y: down };
            if !has_source(canvas.last().size(), block, vector) {
                return false;
            }
            canvas.copied(block, vector);
        }
        Content::Moved(across, down) => {
            let vector = Vector { x: across, y: down };
            if !has_source(canvas.last().size(), block, vector) {
                return false;
            }
            canvas.moved(block, vector);
        }
    }
    true
}

fn placed(x: u32, y: u32, log2: u32, content: Content) -> Unit {
    Unit {
        block: CodingBlock { x, y, log2 },
        content,
    }
}

// Draws a picture, or gives false.
fn draw_all(canvas: &mut Canvas, units: &[Unit]) -> bool
    requires { canvas.old.last.size ≡ record { w = 40; h = 24 } }
    ensures { canvas.new.last.size ≡ record { w = 40; h = 24 } }
{
    canvas.begin();
    for unit in units {
        if !draw(canvas, *unit) {
            return false;
        }
    }
    true
}

#[test]
fn two_pictures(rt: HostRuntime) -> Result<(), Fail> {
    let mut canvas = empty(rt.alloc())?;
    let first = [
        placed(0, 0, 4, Content::Samples(3)),
        placed(16, 0, 4, Content::Levels(1, [1, 0, 2])),
        placed(0, 16, 3, Content::Levels(26, [3, 4, 0])),
        placed(8, 16, 3, Content::Levels(10, [0, 0, 0])),
        placed(16, 16, 3, Content::Levels(34, [5, 6, 7])),
        placed(24, 16, 3, Content::Levels(2, [0, 8, 9])),
        placed(32, 0, 3, Content::Levels(0, [0, 0, 10])),
        placed(32, 8, 3, Content::Levels(18, [11, 0, 0])),
        placed(32, 16, 3, Content::Samples(100)),
    ];
    assert!(rt; draw_all(&mut canvas, &first));
    assert_eq!(rt;
        digests(canvas.drawn()),
        [2131422963, 194333006, 1103548303]
    );
    let black = digests(canvas.last());
    canvas.keep();
    assert_eq!(rt; digests(canvas.last()), [2131422963, 194333006, 1103548303]);
    assert_eq!(rt; digests(canvas.drawn()), black);
    let second = [
        placed(0, 0, 4, Content::Copied(0, 0)),
        placed(16, 0, 4, Content::Moved(-16, 8)),
        placed(0, 16, 3, Content::Copied(8, -8)),
        placed(8, 16, 3, Content::Moved(24, -16)),
        placed(16, 16, 3, Content::Samples(9)),
        placed(24, 16, 3, Content::Levels(6, [1, 2, 3])),
        placed(32, 0, 3, Content::Copied(0, 0)),
        placed(32, 8, 3, Content::Moved(-3, 5)),
        placed(32, 16, 3, Content::Copied(0, -16)),
    ];
    assert!(rt; draw_all(&mut canvas, &second));
    assert_eq!(rt; digests(canvas.last()), [2131422963, 194333006, 1103548303]);
    canvas.keep();
    assert_eq!(rt; digests(canvas.last()), [1023653442, 544381936, 1970628460]);
    Ok(())
}
