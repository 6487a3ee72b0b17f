//! Rows of small pictures, from an independent model of the recorder in Python, and levels worked out by hand.
ghost use Rattle.std.specs.Prelude.{◌≡◌, ◌<◌, ◌≤◌, false, IfOk, IfSome};
ghost use Rattle.std.specs.Arc.{arc_value};
ghost use Rattle.h265_model.specs.declared.leaf.SliceKind.TheVariants.{P};
ghost use Rattle.h265_model.specs.Plain.{ctus};
ghost use Rattle.row_coder.specs.Rows.{AreAbove, AreTrees, leaves_of};

use crate::{CtuRow, Leaf, Leaves, NoMemory, PictureLevels, SliceKind};
use bin_items::{Block, Kind};
use block_choice::plan_ctu;
use coding_tree::LevelSource;
use h265_model::CodingBlock;
use px_plane::{Picture, Rect, Rgb, Size, Steps};
use row_core::{Contexts, RowJob};
use std::alloc::Global;
use std::marker::Brand;
use std::sync::Arc;
use std::sync::ledger::{Blank, Ledger};
use std::test::Fail;

// A colour of the picture: bands on the left, one colour on the right above, and else one that changes from place to place.
fn colour(x: u32, y: u32) -> Rgb
    requires x { x < 72 }
    requires y { y < 40 }
{
    if x < 20 {
        Rgb {
            r: (x / 5 * 20 + y / 3) as u8,
            g: (x / 5 * 20) as u8,
            b: (y / 3 * 9) as u8,
        }
    } else if y < 24 {
        Rgb { r: 9, g: 7, b: 8 }
    } else {
        Rgb {
            r: ((x * y * 11 + x + y * 13) % 256) as u8,
            g: ((x * x * 3 + y * 7 + x * y) % 256) as u8,
            b: ((x * 5 + y * y * 3 + 60) % 256) as u8,
        }
    }
}

fn pattern(alloc: Global) -> Result<Picture, Fail>
    ensures { IfOk result (λ p. p.size ≡ record { w = 72; h = 40 }) }
{
    let size = Size::new(72, 40).ok_or("size")?;
    let mut picture = Picture::black(alloc, size)?;
    let mut pixels = [Rgb { r: 0, g: 0, b: 0 }; 72];
    for y in 0..40u32 {
        for x in 0..72u32 {
            pixels[x as usize] = colour(x, y);
        }
        let row = Rect {
            x: 0,
            y,
            w: 72,
            h: 1,
        };
        picture.blit(row, &pixels);
    }
    Ok(picture)
}

fn digest(bytes: &[u8]) -> u32 {
    let mut digest: u32 = 1;
    for byte in bytes {
        digest = digest.wrapping_mul(31).wrapping_add(u32::from(*byte));
    }
    digest
}

// The coding units of a row by the choice rule. Without a picture before it has no copies.
fn plan_row<L: Ledger>(
    alloc: Global,
    kind: SliceKind,
    prev: Option<&Picture>,
    now: &Picture,
    effort: u32,
    row: u32,
    blank: Blank,
) -> Result<Vec<Leaves>, Fail>
    requires effort { effort ≤ 2 }
    requires row { row < ctus now.now.size.h }
    requires kind { IfSome prev (λ p. kind ≡ P) }
    requires sizes { IfSome prev (λ p. p.now.size ≡ now.now.size) }
    requires name { blank.name ≡ L.name }
    requires parts { blank.parts ≡ L.parts }
    requires some { 0 < blank.parts }
    ensures trees { IfOk result (λ plans. AreTrees kind now.now.size row (leaves_of plans.items)) }
    ensures above { IfOk result (λ plans. AreAbove now.now.size row (leaves_of plans.items)) }
{
    let across = (now.size().w() + 31) / 32;
    let mut steps = Steps::<L>::new(blank);
    let mut plans = Vec::new(alloc);
    for i in 0..across {
        plans.push(plan_ctu(prev, now, effort, row * across + i, true, &mut steps))?;
    }
    Ok(plans)
}

fn planned(
    alloc: Global,
    kind: SliceKind,
    prev: Option<&Picture>,
    now: &Picture,
    effort: u32,
    row: u32,
) -> Result<Vec<Leaves>, Fail>
    requires effort { effort ≤ 2 }
    requires row { row < ctus now.now.size.h }
    requires kind { IfSome prev (λ p. kind ≡ P) }
    requires sizes { IfSome prev (λ p. p.now.size ≡ now.now.size) }
    ensures trees { IfOk result (λ plans. AreTrees kind now.now.size row (leaves_of plans.items)) }
    ensures above { IfOk result (λ plans. AreAbove now.now.size row (leaves_of plans.items)) }
{
    plan_row::<Brand>(alloc, kind, prev, now, effort, row, Blank::new(1))
}

// Does all that a job is for, and hands on its contexts after the second unit, where it has two.
fn run_row<J: RowJob>(
    job: J,
    inherited: Option<Contexts>,
) -> Result<(Vec<u8>, Option<Contexts>), NoMemory>
    requires { J.begun job ≡ false }
{
    let mut job = job;
    let width = job.width();
    let mut handed = None;
    job.begin(inherited);
    for i in 0..width {
        job.code_next()?;
        if i == 1 {
            handed = Some(job.contexts());
        }
    }
    let bytes = job.finish()?;
    Ok((bytes, handed))
}

// The lengths and the digests of the bytes of both rows of the picture.
fn coded(
    alloc: Global,
    kind: SliceKind,
    prev: Option<&Picture>,
    now: &Arc<Picture, Global>,
    effort: u32,
) -> Result<[(usize, u32); 2], Fail>
    requires effort { effort ≤ 2 }
    requires size { (arc_value now.now).size ≡ record { w = 72; h = 40 } }
    requires kind { IfSome prev (λ p. kind ≡ P) }
    requires sizes { IfSome prev (λ p. p.now.size ≡ (arc_value now.now).size) }
{
    let upper = planned(alloc, kind, prev, now, effort, 0)?;
    let lower = planned(alloc, kind, prev, now, effort, 1)?;
    let second = CtuRow::new(alloc, Arc::try_clone(now)?, kind, 1, lower)?.with_above(&upper)?;
    let first = CtuRow::new(alloc, Arc::try_clone(now)?, kind, 0, upper)?;
    let (top, handed) = run_row(first, None)?;
    let (bottom, _) = run_row(second, handed)?;
    Ok([(top.len(), digest(&top)), (bottom.len(), digest(&bottom))])
}

#[test]
fn bytes_of_rows(rt: HostRuntime) -> Result<(), Fail> {
    let now = Arc::new(rt.alloc(), pattern(rt.alloc())?)?;
    let mut prev = pattern(rt.alloc())?;
    let narrow = Rect {
        x: 8,
        y: 4,
        w: 4,
        h: 26,
    };
    prev.fill(narrow, Rgb { r: 0, g: 0, b: 0 });
    let flat = Rect {
        x: 40,
        y: 20,
        w: 30,
        h: 3,
    };
    prev.fill(flat, Rgb { r: 1, g: 2, b: 3 });
    for (has_prev, effort, rows) in [
        (false, 0, [(6926, 1269513061), (1748, 1279659085)]),
        (false, 1, [(2334, 1929430818), (1470, 2242908748)]),
        (true, 0, [(1557, 2293270788), (2, 1297)]),
        (true, 1, [(392, 2680132332), (2, 1297)]),
    ] {
        assert!(rt; effort <= 1);
        let found = if has_prev {
            coded(rt.alloc(), SliceKind::P, Some(&prev), &now, effort)?
        } else {
            coded(rt.alloc(), SliceKind::I, None, &now, effort)?
        };
        assert_eq!(rt; found, rows, "effort {effort}, {has_prev}");
    }
    Ok(())
}

// The levels and the samples at the first and the last place of a unit.
fn corners(source: &mut PictureLevels, leaf: Leaf, component: u32) -> [i16; 4]
    requires component { component < 3 }
    requires side { leaf.block.log2 ≡ 3 }
{
    let mut levels = Block::zero(3);
    let mut samples = Block::zero(3);
    source.levels(leaf, component, &mut levels);
    source.samples(leaf, component, &mut samples);
    [
        levels.get(0, 0),
        levels.get(7, 7),
        samples.get(0, 0),
        samples.get(7, 7),
    ]
}

#[test]
fn levels_of_units(rt: HostRuntime) -> Result<(), Fail> {
    let mut source = PictureLevels::new(Arc::new(rt.alloc(), pattern(rt.alloc())?)?);
    for (x, y, kind, component, expected) in [
        // nothing is coded before the first unit, so its prediction is 128
        (0, 0, Kind::Intra(1), 0, [-128, -108, 0, 20]),
        (0, 0, Kind::Intra(1), 1, [-128, -110, 0, 18]),
        (0, 0, Kind::Intra(1), 2, [-128, -106, 0, 22]),
        (0, 0, Kind::Pcm, 2, [0, 0, 0, 22]),
        // no mode, a place that isn't a multiple of the side, and one beyond the picture
        (0, 0, Kind::Intra(35), 0, [0, 0, 0, 20]),
        (4, 0, Kind::Intra(1), 0, [0; 4]),
        (72, 0, Kind::Intra(1), 0, [0; 4]),
        (0, 40, Kind::Pcm, 0, [0; 4]),
    ] {
        let leaf = Leaf {
            block: CodingBlock { x, y, log2: 3 },
            kind,
        };
        assert!(rt; component < 3);
        assert_eq!(rt; corners(&mut source, leaf, component), expected, "{x} {y}");
    }
    Ok(())
}
