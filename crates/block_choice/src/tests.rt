//! The coding units of small pictures, from an independent model of the recorder in Python.
ghost use Rattle.std.specs.Prelude.{◌≡◌, ◌<◌, ◌≤◌, IfOk, IfSome};
ghost use Rattle.h265_model.specs.Tiles.{tile_count};

use super::{Leaves, plan_ctu};
use h265_model::{Kind, Leaf};
use px_plane::{Picture, Rect, Rgb, Size, Steps};
use std::alloc::Global;
use std::marker::Brand;
use std::sync::ledger::{Blank, Ledger};
use std::test::Fail;

// A colour of the picture: bands on the left, one colour on the right above, and else one that changes from place to place.
fn colour(x: u32, y: u32) -> Rgb
    requires x { x < 40 }
    requires y { y < 40 }
{
    if x < 20 {
        Rgb {
            r: (x / 5 * 20 + y / 3) as u8,
            g: (x / 5 * 20) as u8,
            b: (y / 3 * 9) as u8,
        }
    } else if y < 24 {
        Rgb { r: 9, g: 7, b: 8 }
    } else {
        Rgb {
            r: ((x * y * 11 + x + y * 13) % 256) as u8,
            g: ((x * x * 3 + y * 7 + x * y) % 256) as u8,
            b: ((x * 5 + y * y * 3 + 60) % 256) as u8,
        }
    }
}

fn pattern(alloc: Global) -> Result<Picture, Fail>
    ensures { IfOk result (λ p. p.size ≡ record { w = 40; h = 40 }) }
{
    let size = Size::new(40, 40).ok_or("size")?;
    let mut picture = Picture::black(alloc, size)?;
    let mut pixels = [Rgb { r: 0, g: 0, b: 0 }; 40];
    for y in 0..40u32 {
        for x in 0..40u32 {
            pixels[x as usize] = colour(x, y);
        }
        let row = Rect {
            x: 0,
            y,
            w: 40,
            h: 1,
        };
        picture.blit(row, &pixels);
    }
    Ok(picture)
}

// A digest of coding units, after an earlier one's.
fn digest_after(before: u32, leaves: &[Leaf]) -> u32 {
    let mut digest = before;
    for leaf in leaves {
        let kind = match leaf.kind {
            Kind::Skip => 100,
            Kind::Pcm => 101,
            Kind::Intra(mode) => mode,
        };
        for value in [leaf.block.x, leaf.block.y, leaf.block.log2, kind] {
            digest = digest.wrapping_mul(31).wrapping_add(value);
        }
    }
    digest
}

fn plan<L: Ledger>(
    prev: Option<&Picture>,
    now: &Picture,
    effort: u32,
    ctu: u32,
    blank: Blank,
) -> Leaves
    requires effort { effort ≤ 2 }
    requires ctu { ctu < tile_count now.now.size }
    requires sizes { IfSome prev (λ p. p.now.size ≡ now.now.size) }
    requires name { blank.name ≡ L.name }
    requires parts { blank.parts ≡ L.parts }
    requires some { 0 < blank.parts }
{
    let mut steps = Steps::<L>::new(blank);
    plan_ctu(prev, now, effort, ctu, true, &mut steps)
}

// The coding units of a unit that may have changed.
fn planned(prev: Option<&Picture>, now: &Picture, effort: u32, ctu: u32) -> Leaves
    requires effort { effort ≤ 2 }
    requires ctu { ctu < tile_count now.now.size }
    requires sizes { IfSome prev (λ p. p.now.size ≡ now.now.size) }
{
    plan::<Brand>(prev, now, effort, ctu, Blank::new(1))
}

#[test]
fn coding_units(rt: HostRuntime) -> Result<(), Fail> {
    let now = pattern(rt.alloc())?;
    let mut prev = pattern(rt.alloc())?;
    let changed = Rect {
        x: 8,
        y: 4,
        w: 4,
        h: 26,
    };
    prev.fill(changed, Rgb { r: 0, g: 0, b: 0 });
    for (effort, has_prev, ctu, count, expected) in [
        (0, false, 0, 1, 923777u32),
        (0, false, 1, 4, 2427252409),
        (0, false, 2, 4, 2801081689),
        (0, false, 3, 1, 1907779),
        (0, true, 0, 10, 2120020477),
        (0, true, 1, 4, 232219061),
        (0, true, 2, 4, 606048341),
        (0, true, 3, 1, 1907778),
        (1, false, 0, 16, 2237756172),
        (1, false, 1, 4, 1967249805),
        (1, false, 2, 4, 1367561576),
        (1, false, 3, 1, 1907779),
        (1, true, 0, 10, 604160961),
        (1, true, 1, 4, 232219061),
        (1, true, 2, 4, 606048341),
        (1, true, 3, 1, 1907778),
        (2, false, 0, 16, 2237756172),
        (2, false, 1, 4, 1967249805),
        (2, false, 2, 4, 1367561576),
        (2, false, 3, 1, 1907779),
        (2, true, 0, 10, 604160961),
        (2, true, 1, 4, 232219061),
        (2, true, 2, 4, 606048341),
        (2, true, 3, 1, 1907778),
    ] {
        assert!(rt; effort <= 2 && ctu < 4);
        let before = if has_prev { Some(&prev) } else { None };
        let leaves = planned(before, &now, effort, ctu);
        assert_eq!(rt;
            (leaves.len(), digest_after(1, leaves.as_slice())),
            (count, expected),
            "effort {effort}, {has_prev}, unit {ctu}"
        );
    }
    Ok(())
}

// Numbers below 2^32, made by a linear congruence.
#[derive(Drop)]
struct Numbers {
    state: u64,
}

impl Numbers {
    fn new(seed: u32) -> Numbers {
        Numbers {
            state: u64::from(seed).wrapping_mul(0x9E37_79B9_7F4A_7C15),
        }
    }

    fn next(&mut self) -> u32 {
        self.state = self
            .state
            .wrapping_mul(6_364_136_223_846_793_005)
            .wrapping_add(1_442_695_040_888_963_407);
        (self.state >> 32) as u32
    }
}

// Noise, with two values of each colour or more.
fn noise(seed: u32, number: u32) -> Rgb {
    let values = [2, 4, 16, 256][(seed / 3 % 4) as usize];
    Rgb {
        r: (number % values) as u8,
        g: ((number >> 8) % values) as u8,
        b: ((number >> 16) % values) as u8,
    }
}

// A slope of colours, which is disturbed at a place of sixteen.
fn gradient(seed: u32, x: u32, y: u32, number: u32) -> Rgb
    requires x { x < 40 }
    requires y { y < 40 }
{
    let value = x * (seed % 5) + y * (seed / 5 % 4);
    let more = if number % 16 == 0 {
        (number >> 8) % 4
    } else {
        0
    };
    Rgb {
        r: ((value + more) % 256) as u8,
        g: (value / 2) as u8,
        b: ((x + y) * (seed % 3) + more) as u8,
    }
}

// Signs of 5x7 on a light ground, beside a window of one colour.
fn text(seed: u32, x: u32, y: u32) -> Rgb
    requires seed { seed < 50 }
    requires x { x < 40 }
    requires y { y < 40 }
{
    let sign = (x / 6 * 7 + y / 8 * 13 + seed).wrapping_mul(2_654_435_761);
    if x >= 28 {
        Rgb {
            r: (seed * 5) as u8,
            g: 80,
            b: 90,
        }
    } else if x % 6 < 5 && y % 8 < 7 && sign >> (y % 8 * 4 + x % 4) & 1 == 1 {
        Rgb {
            r: 16,
            g: 16,
            b: 40,
        }
    } else {
        Rgb {
            r: 240,
            g: 240,
            b: 232,
        }
    }
}

fn made_up_row(seed: u32, y: u32, numbers: &mut Numbers) -> [Rgb; 40]
    requires seed { seed < 50 }
    requires y { y < 40 }
{
    let mut pixels = [Rgb { r: 0, g: 0, b: 0 }; 40];
    for x in 0..40u32 {
        let number = numbers.next();
        pixels[x as usize] = match seed % 3 {
            0 => noise(seed, number),
            1 => gradient(seed, x, y, number),
            _ => text(seed, x, y),
        };
    }
    pixels
}

// A picture of noise, of a slope or of text, by its number.
fn made_up(alloc: Global, seed: u32) -> Result<Picture, Fail>
    requires seed { seed < 50 }
    ensures { IfOk result (λ p. p.size ≡ record { w = 40; h = 40 }) }
{
    let size = Size::new(40, 40).ok_or("size")?;
    let mut picture = Picture::black(alloc, size)?;
    let mut numbers = Numbers::new(seed);
    for y in 0..40u32 {
        let row = Rect {
            x: 0,
            y,
            w: 40,
            h: 1,
        };
        picture.blit(row, &made_up_row(seed, y, &mut numbers));
    }
    Ok(picture)
}

// The picture before a made-up one: another in a rectangle.
fn made_up_before(now: &Picture, seed: u32) -> Result<Picture, Fail>
    requires seed { seed < 50 }
    ensures { IfOk result (λ p. p.size ≡ now.now.size) }
{
    let mut before = now.twin()?;
    let changed = Rect {
        x: seed % 24,
        y: seed * 7 % 24,
        w: 1 + seed % 13,
        h: 1 + seed * 3 % 11,
    };
    let colour = Rgb {
        r: (seed * 5) as u8,
        g: 0,
        b: 200,
    };
    before.fill(changed, colour);
    Ok(before)
}

// The number of coding units of the made-up pictures of one kind, and their digest.
fn made_up_plans(
    alloc: Global,
    kind: u32,
    effort: u32,
    has_prev: bool,
) -> Result<(usize, u32), Fail>
    requires effort { effort ≤ 2 }
{
    let mut count: usize = 0;
    let mut digest = 1;
    for number in 0..200u32 {
        let (seed, ctu) = (number / 4, number % 4);
        if seed % 3 != kind {
            continue;
        }
        let now = made_up(alloc, seed)?;
        let before = made_up_before(&now, seed)?;
        let prev = if has_prev { Some(&before) } else { None };
        let leaves = planned(prev, &now, effort, ctu);
        count = count.wrapping_add(leaves.len());
        digest = digest_after(digest, leaves.as_slice());
    }
    Ok((count, digest))
}

// 50 pictures, of which a third is noise, a third slopes and a third text; the table is made by checks/plan_digests.
#[test]
fn made_up_pictures(rt: HostRuntime) -> Result<(), Fail> {
    for (kind, effort, has_prev, count, expected) in [
        (0, 0, false, 170, 36161011u32),
        (0, 0, true, 299, 495391943),
        (0, 1, false, 314, 1115787693),
        (0, 1, true, 302, 920323483),
        (0, 2, false, 356, 3606901645),
        (0, 2, true, 302, 427587448),
        (1, 0, false, 170, 36161011),
        (1, 0, true, 281, 3300386049),
        (1, 1, false, 425, 383193171),
        (1, 1, true, 290, 4271862001),
        (1, 2, false, 419, 644445950),
        (1, 2, true, 290, 2269494963),
        (2, 0, false, 160, 3553189153),
        (2, 0, true, 271, 2181616888),
        (2, 1, false, 331, 3225822262),
        (2, 1, true, 274, 1614850941),
        (2, 2, false, 367, 2989929293),
        (2, 2, true, 277, 3270532353),
    ] {
        assert!(rt; effort <= 2);
        assert_eq!(rt;
            made_up_plans(rt.alloc(), kind, effort, has_prev)?,
            (count, expected),
            "kind {kind}, effort {effort}, {has_prev}"
        );
    }
    Ok(())
}

fn plan_untouched<L: Ledger>(now: &Picture, ctu: u32, blank: Blank) -> Leaves
    requires ctu { ctu < tile_count now.now.size }
    requires name { blank.name ≡ L.name }
    requires parts { blank.parts ≡ L.parts }
    requires some { 0 < blank.parts }
{
    let mut steps = Steps::<L>::new(blank);
    plan_ctu(Some(now), now, 1, ctu, false, &mut steps)
}

// The coding units of a unit that is known to be the same as in the picture before.
fn untouched(now: &Picture, ctu: u32) -> Leaves
    requires ctu { ctu < tile_count now.now.size }
{
    plan_untouched::<Brand>(now, ctu, Blank::new(1))
}

// A unit that is known to be the same is copied, as a whole where it is whole.
#[test]
fn untouched_units(rt: HostRuntime) -> Result<(), Fail> {
    let now = pattern(rt.alloc())?;
    for (ctu, count, expected) in [
        (0, 1, 923776u32),
        (1, 4, 232219061),
        (2, 4, 606048341),
        (3, 1, 1907778),
    ] {
        assert!(rt; ctu < 4);
        let leaves = untouched(&now, ctu);
        assert_eq!(rt;
            (leaves.len(), digest_after(1, leaves.as_slice())),
            (count, expected),
            "unit {ctu}"
        );
    }
    Ok(())
}
