//! Digests of predicted blocks from an independent model of the recorder in Python: for each block one over all modes.
ghost use Rattle.std.specs.Prelude.{◌≡◌, ◌+◌, ◌*◌, ◌<◌, ◌≤◌, ◌%◌, ◌^◌, length, IfOk};
ghost use Rattle.h265_model.specs.Plain.{coded, side};

use super::predict;
use h265_model::CodingBlock;
use intra_refs::{filter, filtered, refs};
use px_plane::{Picture, Rect, Rgb, Size};
use std::alloc::Global;
use std::test::Fail;

// A picture of 72 by 56 whose samples change from place to place.
fn pattern(alloc: Global) -> Result<Picture, Fail>
    ensures { IfOk result (λ p. p.size ≡ record { w = 72; h = 56 }) }
{
    let size = Size::new(72, 56).ok_or("size")?;
    let mut picture = Picture::black(alloc, size)?;
    let mut pixels = [Rgb { r: 0, g: 0, b: 0 }; 72];
    for y in 0..56u32 {
        for x in 0..72u32 {
            pixels[x as usize] = Rgb {
                r: ((x * y * 11 + x + y * 13) % 256) as u8,
                g: ((x * x * 3 + y * 7 + x * y) % 256) as u8,
                b: ((x * 5 + y * y * 3 + 60) % 256) as u8,
            };
        }
        let row = Rect {
            x: 0,
            y,
            w: 72,
            h: 1,
        };
        picture.blit(row, &pixels);
    }
    Ok(picture)
}

fn extend(digest: u32, samples: &[u8]) -> u32 {
    let mut digest = digest;
    for sample in samples {
        digest = digest.wrapping_mul(31).wrapping_add(u32::from(*sample));
    }
    digest
}

// A digest of what all modes predict of a block, into a place of its size.
fn all_modes(picture: &Picture, component: u32, block: CodingBlock, out: &mut [u8]) -> u32
    requires component { component < 3 }
    requires low { 3 ≤ block.log2 }
    requires high { block.log2 ≤ 5 }
    requires whole_x { block.x % side block ≡ 0 }
    requires whole_y { block.y % side block ≡ 0 }
    requires across { block.x + side block ≤ coded picture.now.size.w }
    requires down { block.y + side block ≤ coded picture.now.size.h }
    requires out { length out.old ≡ side block * side block }
{
    let plain = refs(picture, component, block);
    let smoothed = filter(&plain);
    let mut digest = 1;
    for mode in 0..35u32 {
        if filtered(mode, block.log2) {
            predict(mode, component, &smoothed, out);
        } else {
            predict(mode, component, &plain, out);
        }
        digest = extend(digest, out);
    }
    digest
}

#[test]
fn blocks_of_8(rt: HostRuntime) -> Result<(), Fail> {
    let picture = pattern(rt.alloc())?;
    let mut out = [0u8; 64];
    for (component, x, y, digest) in [
        (0, 0, 0, 1660119041u32),
        (1, 0, 0, 1660119041),
        (2, 0, 0, 1660119041),
        (0, 4, 3, 2516992077),
        (1, 4, 3, 471561447),
        (2, 4, 3, 3841413975),
        (0, 8, 6, 1394342797),
        (1, 8, 6, 2268942560),
        (2, 8, 6, 2362490170),
    ] {
        assert!(rt; component < 3 && x < 9 && y < 7);
        let block = CodingBlock {
            x: 8 * x,
            y: 8 * y,
            log2: 3,
        };
        assert_eq!(rt;
            all_modes(&picture, component, block, &mut out),
            digest,
            "{component} {x} {y}"
        );
    }
    Ok(())
}

#[test]
fn blocks_of_16(rt: HostRuntime) -> Result<(), Fail> {
    let picture = pattern(rt.alloc())?;
    let mut out = [0u8; 256];
    for (component, x, y, digest) in [
        (0, 0, 0, 2303565825u32),
        (1, 0, 0, 2303565825),
        (2, 0, 0, 2303565825),
        (0, 2, 1, 2625991064),
        (1, 2, 1, 3029870578),
        (2, 2, 1, 3578722291),
        (0, 3, 2, 3780248436),
        (1, 3, 2, 3787006643),
        (2, 3, 2, 3534363659),
    ] {
        assert!(rt; component < 3 && x < 4 && y < 3);
        let block = CodingBlock {
            x: 16 * x,
            y: 16 * y,
            log2: 4,
        };
        assert_eq!(rt;
            all_modes(&picture, component, block, &mut out),
            digest,
            "{component} {x} {y}"
        );
    }
    Ok(())
}

#[test]
fn blocks_of_32(rt: HostRuntime) -> Result<(), Fail> {
    let picture = pattern(rt.alloc())?;
    let mut out = [0u8; 1024];
    for (component, x, y, digest) in [
        (0, 0, 0, 4248207361u32),
        (1, 0, 0, 4248207361),
        (2, 0, 0, 4248207361),
        (0, 1, 0, 1735435859),
        (1, 1, 0, 2821886186),
        (2, 1, 0, 1474210122),
    ] {
        assert!(rt; component < 3 && x < 2 && y < 1);
        let block = CodingBlock {
            x: 32 * x,
            y: 32 * y,
            log2: 5,
        };
        assert_eq!(rt;
            all_modes(&picture, component, block, &mut out),
            digest,
            "{component} {x} {y}"
        );
    }
    Ok(())
}
