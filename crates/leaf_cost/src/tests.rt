//! The cheapest modes of blocks, from an independent model of the recorder in Python, and costs worked out by hand.
ghost use Rattle.std.specs.Prelude.{◌≡◌, IfOk};

use super::{Best, best_mode, run_cost};
use h265_model::{CodingBlock, Kind};
use px_plane::{Picture, Rect, Rgb, Size};
use std::alloc::Global;
use std::test::Fail;

const FEW: [u32; 4] = [1, 26, 10, 0];

const MANY: [u32; 7] = [1, 26, 10, 0, 9, 11, 12];

// A picture of 72 by 56 with bands on the left, and else samples that change from place to place.
fn pattern(alloc: Global) -> Result<Picture, Fail>
    ensures { IfOk result (λ p. p.size ≡ record { w = 72; h = 56 }) }
{
    let size = Size::new(72, 56).ok_or("size")?;
    let mut picture = Picture::black(alloc, size)?;
    let mut pixels = [Rgb { r: 0, g: 0, b: 0 }; 72];
    for y in 0..56u32 {
        for x in 0..72u32 {
            pixels[x as usize] = if x < 40 && y < 24 {
                Rgb {
                    r: (x / 5 * 20 + y / 3) as u8,
                    g: (x / 5 * 20) as u8,
                    b: (y / 3 * 9) as u8,
                }
            } else {
                Rgb {
                    r: ((x * y * 11 + x + y * 13) % 256) as u8,
                    g: ((x * x * 3 + y * 7 + x * y) % 256) as u8,
                    b: ((x * 5 + y * y * 3 + 60) % 256) as u8,
                }
            };
        }
        let row = Rect {
            x: 0,
            y,
            w: 72,
            h: 1,
        };
        picture.blit(row, &pixels);
    }
    Ok(picture)
}

fn intra(cost: u32, mode: u32) -> Option<Best> {
    Some(Best {
        cost,
        kind: Kind::Intra(mode),
    })
}

#[test]
fn costs_of_differences(rt: HostRuntime) -> Result<(), Fail> {
    for (size, cost) in [
        (0, 0),
        (1, 3),
        (2, 5),
        (3, 5),
        (4, 7),
        (127, 15),
        (128, 17),
        (255, 17),
    ] {
        assert_eq!(rt; run_cost(&[size, 9], &[0, 9]), cost, "{size}");
        assert_eq!(rt; run_cost(&[0, 9], &[size, 9]), cost, "{size}");
    }
    Ok(())
}

#[test]
fn blocks_of_8(rt: HostRuntime) -> Result<(), Fail> {
    let picture = pattern(rt.alloc())?;
    for (x, y, cost, mode) in [
        (0, 0, 3046, 1),
        (1, 0, 1096, 10),
        (2, 1, 704, 10),
        (4, 2, 680, 26),
    ] {
        assert!(rt; x < 9 && y < 7);
        let block = CodingBlock {
            x: 8 * x,
            y: 8 * y,
            log2: 3,
        };
        assert_eq!(rt;
            best_mode(&picture, block, &FEW, 100000),
            intra(cost, mode),
            "{x} {y}"
        );
        assert_eq!(rt;
            best_mode(&picture, block, &FEW, cost + 1),
            intra(cost, mode),
            "{x} {y}"
        );
        assert_eq!(rt; best_mode(&picture, block, &FEW, cost), None, "{x} {y}");
    }
    Ok(())
}

#[test]
fn blocks_of_16_and_32(rt: HostRuntime) -> Result<(), Fail> {
    let picture = pattern(rt.alloc())?;
    for (x, y, cost, mode) in [(0, 0, 11812, 1), (1, 0, 4680, 10), (2, 1, 8362, 26)] {
        assert!(rt; x < 4 && y < 3);
        let block = CodingBlock {
            x: 16 * x,
            y: 16 * y,
            log2: 4,
        };
        assert_eq!(rt;
            best_mode(&picture, block, &FEW, 100000),
            intra(cost, mode),
            "{x} {y}"
        );
    }
    let block = CodingBlock {
        x: 32,
        y: 16,
        log2: 4,
    };
    assert_eq!(rt; best_mode(&picture, block, &MANY, 100000), intra(8273, 11));
    for (x, cost, mode) in [(0, 42834, 1), (1, 36815, 10)] {
        assert!(rt; x < 2);
        let block = CodingBlock {
            x: 32 * x,
            y: 0,
            log2: 5,
        };
        assert_eq!(rt;
            best_mode(&picture, block, &FEW, 100000),
            intra(cost, mode),
            "{x}"
        );
    }
    Ok(())
}
