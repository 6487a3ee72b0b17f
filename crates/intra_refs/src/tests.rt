//! Digests of reference samples from an independent model of the recorder in Python.
ghost use Rattle.std.specs.Prelude.{◌≡◌, IfOk};

use super::{filter, filtered, refs};
use h265_model::CodingBlock;
use px_plane::{Picture, Rect, Rgb, Size};
use std::alloc::Global;
use std::test::Fail;

// A picture of 72 by 56 whose samples change from place to place.
fn pattern(alloc: Global) -> Result<Picture, Fail>
    ensures { IfOk result (λ p. p.size ≡ record { w = 72; h = 56 }) }
{
    let size = Size::new(72, 56).ok_or("size")?;
    let mut picture = Picture::black(alloc, size)?;
    let mut pixels = [Rgb { r: 0, g: 0, b: 0 }; 72];
    for y in 0..56u32 {
        for x in 0..72u32 {
            pixels[x as usize] = Rgb {
                r: ((x * y * 11 + x + y * 13) % 256) as u8,
                g: ((x * x * 3 + y * 7 + x * y) % 256) as u8,
                b: ((x * 5 + y * y * 3 + 60) % 256) as u8,
            };
        }
        let row = Rect {
            x: 0,
            y,
            w: 72,
            h: 1,
        };
        picture.blit(row, &pixels);
    }
    Ok(picture)
}

fn digest(samples: &[u8]) -> u32 {
    let mut digest: u32 = 1;
    for sample in samples {
        digest = digest.wrapping_mul(31).wrapping_add(u32::from(*sample));
    }
    digest
}

#[test]
fn blocks_of_8(rt: HostRuntime) -> Result<(), Fail> {
    let picture = pattern(rt.alloc())?;
    for (component, x, y, plain, smoothed) in [
        (0, 0, 0, 1964950687u32, 1964950687u32),
        (1, 1, 0, 2601219282, 1391883687),
        (2, 0, 1, 488992490, 4242826326),
        (0, 3, 3, 1498174956, 3809818465),
        (1, 8, 6, 2977660129, 3378224725),
        (2, 4, 2, 184045372, 5399230),
        (0, 5, 1, 2998662556, 4044740369),
        (1, 7, 0, 336303298, 3421934999),
    ] {
        assert!(rt; component < 3 && x < 9 && y < 7);
        let block = CodingBlock {
            x: 8 * x,
            y: 8 * y,
            log2: 3,
        };
        let line = refs(&picture, component, block);
        assert_eq!(rt;
            (line.log2(), digest(line.samples())),
            (3, plain),
            "{component} {x} {y}"
        );
        assert_eq!(rt;
            digest(filter(&line).samples()),
            smoothed,
            "{component} {x} {y}"
        );
    }
    let block = CodingBlock {
        x: 24,
        y: 24,
        log2: 3,
    };
    let line = refs(&picture, 0, block);
    for (index, sample) in [
        (0, 213),
        (8, 213),
        (9, 183),
        (15, 3),
        (16, 229),
        (17, 137),
        (32, 173),
    ] {
        assert!(rt; index <= 32);
        assert_eq!(rt; line.get(index), sample, "{index}");
    }
    Ok(())
}

#[test]
fn blocks_of_16_and_32(rt: HostRuntime) -> Result<(), Fail> {
    let picture = pattern(rt.alloc())?;
    for (component, x, y, plain, smoothed) in [
        (0, 0, 0, 506300575u32, 506300575u32),
        (1, 1, 1, 3774334425, 852737985),
        (2, 3, 2, 1051054868, 3450671253),
        (0, 2, 0, 421395650, 1235912184),
        (1, 0, 2, 544640238, 3696108621),
        (2, 1, 2, 2687504044, 2822319810),
    ] {
        assert!(rt; component < 3 && x < 4 && y < 3);
        let block = CodingBlock {
            x: 16 * x,
            y: 16 * y,
            log2: 4,
        };
        let line = refs(&picture, component, block);
        assert_eq!(rt;
            (line.log2(), digest(line.samples())),
            (4, plain),
            "{component} {x} {y}"
        );
        assert_eq!(rt;
            digest(filter(&line).samples()),
            smoothed,
            "{component} {x} {y}"
        );
    }
    for (component, x, plain, smoothed) in [
        (0, 0, 203100319u32, 203100319u32),
        (1, 1, 2098943942, 3350735991),
        (2, 1, 2360368222, 1375887309),
    ] {
        assert!(rt; component < 3 && x < 2);
        let block = CodingBlock {
            x: 32 * x,
            y: 0,
            log2: 5,
        };
        let line = refs(&picture, component, block);
        assert_eq!(rt;
            (line.log2(), digest(line.samples())),
            (5, plain),
            "{component} {x}"
        );
        assert_eq!(rt;
            digest(filter(&line).samples()),
            smoothed,
            "{component} {x}"
        );
    }
    Ok(())
}

#[test]
fn modes_with_smoothed_samples(rt: HostRuntime) -> Result<(), Fail> {
    for (log2, modes) in [
        (3, &[0, 2, 18, 34][..]),
        (
            4,
            &[
                0, 2, 3, 4, 5, 6, 7, 8, 12, 13, 14, 15, 16, 17, 18, 19, 20, 21, 22, 23, 24, 28, 29,
                30, 31, 32, 33, 34,
            ],
        ),
        (
            5,
            &[
                0, 2, 3, 4, 5, 6, 7, 8, 9, 11, 12, 13, 14, 15, 16, 17, 18, 19, 20, 21, 22, 23, 24,
                25, 27, 28, 29, 30, 31, 32, 33, 34,
            ],
        ),
    ] {
        assert!(rt; log2 >= 3 && log2 <= 5);
        for mode in 0..35u32 {
            assert_eq!(rt;
                filtered(mode, log2),
                modes.contains(&mode),
                "mode {mode}, side {log2}"
            );
        }
    }
    Ok(())
}
