//! Streams with moved blocks. The values are the independent model's.
use super::extras::{Extra, record};
use std::alloc::Global;
use std::fmt::Write;
use std::test::Fail;

// A square of noise of 32x32, the lines behind it, what their recording reports, and the digest of its stream.
struct Noisy {
    size: &'static str,
    square: &'static str,
    lines: &'static str,
    pictures: u32,
    paints: u32,
    bytes: u64,
    digest: u64,
}

// Vectors are looked for up to 64 samples away, to each of four sides.
const NOISY: [Noisy; 4] = [
    // one that is 32 samples away, on the left
    Noisy {
        size: "64x32",
        square: "blit 0 0 32 32 ",
        lines: "cut\ncopy 0 0 32 32 32 0\ncut\n",
        pictures: 2,
        paints: 2,
        bytes: 7_781,
        digest: 0x8c87_54e2_a6f9_f640,
    },
    // 64 samples away, on each side in turn
    Noisy {
        size: "160x160",
        square: "blit 64 64 32 32 ",
        lines: "cut\ncopy 64 64 32 32 0 64\ncut\ncopy 64 64 32 32 128 64\ncut\n\
            copy 64 64 32 32 64 0\ncut\ncopy 64 64 32 32 64 128\ncut\n",
        pictures: 5,
        paints: 5,
        bytes: 113_989,
        digest: 0x53e9_3ff0_8624_77d8,
    },
    // 64 samples away in a picture whose last rows and columns fill up a unit
    Noisy {
        size: "38x110",
        square: "blit 0 72 32 32 ",
        lines: "cut\ncopy 0 72 32 32 0 8\ncut\n",
        pictures: 2,
        paints: 2,
        bytes: 18_782,
        digest: 0x973b_371b_6055_0795,
    },
    // 65 samples away: no vector has it, and the stream is as long as the plain one
    Noisy {
        size: "112x40",
        square: "blit 7 0 32 32 ",
        lines: "cut\ncopy 7 0 32 32 72 0\ncut\n",
        pictures: 2,
        paints: 2,
        bytes: 21_756,
        digest: 0x5b97_8570_a5f2_ad9c,
    },
];

// The left window scrolls up by 9 rows, and the right one down by 5.
const WINDOWS: &str =
    "paint 2\nfill 0 0 128 96 304050\nfill 4 8 56 80 f8f8f0\nfill 68 8 56 80 f8f8f0\n\
    fill 8 12 40 3 202020\nfill 8 21 29 3 202020\nfill 8 30 47 3 202020\nfill 8 48 33 3 202020\n\
    fill 72 12 18 3 202020\nfill 72 31 44 3 202020\nfill 72 40 37 3 202020\nfill 72 59 25 3 202020\ncut\n\
    copy 4 17 56 71 4 8\nfill 4 79 56 9 f8f8f0\nfill 8 82 21 3 c02020\n\
    copy 68 8 56 75 68 13\nfill 68 8 56 5 f8f8f0\nfill 72 9 30 2 2020c0\ncut\n\
    copy 4 17 56 71 4 8\nfill 4 79 56 9 f8f8f0\nfill 8 82 32 3 c02020\n\
    copy 68 8 56 75 68 13\nfill 68 8 56 5 f8f8f0\nfill 72 9 23 2 2020c0\ncut\n";

// A picture that moves to the right, up, and then down with a part of it that moves to the left. The third one is an
// IDR picture.
const SIDEWAYS: &str =
    "paint 2\nfill 0 0 70 50 e0e0d0\nfill 5 6 40 3 102030\nfill 9 17 3 30 802010\n\
    fill 30 11 21 2 102030\nfill 50 20 4 19 208010\nfill 21 40 35 3 102030\ncut\n\
    copy 0 0 70 50 3 0\ncut\ncopy 0 5 70 45 0 0\ncut\ncopy 0 0 70 50 0 1\ncopy 33 0 30 50 32 0\ncut\n";

const MOVED: [Extra<'static>; 3] = [
    // nothing moves: the bytes are those of the plain stream
    Extra {
        words: ["moves", "serial", "32x32", "0", "0"],
        script: "cut\ncut\n",
        pictures: 2,
        paints: 0,
        bytes: 4_704,
        digest: 0xb552_4a7f_10d2_4362,
    },
    Extra {
        words: ["moves", "serial", "128x96", "1", "0"],
        script: WINDOWS,
        pictures: 3,
        paints: 23,
        bytes: 4_209,
        digest: 0x53ee_7f29_8aff_b570,
    },
    Extra {
        words: ["moves", "serial", "70x50", "2", "2"],
        script: SIDEWAYS,
        pictures: 4,
        paints: 10,
        bytes: 3_483,
        digest: 0x5892_8ea7_6482_f344,
    },
];

// The next word of the generator SplitMix64.
fn next_word(state: &mut u64) -> u64 {
    *state = state.wrapping_add(0x9e37_79b9_7f4a_7c15);
    let word = *state;
    let word = (word ^ word >> 30).wrapping_mul(0xbf58_476d_1ce4_e5b9);
    let word = (word ^ word >> 27).wrapping_mul(0x94d0_49bb_1331_11eb);
    word ^ word >> 31
}

// A script of version 2: the square with its noise, and the lines.
fn script_of(alloc: Global, case: &Noisy) -> Result<String, Fail> {
    let mut script = format!(in alloc; "paint 2\n{}", case.square)?;
    let mut state = 1;
    for _ in 0..1024 {
        let colour = next_word(&mut state) % 16_777_216;
        write!(script, "{colour:06x}")?;
    }
    script.push('\n')?;
    script.push_str(case.lines)?;
    Ok(script)
}

#[test]
fn squares_that_move(rt: HostRuntime) -> Result<(), Fail> {
    for case in &NOISY {
        let script = script_of(rt.alloc(), case)?;
        let extra = Extra {
            words: ["moves", "serial", case.size, "0", "0"],
            script: &script,
            pictures: case.pictures,
            paints: case.paints,
            bytes: case.bytes,
            digest: case.digest,
        };
        record(&rt, &extra)?;
    }
    Ok(())
}

#[test]
fn streams_with_moved_blocks(rt: HostRuntime) -> Result<(), Fail> {
    for case in &MOVED {
        record(&rt, case)?;
    }
    Ok(())
}
