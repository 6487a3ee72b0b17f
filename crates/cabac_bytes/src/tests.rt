//! Codes of lists of bins and samples, by hand and by an independent model.
ghost use Rattle.std.specs.Prelude.{OnOk};
ghost use Rattle.bin_items.specs.Growth.{IsOpen};
ghost use Rattle.cabac_bytes.specs.State.{phase_of};

use crate::ByteCoder;
use bin_items::{Bin, BinSink, NoMemory, Place};
use cabac_tables::{Contexts, SliceKind};
use std::alloc::Global;
use std::test::Fail;

#[test]
fn ones(rt: HostRuntime) -> Result<(), Fail> {
    let mut coder = ByteCoder::new(rt.alloc(), Contexts::start(SliceKind::I));
    coder.bypass(0x7FFF, 15)?;
    coder.bin(Bin {
        value: true,
        place: Place::Terminate,
    })?;
    let bytes = coder.finish()?;
    assert_eq!(rt; bytes.as_slice(), [0xFE, 0xFF, 0xFF].as_slice());
    Ok(())
}

// The last addition carries through 23 digits of 1.
#[test]
fn carries(rt: HostRuntime) -> Result<(), Fail> {
    let mut coder = ByteCoder::new(rt.alloc(), Contexts::start(SliceKind::I));
    coder.bypass(0b1000_0000_1000_0000_1, 17)?;
    coder.bin(Bin {
        value: true,
        place: Place::Terminate,
    })?;
    let bytes = coder.finish()?;
    assert_eq!(rt; bytes.as_slice(), [0x80, 0x00, 0x7E, 0xC0].as_slice());
    Ok(())
}

#[test]
fn samples_between_runs(rt: HostRuntime) -> Result<(), Fail> {
    let mut coder = ByteCoder::new(rt.alloc(), Contexts::start(SliceKind::I));
    coder.bin(Bin {
        value: false,
        place: Place::Context(1),
    })?;
    coder.bin(Bin {
        value: true,
        place: Place::Context(0),
    })?;
    coder.bin(Bin {
        value: true,
        place: Place::Terminate,
    })?;
    coder.pcm(&[1, 2, 3])?;
    coder.bin(Bin {
        value: true,
        place: Place::Terminate,
    })?;
    let bytes = coder.finish()?;
    assert_eq!(rt;
        bytes.as_slice(),
        [0x46, 0xC0, 1, 2, 3, 0xFE, 0x80].as_slice()
    );
    Ok(())
}

// One bin or several, made from a number.
fn put_one(coder: &mut ByteCoder, state: u32) -> Result<(), NoMemory>
    requires { IsOpen (phase_of coder.old) }
    ensures { OnOk result (IsOpen (phase_of coder.new)) }
{
    let value = state >> 30 == 0;
    match state >> 20 & 7 {
        0..=3 => coder.bin(Bin {
            value,
            place: Place::Context((state >> 8) % 130),
        }),
        4..=5 => coder.bin(Bin {
            value,
            place: Place::Bypass,
        }),
        6 => coder.bypass(state >> 4 & 0xFFF, 12),
        _ => coder.bin(Bin {
            value: false,
            place: Place::Terminate,
        }),
    }
}

// A terminating bin 1 and samples.
fn put_samples(coder: &mut ByteCoder, first: u8, second: u8) -> Result<(), NoMemory>
    requires { IsOpen (phase_of coder.old) }
    ensures { OnOk result (IsOpen (phase_of coder.new)) }
{
    coder.bin(Bin {
        value: true,
        place: Place::Terminate,
    })?;
    coder.pcm(&[first, second])
}

// A list of bins and samples made from a number.
fn code_of(alloc: Global, seed: u32) -> Result<Vec<u8>, NoMemory> {
    let mut coder = ByteCoder::new(alloc, Contexts::start(SliceKind::I));
    let mut state = seed;
    for k in 0u8..200 {
        state = state.wrapping_mul(1664525).wrapping_add(1013904223);
        put_one(&mut coder, state)?;
        if k % 50 == 49 {
            put_samples(&mut coder, (state >> 16 & 255) as u8, k)?;
        }
    }
    coder.bin(Bin {
        value: true,
        place: Place::Terminate,
    })?;
    coder.finish()
}

// The bytes of a hundred lists, by their number and their FNV-1a hash, from the independent model.
#[test]
fn hundred_lists(rt: HostRuntime) -> Result<(), Fail> {
    let mut total = 0usize;
    let mut hash = 2166136261u32;
    for seed in 0..100 {
        let bytes = code_of(rt.alloc(), seed)?;
        total = total.wrapping_add(bytes.len());
        for byte in &bytes {
            hash = (hash ^ *byte as u32).wrapping_mul(16777619);
        }
    }
    assert_eq!(rt; total, 7570);
    assert_eq!(rt; hash, 423507451);
    Ok(())
}

// Three hundred bytes 255 behind the one that is held, which a carry turns into zeros.
#[test]
fn long_carries(rt: HostRuntime) -> Result<(), Fail> {
    let mut coder = ByteCoder::new(rt.alloc(), Contexts::start(SliceKind::I));
    for _ in 0..300 {
        coder.bypass(0x80, 8)?;
    }
    coder.bypass(1, 1)?;
    coder.bin(Bin {
        value: true,
        place: Place::Terminate,
    })?;
    let bytes = coder.finish()?;
    assert_eq!(rt; bytes.len(), 302);
    assert!(rt; bytes.iter().take(1).all(|byte| *byte == 0x80));
    assert!(rt; bytes.iter().skip(1).take(299).all(|byte| *byte == 0));
    assert!(rt; bytes.iter().skip(300).copied().eq([0x7E, 0xC0]));
    Ok(())
}

#[test]
fn many_runs(rt: HostRuntime) -> Result<(), Fail> {
    let mut coder = ByteCoder::new(rt.alloc(), Contexts::start(SliceKind::I));
    for _ in 0..10000 {
        coder.bin(Bin {
            value: true,
            place: Place::Terminate,
        })?;
        coder.pcm(&[7])?;
    }
    coder.bin(Bin {
        value: true,
        place: Place::Terminate,
    })?;
    let bytes = coder.finish()?;
    assert_eq!(rt; bytes.len(), 30002);
    assert!(rt;
        bytes
            .chunks(3)
            .take(10000)
            .all(|run| run == [0xFE, 0x80, 7].as_slice())
    );
    Ok(())
}

// The contexts of an I slice after some bins, from the independent model.
#[test]
fn contexts_follow_bins(rt: HostRuntime) -> Result<(), Fail> {
    let mut coder = ByteCoder::new(rt.alloc(), Contexts::start(SliceKind::I));
    for (n, value) in [
        (0u32, true),
        (0, true),
        (1, false),
        (5, true),
        (0, false),
        (60, true),
        (60, false),
        (60, false),
    ] {
        assert!(rt; n < 130);
        coder.bin(Bin {
            value,
            place: Place::Context(n),
        })?;
    }
    coder.bypass(5, 3)?;
    let contexts = coder.contexts();
    for (n, state) in [(0, 3u8), (1, 2), (2, 31), (5, 3), (60, 16)] {
        assert!(rt; n < 130);
        assert_eq!(rt; contexts.get(n), state, "context {n}");
    }
    Ok(())
}
