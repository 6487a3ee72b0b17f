//! Codes by an independent model of the standard's encoder, and codes by hand.
ghost use Rattle.std.specs.Prelude.{◌<◌, ◌≤◌, IfSome};
ghost use Rattle.cabac_dec.specs.State.{IsOpen};

use crate::{Contexts, Decoder, Place};
use cabac_tables::SliceKind;
use std::test::Fail;

// So many bins, each under the context whose number is `step` further, as the digits of a number.
fn bins(decoder: &mut Decoder, count: u32, step: u32) -> Option<u32>
    requires open { IsOpen decoder.old }
    requires few { step ≤ 130 }
    ensures { IfSome result (λ _. IsOpen decoder.new) }
{
    let mut number = 0u32;
    let mut context = 0u32;
    for _ in 0..count {
        let bin = decoder.bin(Place::Context(context))?;
        number = number.wrapping_mul(2).wrapping_add(bin as u32);
        context = (context + step) % 130;
    }
    Some(number)
}

#[test]
fn bins_of_each_kind(rt: HostRuntime) -> Result<(), Fail> {
    let bytes = [
        0x43, 0xA2, 0x74, 0x49, 0xFD, 0x40, 0x4A, 0xC6, 0xC0, 0x09, 0x08, 0x07, 0x06, 0x05, 0xF9,
        0x10, 0xFB,
    ];
    let Some(mut decoder) = Decoder::new(&bytes, Contexts::start(SliceKind::I)) else {
        panic!(rt; "it starts")
    };
    let Some(0xC3A5_0F17) = bins(&mut decoder, 32, 7) else {
        panic!(rt; "32 context bins")
    };
    let Some(0xBEEF) = decoder.peek(16) else {
        panic!(rt; "16 bypass bins ahead")
    };
    assert_eq!(rt; decoder.skip(4, 16, 0xBEEF), 0xB);
    let Some(0xEEF5) = decoder.bypass(16) else {
        panic!(rt; "16 bypass bins")
    };
    let Some(false) = decoder.bin(Place::Terminate) else {
        panic!(rt; "it goes on")
    };
    let Some(true) = decoder.bin(Place::Bypass) else {
        panic!(rt; "one bypass bin")
    };
    let Some(true) = decoder.bin(Place::Terminate) else {
        panic!(rt; "it ends")
    };
    let mut samples = [0; 5];
    let Some(()) = decoder.pcm(&mut samples) else {
        panic!(rt; "samples")
    };
    assert_eq!(rt; samples, [9, 8, 7, 6, 5]);
    let Some(0x3C5A) = bins(&mut decoder, 16, 11) else {
        panic!(rt; "16 context bins")
    };
    let Some(true) = decoder.bin(Place::Terminate) else {
        panic!(rt; "it ends again")
    };
    assert_eq!(rt; decoder.end(), Some(()));
    let contexts = decoder.contexts();
    for (n, byte) in [(0, 1), (7, 3), (11, 25), (22, 1), (33, 1), (129, 1)] {
        assert_eq!(rt; contexts.get(n), byte);
    }
    Ok(())
}

// Whether these bytes are a run that ends at once.
fn is_end(bytes: &[u8]) -> bool {
    let Some(mut decoder) = Decoder::new(bytes, Contexts::start(SliceKind::P)) else {
        return false;
    };
    let Some(true) = decoder.bin(Place::Terminate) else {
        return false;
    };
    decoder.end().is_some()
}

// Two samples after a run that ends at once, as one number.
fn two_samples(bytes: &[u8]) -> Option<u32> {
    let mut decoder = Decoder::new(bytes, Contexts::start(SliceKind::P))?;
    let Some(true) = decoder.bin(Place::Terminate) else {
        return None;
    };
    let mut samples = [0; 2];
    decoder.pcm(&mut samples)?;
    Some(u32::from(samples[0]) << 8 | u32::from(samples[1]))
}

#[test]
fn ends(rt: HostRuntime) -> Result<(), Fail> {
    assert!(rt; is_end(&[0xFE, 0x80]));
    // Nothing, one byte, and offsets of 510 and 511.
    assert!(rt; !is_end(&[]));
    assert!(rt; !is_end(&[0xFE]));
    assert!(rt; !is_end(&[0xFF, 0x00]));
    assert!(rt; !is_end(&[0xFF, 0x80]));
    // No stop bit, a bit behind it, and a byte behind it.
    assert!(rt; !is_end(&[0xFE, 0x00]));
    assert!(rt; !is_end(&[0xFE, 0x81]));
    assert!(rt; !is_end(&[0xFE, 0x80, 0x00]));
    // A bin 0.
    assert!(rt; !is_end(&[0x00, 0x80]));
    Ok(())
}

#[test]
fn samples(rt: HostRuntime) -> Result<(), Fail> {
    assert_eq!(rt;
        two_samples(&[0xFE, 0x80, 0x12, 0x34, 0xFE, 0x80]),
        Some(0x1234)
    );
    assert_eq!(rt; two_samples(&[0xFE, 0x00, 0x12, 0x34, 0xFE, 0x80]), None);
    assert_eq!(rt; two_samples(&[0xFE, 0x80, 0x12, 0x34, 0xFE]), None);
    assert_eq!(rt; two_samples(&[0xFE, 0x80, 0x12, 0x34, 0xFF, 0x00]), None);
    assert_eq!(rt; two_samples(&[0xFE, 0x80, 0x12]), None);
    Ok(())
}
