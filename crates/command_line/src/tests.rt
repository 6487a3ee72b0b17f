use crate::{Row, read_words};
use h265_model::Extra;
use std::alloc::{AllocError, Global};
use std::test::Fail;

// Words that are in no row.
const REFUSED: [&[&str]; 49] = [
    &[],
    &[""],
    &["help"],
    &["Serial", "32x32", "0", "1", "o", "f"],
    &["serial", "0x5", "0", "1", "o", "f"],
    &["serial", "5x0", "0", "1", "o", "f"],
    &["serial", "032x32", "0", "1", "o", "f"],
    &["serial", "32x032", "0", "1", "o", "f"],
    &["serial", "4097x1", "0", "1", "o", "f"],
    &["serial", "1x4097", "0", "1", "o", "f"],
    &["serial", "4096x2161", "0", "1", "o", "f"],
    &["serial", "32", "0", "1", "o", "f"],
    &["serial", "32x", "0", "1", "o", "f"],
    &["serial", "x32", "0", "1", "o", "f"],
    &["serial", "32x32x", "0", "1", "o", "f"],
    &["serial", "32x32x32", "0", "1", "o", "f"],
    &["serial", "32X32", "0", "1", "o", "f"],
    &["serial", "32x32", "3", "1", "o", "f"],
    &["serial", "32x32", "", "1", "o", "f"],
    &["serial", "32x32", "0", "65536", "o", "f"],
    &["serial", "32x32", "0", "+1", "o", "f"],
    &["serial", "32x32", "0", "1", "o"],
    &["serial", "32x32", "0", "1", "o", "f", "g"],
    &["record", "32x32", "65", "0", "0", "o", "f"],
    &["record", "32x32", "0", "0", "0", "o", "f"],
    &["record", "32x32", "1", "0", "0", "o"],
    &["record", "32x32", "1"],
    &["demo"],
    &["demo", "18446744073709551616"],
    &["demo", "1000000000000000000000000000000000000000"],
    &["demo", "-1"],
    &["demo", "1", "2"],
    &["decode", "i"],
    &["hash"],
    &["hash", "32x32"],
    &["hash", "decode", "i", "o"],
    &["hash", "demo", "1"],
    &["hash", "hash", "serial", "32x32", "0", "1", "o", "f"],
    &["serial", "hash", "32x32", "0", "1", "o", "f"],
    &["segments"],
    &["segments", "serial", "32x64", "0", "1", "o", "f"],
    &["segments", "record", "64x64", "1", "0", "1", "o", "f"],
    &["hash", "segments", "serial", "64x64", "0", "1", "o", "f"],
    &["moves"],
    &["moves", "record", "64x64", "1", "0", "1", "o", "f"],
    &["moves", "decode", "i", "o"],
    &["moves", "moves", "serial", "64x64", "0", "1", "o", "f"],
    &["segments", "moves", "serial", "64x64", "0", "1", "o", "f"],
    &["serial", "moves", "64x64", "0", "1", "o", "f"],
];

#[test]
fn words_in_no_row(rt: HostRuntime) {
    for words in REFUSED {
        assert!(rt; read_words(words).is_none(), "{words:?}");
    }
}

#[test]
fn words_of_serial(rt: HostRuntime) -> Result<(), Fail> {
    let Some(Row::Serial(serial)) = read_words(&["serial", "4096x2160", "2", "65535", "", "in put"])
    else {
        return Err(Fail::from("serial"));
    };
    assert_eq!(rt; serial.settings.size.w(), 4096);
    assert_eq!(rt; serial.settings.size.h(), 2160);
    assert_eq!(rt; serial.settings.effort, 2);
    assert_eq!(rt; serial.settings.key, 65_535);
    assert_eq!(rt; serial.settings.extra, Extra::Plain);
    assert_eq!(rt; serial.out, "");
    assert_eq!(rt; serial.file, "in put");
    Ok(())
}

#[test]
fn words_in_front(rt: HostRuntime) -> Result<(), Fail> {
    let rows = [
        ("hash", "1x1", Extra::Hash),
        ("segments", "33x1", Extra::Segments),
        ("moves", "1x1", Extra::Moves),
    ];
    for (kind, size, extra) in rows {
        let words = [kind, "serial", size, "1", "2", "o", "f"];
        let Some(Row::Serial(serial)) = read_words(&words) else {
            return Err(Fail::from("serial"));
        };
        assert_eq!(rt; serial.settings.extra, extra);
        assert_eq!(rt; serial.settings.effort, 1);
        assert_eq!(rt; serial.settings.key, 2);
        assert_eq!(rt; serial.file, "f");
    }
    let words = ["hash", "record", "8x9", "3", "1", "2", "o", "f", "g"];
    let Some(Row::Record(record)) = read_words(&words) else {
        return Err(Fail::from("record"));
    };
    assert_eq!(rt; record.settings.extra, Extra::Hash);
    assert_eq!(rt; record.workers, 3);
    assert_eq!(rt; record.files.len(), 2);
    Ok(())
}

#[test]
fn words_of_demo_and_decode(rt: HostRuntime) -> Result<(), Fail> {
    assert!(rt; matches!(read_words(&["demo", "0"]), Some(Row::Demo(0))));
    assert!(rt;
        matches!(
            read_words(&["demo", "18446744073709551615"]),
            Some(Row::Demo(u64::MAX))
        )
    );
    let Some(Row::Decode(decode)) = read_words(&["decode", "i", "o"]) else {
        return Err(Fail::from("decode"));
    };
    assert_eq!(rt; decode.input, "i");
    assert_eq!(rt; decode.out, "o");
    Ok(())
}

fn record_of(alloc: Global, files: usize) -> Result<Vec<&'static str>, AllocError> {
    let mut words = ["record", "1x1", "64", "0", "0", "o"].to_vec(alloc)?;
    for _ in 0..files {
        words.push("f")?;
    }
    Ok(words)
}

#[test]
fn words_of_record(rt: HostRuntime) -> Result<(), Fail> {
    let words = record_of(rt.alloc(), 64)?;
    let Some(Row::Record(record)) = read_words(&words) else {
        return Err(Fail::from("record"));
    };
    assert_eq!(rt; record.workers, 64);
    assert_eq!(rt; record.settings.size.w(), 1);
    assert_eq!(rt; record.out, "o");
    assert_eq!(rt; record.files.len(), 64);
    let words = record_of(rt.alloc(), 65)?;
    assert!(rt; read_words(&words).is_none());
    Ok(())
}
