//! Bytes of the standard's grammar, as tables.
use crate::{BadUnit, UnitsError, Walk, append_unit, escape, start_codes, units};
use h265_model::NoMemory;
use std::test::Fail;

#[test]
fn escapes(rt: HostRuntime) -> Result<(), Fail> {
    let table: [(&[u8], &[u8]); 5] = [
        (&[], &[]),
        (&[0, 0, 1, 0, 0, 0, 0, 4], &[0, 0, 3, 1, 0, 0, 3, 0, 0, 4]),
        (&[0, 0, 0, 0, 0], &[0, 0, 3, 0, 0, 3, 0]),
        (&[9, 0, 0, 3, 4, 0, 0, 4], &[9, 0, 0, 3, 3, 4, 0, 0, 4]),
        (&[0, 0, 2, 0, 0, 9, 1], &[0, 0, 3, 2, 0, 0, 9, 1]),
    ];
    for (bytes, want) in table {
        let out = escape(rt.alloc(), bytes)?;
        assert_eq!(rt; out.as_slice(), want);
    }
    Ok(())
}

#[test]
fn appends(rt: HostRuntime) -> Result<(), Fail> {
    let mut out = [9].to_vec(rt.alloc())?;
    append_unit(&mut out, [0x44, 1], &[0xC0, 0, 0, 1, 0x80])?;
    assert_eq!(rt;
        out.as_slice(),
        [9, 0, 0, 0, 1, 0x44, 1, 0xC0, 0, 0, 3, 1, 0x80].as_slice()
    );
    Ok(())
}

// A stream, and the header and payload of each of its NAL units
type Read = (&'static [u8], &'static [([u8; 2], &'static [u8])]);

const READ: [Read; 8] = [
    (&[], &[]),
    (
        &[0, 0, 1, 0x44, 1, 0xC0, 0, 0, 1, 0x44, 1],
        &[([0x44, 1], &[0xC0]), ([0x44, 1], &[])],
    ),
    (&[0, 0, 0, 0, 0, 1, 0x44, 1, 0, 0], &[([0x44, 1], &[])]),
    (
        &[0, 0, 1, 0x44, 1, 0, 0, 0, 0, 1, 0x42, 1, 5],
        &[([0x44, 1], &[]), ([0x42, 1], &[5])],
    ),
    (&[0, 0, 1, 0x44, 1, 0, 0, 3], &[([0x44, 1], &[0, 0])]),
    (
        &[0, 0, 1, 0x44, 1, 0, 0, 3, 0, 0, 3, 0, 5],
        &[([0x44, 1], &[0, 0, 0, 0, 0, 5])],
    ),
    (
        &[0, 0, 1, 0x44, 1, 0, 0, 3, 1, 0, 3, 0, 0, 4],
        &[([0x44, 1], &[0, 0, 1, 0, 3, 0, 0, 4])],
    ),
    (&[0, 0, 1, 0, 0, 3, 1], &[([0, 0], &[3, 1])]),
];

#[test]
fn reads(rt: HostRuntime) -> Result<(), Fail> {
    for (bytes, want) in READ {
        let found = units(rt.alloc(), bytes)?;
        assert_eq!(rt; found.all().len(), want.len());
        for (unit, (header, rbsp)) in found.all().iter().zip(want) {
            assert_eq!(rt; unit.header, *header);
            assert_eq!(rt; unit.rbsp.as_slice(), *rbsp);
        }
    }
    Ok(())
}

#[test]
fn walks(rt: HostRuntime) -> Result<(), Fail> {
    let mut rbsp = Vec::new(rt.alloc());
    for (bytes, want) in READ {
        let mut walk = Walk::new(bytes)?;
        let mut kept = walk.twin();
        for (header, payload) in want {
            assert_eq!(rt; walk.header(), Some(*header));
            assert_eq!(rt; walk.next(&mut rbsp)?, Some(*header));
            assert_eq!(rt; rbsp.as_slice(), *payload);
        }
        assert_eq!(rt; walk.header(), None);
        assert_eq!(rt; walk.next(&mut rbsp)?, None);
        assert_eq!(rt;
            kept.next(&mut rbsp)?,
            want.first().map(|(header, _)| *header)
        );
    }
    Ok(())
}

const REFUSED: [(&[u8], u64); 14] = [
    (&[0x44], 0),
    (&[0, 0], 2),
    (&[0, 0, 1, 0x44], 3),
    (&[0, 0, 1, 0x44, 1, 0, 0, 2], 7),
    (&[1], 0),
    (&[0, 1], 1),
    (&[0, 0, 2], 2),
    (&[0, 0, 1], 3),
    (&[0, 0, 1, 0x44, 1, 0, 0, 3, 4], 8),
    (&[0, 0, 1, 0, 0, 2, 0x44, 1], 5),
    (&[0, 0, 1, 0, 0, 3, 4], 6),
    (&[0, 0, 1, 0x44, 1, 0, 0, 3, 2, 0, 0, 3, 5], 12),
    (&[0, 0, 1, 0x44, 1, 0, 0, 3, 0, 0, 3, 2, 0, 0, 2], 14),
    (&[0, 0, 1, 0x44, 1, 0, 0, 1, 0x42, 0, 0, 1, 0x44, 1], 8),
];

#[test]
fn refuses(rt: HostRuntime) -> Result<(), Fail> {
    for (bytes, at) in REFUSED {
        assert_eq!(rt; Walk::new(bytes).err(), Some(BadUnit { at }));
        let refused = units(rt.alloc(), bytes).err();
        assert_eq!(rt; refused, Some(UnitsError::BadUnit { at }));
    }
    Ok(())
}

#[test]
fn counts_start_codes(rt: HostRuntime) {
    let table: [(&[u8], u32); 6] = [
        (&[], 0),
        (&[0, 0, 1], 1),
        (&[0, 1, 0, 0, 0, 1, 0, 0, 2], 1),
        (&[0, 0, 1, 0, 0, 1, 0, 1], 2),
        (&[0, 0, 1, 0x44, 1, 0, 0, 3, 0, 0, 1], 2),
        (&[1, 0, 0], 0),
    ];
    for (bytes, want) in table {
        assert_eq!(rt; start_codes(bytes), want);
    }
}

#[test]
fn reads_back(rt: HostRuntime) -> Result<(), Fail> {
    let payloads: [&[u8]; 4] = [
        &[],
        &[0, 0, 0, 0, 0, 0, 1],
        &[0, 0, 3, 0, 0, 2, 0, 0, 1, 0x80],
        &[7, 0, 0, 4, 0, 0, 0xFF],
    ];
    let mut out = Vec::new(rt.alloc());
    for rbsp in payloads {
        append_unit(&mut out, [0x28, 1], rbsp)?;
    }
    let found = units(rt.alloc(), &out)?;
    assert_eq!(rt; found.all().len(), payloads.len());
    for (unit, rbsp) in found.all().iter().zip(payloads) {
        assert_eq!(rt; unit.header, [0x28, 1]);
        assert_eq!(rt; unit.rbsp.as_slice(), rbsp);
    }
    Ok(())
}

#[test]
fn errors_in_words(rt: HostRuntime) -> Result<(), Fail> {
    let alloc = rt.alloc();
    let rows = [
        (UnitsError::BadUnit { at: 70 }, "no NAL unit at byte 70"),
        (UnitsError::NoMemory, "no memory"),
    ];
    for (error, text) in rows {
        assert_eq!(rt; format!(in alloc; "{error}")?.as_str(), text);
    }
    let bad = BadUnit { at: 70 };
    assert_eq!(rt;
        format!(in alloc; "{bad}")?.as_str(),
        "no NAL unit at byte 70"
    );
    assert_eq!(rt; format!(in alloc; "{}", NoMemory)?.as_str(), "no memory");
    Ok(())
}
