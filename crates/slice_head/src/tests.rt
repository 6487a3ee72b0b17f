//! Headers of pictures, as an independent model of the format writes them.
use crate::{
    BadSegment, Head, HeadError, read_head, read_segment_head, write_head, write_segment_head,
};
use h265_model::Numbers;
use std::test::Fail;

// IDR, POC bits, offsets and the header's bytes
const HEADS: [(bool, u32, &[u32], &[u8]); 5] = [
    (true, 0, &[], &[0xAF, 0x80]),
    (false, 1, &[], &[0xD0, 0x0C, 0x5E]),
    (false, 0, &[], &[0xD0, 0x04, 0x5E]),
    (true, 0, &[9220], &[0xAE, 0x81, 0, 0, 1, 0x20, 0x1C]),
    (
        true,
        0,
        &[4611, 4611],
        &[0xAE, 0xC1, 0, 0, 0, 0x90, 0x10, 0, 0, 0x90, 0x14],
    ),
];

#[test]
fn writes_heads(rt: HostRuntime) -> Result<(), Fail> {
    for (idr, poc, offsets, want) in HEADS {
        assert!(rt;
            poc < 256
                && !(idr && poc != 0)
                && offsets.len() < 9
                && offsets.iter().all(|offset| *offset > 0)
        );
        let offsets = Numbers::from_vec(offsets.to_vec(rt.alloc())?);
        let out = write_head(rt.alloc(), &Head { idr, poc, offsets })?;
        assert_eq!(rt; out.as_slice(), want);
    }
    Ok(())
}

#[test]
fn reads_heads(rt: HostRuntime) -> Result<(), Fail> {
    for (idr, poc, offsets, bytes) in HEADS {
        assert!(rt; offsets.len() < 9);
        let (head, length) = read_head(rt.alloc(), bytes, idr, offsets.len() as u32 + 1)?;
        assert_eq!(rt; head.idr, idr);
        assert_eq!(rt; head.poc, poc);
        assert_eq!(rt; head.offsets.as_slice(), offsets);
        assert_eq!(rt; length, bytes.len() as u64);
    }
    Ok(())
}

// A header of a P slice of one row and of an IDR slice of two rows with one bit changed, and the field that differs
const DIFFERENT: [(bool, u32, &[u8], u32); 13] = [
    (false, 1, &[0x50, 0x0C, 0x5E], 1),
    (false, 1, &[0x90, 0x0C, 0x5E], 3),
    (false, 1, &[0xF0, 0x0C, 0x5E], 4),
    (false, 1, &[0xD0], 5),
    (false, 1, &[0xD0, 0x08, 0x5E], 6),
    (false, 1, &[0xD0, 0x0E, 0x5E], 7),
    (false, 1, &[0xD0, 0x0C, 0x4E], 8),
    (false, 1, &[0xD0, 0x0C, 0x56], 9),
    (false, 2, &[0xD0, 0x0C, 0x5E], 10),
    (false, 1, &[0xD0, 0x0C, 0x5F], 13),
    (true, 1, &[0xEF, 0x80], 2),
    (true, 2, &[0xAE, 0x83, 0, 0, 1, 0x20, 0x1C], 11),
    (true, 2, &[0xAE, 0x81, 0, 0, 1, 0x20], 12),
];

#[test]
fn names_fields(rt: HostRuntime) -> Result<(), Fail> {
    for (idr, rows, bytes, want) in DIFFERENT {
        assert!(rt; rows > 0);
        match read_head(rt.alloc(), bytes, idr, rows) {
            Err(HeadError::BadHead { field }) => assert_eq!(rt; field, want),
            _ => assert!(rt; false, "it was read"),
        }
    }
    Ok(())
}

// A header that ends after so many bits, with zeros up to the byte: after fewer than these bits the field is the one that is
// named.
const P_CUTS: &[(usize, u32)] = &[
    (1, 1),
    (2, 3),
    (4, 4),
    (9, 5),
    (14, 6),
    (20, 8),
    (21, 9),
    (22, 10),
    (23, 13),
];

const IDR_CUTS: &[(usize, u32)] = &[
    (1, 1),
    (3, 3),
    (6, 4),
    (7, 9),
    (9, 10),
    (17, 11),
    (49, 12),
    (54, 13),
];

#[test]
fn names_where_it_ends(rt: HostRuntime) -> Result<(), Fail> {
    let p_head: &[u8] = &[0xD0, 0x0C, 0x5E];
    let idr_head: &[u8] = &[0xAE, 0x81, 0, 0, 1, 0x20, 0x1C];
    for (idr, rows, head, cuts) in [(false, 1, p_head, P_CUTS), (true, 2, idr_head, IDR_CUTS)] {
        assert!(rt; rows > 0);
        let mut start = 0;
        for (end, want) in cuts {
            for bits in start..*end {
                let whole = bits / 8;
                let part = bits % 8;
                assert!(rt; whole < head.len());
                let mut bytes = head[..whole].to_vec(rt.alloc())?;
                if part > 0 {
                    bytes.push(head[whole] & !(0xFF >> part))?;
                }
                match read_head(rt.alloc(), &bytes, idr, rows) {
                    Err(HeadError::BadHead { field }) => assert_eq!(rt; field, *want),
                    _ => assert!(rt; false, "it was read"),
                }
            }
            start = *end;
        }
    }
    Ok(())
}

#[test]
fn errors_in_words(rt: HostRuntime) -> Result<(), Fail> {
    let rows = [
        (
            HeadError::BadHead { field: 12 },
            "field 12 of the slice header differs",
        ),
        (HeadError::NoMemory, "no memory"),
    ];
    for (error, text) in rows {
        assert_eq!(rt; format!(in rt.alloc(); "{error}")?.as_str(), text);
    }
    let bad = BadSegment { field: 5 };
    assert_eq!(rt;
        format!(in rt.alloc(); "{bad}")?.as_str(),
        "field 5 of the segment's header differs"
    );
    Ok(())
}

// IDR, POC bits, address, how many coding tree units and the bytes of a segment's header
const SEGMENTS: [(bool, u32, u32, u32, &[u8]); 10] = [
    (true, 0, 0, 6, &[0xAF, 0x80]),
    (false, 1, 0, 6, &[0xD0, 0x0C, 0x5E]),
    (false, 255, 0, 2, &[0xD7, 0xFC, 0x5E]),
    (true, 0, 1, 2, &[0x3E]),
    (false, 0, 1, 2, &[0x7C]),
    (true, 0, 3, 6, &[0x37, 0x80]),
    (false, 7, 3, 6, &[0x6F]),
    (false, 7, 4, 5, &[0x73]),
    (false, 1, 60, 2040, &[0x60, 0xF3]),
    (true, 0, 16256, 16384, &[0x3F, 0xE0, 0x30]),
];

#[test]
fn writes_and_reads_segments(rt: HostRuntime) -> Result<(), Fail> {
    for (idr, poc, address, ctus, bytes) in SEGMENTS {
        assert!(rt; address < ctus && poc < 256 && !(idr && poc != 0));
        let out = write_segment_head(rt.alloc(), idr, poc, address, ctus)?;
        assert_eq!(rt; out.as_slice(), bytes);
        match read_segment_head(bytes, idr, address, ctus) {
            Ok((order, length)) => {
                assert_eq!(rt; order, if address == 0 { poc } else { 0 });
                assert_eq!(rt; length, bytes.len() as u64);
            }
            Err(bad) => assert!(rt; false, "{bad}"),
        }
    }
    Ok(())
}

// Headers of segments of a picture of six coding tree units that are cut or have one bit changed, the address and the
// field that differs
const OTHERS: [(bool, u32, &[u8], u32); 13] = [
    (false, 3, &[0xEF], 1),
    (true, 3, &[0x77, 0x80], 2),
    (false, 3, &[0x2F], 3),
    (false, 3, &[0x4F], 4),
    (false, 3, &[0x6B], 5),
    (false, 3, &[0x6D, 0x80], 6),
    (false, 3, &[0x6E], 7),
    (true, 3, &[0x37], 7),
    (true, 3, &[], 1),
    (false, 0, &[0x50, 0x0C, 0x5E], 1),
    (false, 0, &[0xD0], 5),
    (true, 0, &[0xAE, 0x81, 0, 0, 1, 0x20, 0x1C], 10),
    (true, 0, &[0xAF], 13),
];

#[test]
fn names_fields_of_segments(rt: HostRuntime) -> Result<(), Fail> {
    for (idr, address, bytes, field) in OTHERS {
        assert!(rt; address < 6);
        assert_eq!(rt;
            read_segment_head(bytes, idr, address, 6).err(),
            Some(BadSegment { field })
        );
    }
    Ok(())
}
