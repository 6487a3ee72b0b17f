//! Codes of the standard's tables, written and read.
use crate::{BitReader, BitWriter};
use std::test::Fail;

#[test]
fn writes(rt: HostRuntime) -> Result<(), Fail> {
    let mut out = BitWriter::new(rt.alloc());
    // 101, 1, 010, 00100, 0000 0100 000, 011 and 0000 0000 0001 0000 0010 1111 1111 1111, then 1000
    out.put(3, 5)?;
    out.ue(0)?;
    out.ue(1)?;
    out.ue(3)?;
    out.ue(31)?;
    out.se(-1)?;
    out.put(32, 0x0010_2FFF)?;
    out.align_one()?;
    assert_eq!(rt;
        out.into_bytes().as_slice(),
        [0xB4, 0x40, 0x40, 0xC0, 4, 0x0B, 0xFF, 0xE0].as_slice()
    );
    let mut longest = BitWriter::new(rt.alloc());
    longest.ue(0xFFFF_FFFE)?;
    longest.align_one()?;
    assert_eq!(rt;
        longest.into_bytes().as_slice(),
        [0, 0, 0, 1, 0xFF, 0xFF, 0xFF, 0xFF].as_slice()
    );
    Ok(())
}

#[test]
fn reads(rt: HostRuntime) -> Result<(), Fail> {
    let bytes = [0xB4, 0x40, 0x40, 0xC0, 4, 0x0B, 0xFF, 0xE0];
    let mut left = BitReader::new(&bytes);
    assert_eq!(rt; left.bits(3), Some(5));
    assert_eq!(rt; left.ue(), Some(0));
    assert_eq!(rt; left.ue(), Some(1));
    assert_eq!(rt; left.align_one(), None);
    assert_eq!(rt; left.ue(), Some(3));
    assert_eq!(rt; left.ue(), Some(31));
    assert_eq!(rt; left.se(), Some(-1));
    assert_eq!(rt; left.bits(32), Some(0x0010_2FFF));
    assert_eq!(rt; left.place(), 58);
    assert_eq!(rt; left.bytes_left(), 0);
    assert_eq!(rt; left.align_one(), Some(()));
    assert_eq!(rt; left.bits(1), None);
    assert_eq!(rt; left.align_one(), None);
    assert_eq!(rt; left.bits(0), Some(0));
    Ok(())
}

#[test]
fn stands_where_it_stood(rt: HostRuntime) -> Result<(), Fail> {
    let many_zeros = [0, 0, 0, 0, 0x80, 0, 0, 0, 0];
    let mut left = BitReader::new(&many_zeros);
    assert_eq!(rt; left.ue(), None);
    assert_eq!(rt; left.bits(7), Some(0));
    assert_eq!(rt; left.se(), Some(0x0100_0000));
    let cut = [0x01];
    let mut short = BitReader::new(&cut);
    assert_eq!(rt; short.ue(), None);
    assert_eq!(rt; short.bits(9), None);
    assert_eq!(rt; short.bits(8), Some(1));
    Ok(())
}
