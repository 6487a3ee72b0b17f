//! Pieces of pictures, as an independent model of the format writes them.
ghost use Rattle.std.specs.Prelude.{IsTrue, ◌<◌, ◌^◌, length};
ghost use Rattle.std.specs.List.{All};
ghost use Rattle.slice_assembly.specs.Substreams.{IsSubstream};

use crate::{assemble, assemble_segments};
use h265_model::NoMemory;
use std::alloc::Global;
use std::test::Fail;

// IDR, POC bits, rows and the piece
const SMALL: [(bool, u32, &[&[u8]], &[u8]); 4] = [
    (
        false,
        1,
        &[&[0x62, 0xF0]],
        &[0, 0, 0, 1, 2, 1, 0xD0, 0x0C, 0x5E, 0x62, 0xF0],
    ),
    (
        false,
        0,
        &[&[0x62, 0xF0]],
        &[0, 0, 0, 1, 2, 1, 0xD0, 4, 0x5E, 0x62, 0xF0],
    ),
    (
        false,
        200,
        &[&[0, 0, 1, 0x80], &[0, 0, 0, 0, 3, 0x62, 0xF0]],
        &[
            0, 0, 0, 1, 2, 1, 0xD6, 0x44, 0x5A, 4, 0, 0, 3, 0, 0, 0x90, 0, 0, 3, 1, 0x80, 0, 0, 3,
            0, 0, 3, 3, 0x62, 0xF0,
        ],
    ),
    (
        true,
        0,
        &[&[0x46, 0xC0, 0, 0, 3, 0x80], &[0, 0, 0xFE, 0x80], &[0x80]],
        &[
            0, 0, 0, 1, 0x28, 1, 0xAE, 0xC1, 0, 0, 3, 0, 0, 0x30, 0, 0, 3, 0, 0x1C, 0x46, 0xC0, 0,
            0, 3, 3, 0x80, 0, 0, 0xFE, 0x80, 0x80,
        ],
    ),
];

#[test]
fn assembles_small_rows(rt: HostRuntime) -> Result<(), Fail> {
    for (idr, poc, list, want) in SMALL {
        let mut rows = Vec::new(rt.alloc());
        for row in list {
            rows.push(row.to_vec(rt.alloc())?)?;
        }
        assert!(rt; poc < 256 && !(idr && poc != 0));
        assert!(rt; are_substreams(&rows));
        let piece = assemble(rt.alloc(), idr, poc, &rows)?;
        assert_eq!(rt; piece.as_slice(), want);
    }
    Ok(())
}

// IDR, POC bits, how many coding tree units a row has, rows and the pieces
const SEGMENTS: [(bool, u32, u32, &[&[u8]], &[u8]); 3] = [
    (
        false,
        1,
        2,
        &[&[0x62, 0xF0]],
        &[0, 0, 0, 1, 2, 1, 0xD0, 0x0C, 0x5E, 0x62, 0xF0],
    ),
    (
        true,
        0,
        2,
        &[&[0x46, 0xC0, 0, 0, 3, 0x80], &[0, 0, 0xFE, 0x80], &[0x80]],
        &[
            0, 0, 0, 1, 0x28, 1, 0xAF, 0x80, 0x46, 0xC0, 0, 0, 3, 3, 0x80, 0, 0, 0, 1, 0x28, 1,
            0x35, 0x80, 0, 0, 0xFE, 0x80, 0, 0, 0, 1, 0x28, 1, 0x39, 0x80, 0x80,
        ],
    ),
    (
        false,
        200,
        3,
        &[&[0, 0, 1, 0x80], &[0, 0, 0, 0, 3, 0x62, 0xF0]],
        &[
            0, 0, 0, 1, 2, 1, 0xD6, 0x44, 0x5E, 0, 0, 3, 1, 0x80, 0, 0, 0, 1, 2, 1, 0x6F, 0, 0, 3,
            0, 0, 3, 3, 0x62, 0xF0,
        ],
    ),
];

#[test]
fn assembles_segments(rt: HostRuntime) -> Result<(), Fail> {
    for (idr, poc, across, list, want) in SEGMENTS {
        let mut rows = Vec::new(rt.alloc());
        for row in list {
            rows.push(row.to_vec(rt.alloc())?)?;
        }
        assert!(rt; poc < 256 && !(idr && poc != 0) && across > 0 && across < 4 && rows.len() < 4);
        let pieces = assemble_segments(rt.alloc(), idr, poc, across, &rows)?;
        assert_eq!(rt; pieces.as_slice(), want);
    }
    Ok(())
}

// What a row has before each 3072 zeros, and at its end
type Row = (&'static [[u8; 2]], [u8; 2]);

// Black IDR pictures of PCM coding units of side 32: rows, the piece before its first row, and the length of the piece. The
// coding tree units are 1 by 3, 2 by 2 and 3 by 2.
const BLACK: [(&[Row], &[u8], usize); 3] = [
    (
        &[
            (&[[0x46, 0xC0]], [0xFD, 0x80]),
            (&[[0x46, 0xC0]], [0xFD, 0x80]),
            (&[[0x46, 0xC0]], [0xFE, 0x80]),
        ],
        &[
            0, 0, 0, 1, 0x28, 1, 0xAE, 0xC1, 0, 0, 3, 0, 0x90, 0x10, 0, 0, 0x90, 0x14,
        ],
        13_851,
    ),
    (
        &[
            (&[[0x46, 0xC0], [0x4C, 0x40]], [0xFD, 0x80]),
            (&[[0x52, 0xC0], [0x59, 0xC0]], [0xFE, 0x80]),
        ],
        &[0, 0, 0, 1, 0x28, 1, 0xAE, 0x81, 0, 0, 3, 1, 0x20, 0x1C],
        18_454,
    ),
    (
        &[
            (&[[0x46, 0xC0], [0x4C, 0x40], [0x51, 0xC0]], [0xFD, 0x80]),
            (&[[0x52, 0xC0], [0x59, 0xC0], [0x62, 0x40]], [0xFE, 0x80]),
        ],
        &[0, 0, 0, 1, 0x28, 1, 0xAE, 0x81, 0, 0, 3, 1, 0xB0, 0x24],
        27_672,
    ),
];

#[test]
fn assembles_black_pictures(rt: HostRuntime) -> Result<(), Fail> {
    for (list, front, length) in BLACK {
        let mut rows = Vec::new(rt.alloc());
        let mut want = front.to_vec(rt.alloc())?;
        for row in list {
            rows.push(black_row(rt.alloc(), *row)?)?;
            append_escaped(&mut want, *row)?;
        }
        assert!(rt; are_substreams(&rows));
        let piece = assemble(rt.alloc(), true, 0, &rows)?;
        assert_eq!(rt; piece.len(), length);
        assert_eq!(rt; piece.as_slice(), want.as_slice());
    }
    Ok(())
}

fn are_substreams(rows: &[Vec<u8>]) -> bool
    ensures some { IsTrue result → 0 < length rows.now }
    ensures fewer { IsTrue result → length rows.now < 2 ^ 32 }
    ensures each { IsTrue result → All (λ row. IsSubstream row.items) rows.now }
{
    rows.len() > 0
        && rows.len() < 1 << 32
        && rows.iter().all(|row| row.len() > 0 && row[row.len() - 1] > 0 && row.len() < 1 << 31)
}

fn black_row(alloc: Global, row: Row) -> Result<Vec<u8>, NoMemory> {
    let mut bytes = Vec::new(alloc);
    for before in row.0 {
        bytes.extend_from_slice(before)?;
        bytes.extend_from_slice(&[0; 3072])?;
    }
    bytes.extend_from_slice(&row.1)?;
    Ok(bytes)
}

// The same, with 03 after each two zeros that another follows.
fn append_escaped(out: &mut Vec<u8>, row: Row) -> Result<(), NoMemory> {
    for before in row.0 {
        out.extend_from_slice(before)?;
        for _ in 0..1535 {
            out.extend_from_slice(&[0, 0, 3])?;
        }
        out.extend_from_slice(&[0, 0])?;
    }
    out.extend_from_slice(&row.1)?;
    Ok(())
}
