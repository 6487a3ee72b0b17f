//! Parameter sets of sizes, as an independent model of the format writes them.
use crate::{BadParam, Params, read_params, write_params};
use annexb::{Unit, units};
use h265_model::{Bytes, NoMemory};
use px_plane::Size;
use std::alloc::Global;
use std::test::Fail;

// What all sizes share: the video parameter set and the front of the sequence parameter set, and the picture parameter set.
const FRONT: &[u8] =
    b"\x00\x00\x00\x01\x40\x01\x0c\x01\xff\xff\x24\x08\x00\x00\x03\x00\xbe\x08\x00\x00\x03\x00\x00\x9c\xac\x09\x00\x00\x00\x01\x42\x01\x01\x24\x08\x00\x00\x03\x00\xbe\x08\x00\x00\x03\x00\x00\x9c";

const BACK: &[u8] = b"\x00\x00\x00\x01\x44\x01\xc0\x71\x8a\xa4\x80";

// The sequence parameter set from its profile_tier_level on.
const SIZES: [(u32, u32, &[u8]); 8] = [
    (
        32,
        32,
        b"\x90\x08\x41\x0b\x2d\x77\x26\x2e\xf7\x4b\x89\xb8\x08\x68\x00\x04",
    ),
    (
        8,
        8,
        b"\x90\x24\x4b\x2d\x77\x26\x2e\xf7\x4b\x89\xb8\x08\x68\x00\x04",
    ),
    (
        32,
        96,
        b"\x90\x08\x40\xc2\xcb\x5d\xc9\x8b\xbd\xd2\xe2\x6e\x02\x1a\x00\x01",
    ),
    (
        64,
        64,
        b"\x90\x04\x10\x20\xb2\xd7\x72\x62\xef\x74\xb8\x9b\x80\x86\x80\x00\x40",
    ),
    (
        96,
        64,
        b"\x90\x06\x10\x20\xb2\xd7\x72\x62\xef\x74\xb8\x9b\x80\x86\x80\x00\x40",
    ),
    (
        33,
        17,
        b"\x90\x0a\x43\x38\x88\x8c\xb5\xdc\x98\xbb\xdd\x2e\x26\xe0\x21\xa0\x00\x10",
    ),
    (
        1,
        1,
        b"\x90\x24\x4e\x22\x23\x2d\x77\x26\x2e\xf7\x4b\x89\xb8\x08\x68\x00\x04",
    ),
    (
        4096,
        2160,
        b"\x90\x00\x10\x01\x00\x10\xe2\xcb\x5d\xc9\x8b\xbd\xd2\xe2\x6e\x02\x1a\x00\x01",
    ),
];

#[test]
fn writes_sets(rt: HostRuntime) -> Result<(), Fail> {
    for (w, h, middle) in SIZES {
        let size = Size::new(w, h).ok_or("no size")?;
        let out = write_params(
            rt.alloc(),
            &Params {
                size,
                segments: false,
            },
        )?;
        let mut want = FRONT.to_vec(rt.alloc())?;
        want.extend_from_slice(middle)?;
        want.extend_from_slice(BACK)?;
        assert_eq!(rt; out.as_slice(), want.as_slice());
    }
    Ok(())
}

#[test]
fn reads_back(rt: HostRuntime) -> Result<(), Fail> {
    for (w, h, middle) in SIZES {
        let mut stream = FRONT.to_vec(rt.alloc())?;
        stream.extend_from_slice(middle)?;
        stream.extend_from_slice(BACK)?;
        let found = units(rt.alloc(), &stream)?;
        assert!(rt; found.all().len() == 3);
        let params = read_params(found.all())?;
        assert_eq!(rt; params.size.w(), w);
        assert_eq!(rt; params.size.h(), h);
        assert!(rt; !params.segments);
    }
    Ok(())
}

// The picture parameter set of streams whose pictures have a segment for each row
const BACK_WITH_SEGMENTS: &[u8] = b"\x00\x00\x00\x01\x44\x01\xe0\x71\x8a\xa4\x80";

#[test]
fn tells_segments(rt: HostRuntime) -> Result<(), Fail> {
    for (w, h, middle) in SIZES {
        let size = Size::new(w, h).ok_or("no size")?;
        let out = write_params(
            rt.alloc(),
            &Params {
                size,
                segments: true,
            },
        )?;
        let mut want = FRONT.to_vec(rt.alloc())?;
        want.extend_from_slice(middle)?;
        want.extend_from_slice(BACK_WITH_SEGMENTS)?;
        assert_eq!(rt; out.as_slice(), want.as_slice());
        let found = units(rt.alloc(), &want)?;
        assert!(rt; found.all().len() == 3);
        match read_params(found.all()) {
            Ok(params) => assert!(rt; params.segments && w > 32),
            Err(bad) => {
                assert_eq!(rt; bad, BadParam { set: 2, field: 3 });
                assert!(rt; w <= 32);
            }
        }
    }
    Ok(())
}

// The three sets of 33x17
const SETS: [&[u8]; 3] = [
    b"\x0c\x01\xff\xff\x24\x08\x00\x00\x00\xbe\x08\x00\x00\x00\x00\x9c\xac\x09",
    b"\x01\x24\x08\x00\x00\x00\xbe\x08\x00\x00\x00\x00\x9c\x90\x0a\x43\x38\x88\x8c\xb5\xdc\x98\xbb\xdd\x2e\x26\xe0\x21\xa0\x00\x10",
    b"\xc0\x71\x8a\xa4\x80",
];

// A bit of a set and the field that differs where it is changed. The flag of segments isn't among them: both its values are read at this width.
const CHANGES: [(usize, usize, u32); 109] = [
    (0, 0, 1),
    (0, 4, 2),
    (0, 5, 3),
    (0, 6, 4),
    (0, 12, 5),
    (0, 15, 6),
    (0, 16, 7),
    (0, 32, 8),
    (0, 128, 9),
    (0, 129, 10),
    (0, 132, 11),
    (0, 133, 12),
    (0, 134, 13),
    (0, 140, 14),
    (0, 141, 15),
    (0, 142, 16),
    (0, 143, 17),
    (1, 0, 1),
    (1, 4, 2),
    (1, 7, 3),
    (1, 8, 4),
    (1, 104, 5),
    (1, 105, 6),
    (1, 110, 7),
    (1, 121, 8),
    (1, 130, 9),
    (1, 132, 11),
    (1, 136, 12),
    (1, 140, 13),
    (1, 144, 14),
    (1, 148, 15),
    (1, 149, 16),
    (1, 150, 17),
    (1, 155, 18),
    (1, 156, 19),
    (1, 159, 20),
    (1, 160, 21),
    (1, 161, 22),
    (1, 162, 23),
    (1, 165, 24),
    (1, 166, 25),
    (1, 171, 26),
    (1, 172, 27),
    (1, 173, 28),
    (1, 174, 29),
    (1, 175, 30),
    (1, 176, 31),
    (1, 177, 32),
    (1, 181, 33),
    (1, 185, 34),
    (1, 186, 35),
    (1, 189, 36),
    (1, 190, 37),
    (1, 193, 38),
    (1, 196, 39),
    (1, 197, 40),
    (1, 198, 41),
    (1, 199, 42),
    (1, 200, 43),
    (1, 201, 44),
    (1, 202, 45),
    (1, 203, 46),
    (1, 204, 47),
    (1, 205, 48),
    (1, 206, 49),
    (1, 209, 50),
    (1, 210, 51),
    (1, 211, 52),
    (1, 219, 53),
    (1, 227, 54),
    (1, 235, 55),
    (1, 236, 56),
    (1, 237, 57),
    (1, 238, 58),
    (1, 239, 59),
    (1, 240, 60),
    (1, 241, 61),
    (1, 242, 62),
    (1, 243, 63),
    (2, 0, 1),
    (2, 1, 2),
    (2, 3, 4),
    (2, 4, 5),
    (2, 7, 6),
    (2, 8, 7),
    (2, 9, 8),
    (2, 10, 9),
    (2, 11, 10),
    (2, 12, 11),
    (2, 13, 12),
    (2, 14, 13),
    (2, 15, 14),
    (2, 16, 15),
    (2, 17, 16),
    (2, 18, 17),
    (2, 19, 18),
    (2, 20, 19),
    (2, 21, 20),
    (2, 22, 21),
    (2, 23, 22),
    (2, 24, 23),
    (2, 25, 24),
    (2, 26, 25),
    (2, 27, 26),
    (2, 28, 27),
    (2, 29, 28),
    (2, 30, 29),
    (2, 31, 30),
    (2, 32, 31),
];

fn three_units(alloc: Global, sets: [&[u8]; 3], headers: [u8; 3]) -> Result<[Unit; 3], NoMemory> {
    let [vps, sps, pps] = sets;
    let [first, second, third] = headers;
    let vps = Bytes::from_vec(vps.to_vec(alloc)?);
    let sps = Bytes::from_vec(sps.to_vec(alloc)?);
    let pps = Bytes::from_vec(pps.to_vec(alloc)?);
    Ok([
        Unit {
            header: [first, 1],
            rbsp: vps,
        },
        Unit {
            header: [second, 1],
            rbsp: sps,
        },
        Unit {
            header: [third, 1],
            rbsp: pps,
        },
    ])
}

#[test]
fn reads_sets(rt: HostRuntime) -> Result<(), Fail> {
    let sets = three_units(rt.alloc(), SETS, [0x40, 0x42, 0x44])?;
    let params = read_params(&sets)?;
    assert_eq!(rt; params.size.w(), 33);
    assert_eq!(rt; params.size.h(), 17);
    Ok(())
}

#[test]
fn names_fields(rt: HostRuntime) -> Result<(), Fail> {
    for (set, bit, field) in CHANGES {
        assert!(rt; set < 3);
        let mut changed = SETS[set].to_vec(rt.alloc())?;
        assert!(rt; bit / 8 < changed.len());
        changed[bit / 8] ^= 0x80 >> (bit % 8);
        let mut sets = SETS;
        sets[set] = changed.as_slice();
        let sets = three_units(rt.alloc(), sets, [0x40, 0x42, 0x44])?;
        assert_eq!(rt;
            read_params(&sets),
            Err(BadParam {
                set: set as u32,
                field
            })
        );
    }
    Ok(())
}

#[test]
fn names_headers(rt: HostRuntime) -> Result<(), Fail> {
    let table = [
        ([0x42, 0x42, 0x44], 0),
        ([0x40, 0x40, 0x44], 1),
        ([0x40, 0x42, 0x42], 2),
        ([0x28, 0x28, 0x28], 0),
    ];
    for (headers, set) in table {
        let sets = three_units(rt.alloc(), SETS, headers)?;
        assert_eq!(rt; read_params(&sets), Err(BadParam { set, field: 0 }));
    }
    Ok(())
}

// The sequence parameter set of 33x17 that ends after so many bits, with zeros up to the byte: after fewer than these bits
// the field is the one that is named.
const CUTS: [(usize, u32); 47] = [
    (1, 1),
    (8, 3),
    (102, 4),
    (105, 5),
    (108, 6),
    (122, 8),
    (131, 9),
    (132, 15),
    (133, 11),
    (137, 12),
    (141, 13),
    (145, 14),
    (149, 15),
    (150, 16),
    (155, 17),
    (156, 18),
    (158, 19),
    (160, 20),
    (161, 21),
    (162, 22),
    (165, 23),
    (166, 24),
    (169, 25),
    (172, 26),
    (173, 27),
    (177, 31),
    (181, 32),
    (185, 33),
    (186, 34),
    (189, 35),
    (190, 36),
    (193, 37),
    (195, 38),
    (197, 39),
    (198, 40),
    (199, 41),
    (201, 43),
    (203, 45),
    (206, 48),
    (209, 49),
    (210, 50),
    (211, 51),
    (219, 52),
    (227, 53),
    (233, 54),
    (241, 60),
    (244, 63),
];

#[test]
fn names_where_it_ends(rt: HostRuntime) -> Result<(), Fail> {
    let mut start = 0;
    for (end, field) in CUTS {
        for bits in start..end {
            let whole = bits / 8;
            let part = bits % 8;
            assert!(rt; whole < SETS[1].len());
            let mut set = SETS[1][..whole].to_vec(rt.alloc())?;
            if part > 0 {
                set.push(SETS[1][whole] & !(0xFF >> part))?;
            }
            let mut sets = SETS;
            sets[1] = set.as_slice();
            let sets = three_units(rt.alloc(), sets, [0x40, 0x42, 0x44])?;
            assert_eq!(rt; read_params(&sets), Err(BadParam { set: 1, field }));
        }
        start = end;
    }
    assert_eq!(rt; start, 244);
    Ok(())
}

// A picture of 4096 by 4096, of which all sides are lawful and the area isn't.
const LARGE: &[u8] =
    b"\x01\x24\x08\x00\x00\x00\xbe\x08\x00\x00\x00\x00\x9c\x90\x00\x10\x01\x00\x08\x00\xb2\xd7\x72\x62\xef\x74\xb8\x9b\x80\x86\x80\x00\x40";

#[test]
fn names_the_area(rt: HostRuntime) -> Result<(), Fail> {
    let mut sets = SETS;
    sets[1] = LARGE;
    let sets = three_units(rt.alloc(), sets, [0x40, 0x42, 0x44])?;
    assert_eq!(rt; read_params(&sets), Err(BadParam { set: 1, field: 10 }));
    Ok(())
}

#[test]
fn errors_in_words(rt: HostRuntime) -> Result<(), Fail> {
    let error = BadParam { set: 2, field: 30 };
    assert_eq!(rt;
        format!(in rt.alloc(); "{error}")?.as_str(),
        "field 30 of parameter set 2 differs"
    );
    Ok(())
}
