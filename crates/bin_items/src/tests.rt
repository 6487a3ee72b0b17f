//! Items, binarisations and blocks.
use crate::{Bin, BinSink, Block, Item, ItemList, Place, write_eg, write_fl, write_tr};
use std::test::Fail;

// Whether these are bypass bins of these digits, each written as a character.
fn are_digits(items: &[Item], digits: &[u8]) -> bool {
    items.len() == digits.len()
        && items.iter().zip(digits).all(|(item, digit)| {
            *item
                == Item::Bin(Bin {
                    value: *digit == b'1',
                    place: Place::Bypass,
                })
        })
}

#[test]
fn truncated_codes(rt: HostRuntime) -> Result<(), Fail> {
    for (value, limit, digits) in [
        (0, 0, "".as_bytes()),
        (0, 4, b"0"),
        (3, 4, b"1110"),
        (4, 4, b"1111"),
        (17, 18, b"111111111111111110"),
    ] {
        let mut list = ItemList::new(rt.alloc());
        write_tr(&mut list, value, 0, limit)?;
        assert!(rt; are_digits(list.as_slice(), digits));
    }
    Ok(())
}

#[test]
fn fixed_codes(rt: HostRuntime) -> Result<(), Fail> {
    for (value, width, digits) in [
        (0, 0, "".as_bytes()),
        (1, 1, b"1"),
        (5, 4, b"0101"),
        (200, 8, b"11001000"),
    ] {
        let mut list = ItemList::new(rt.alloc());
        write_fl(&mut list, value, width, 0)?;
        assert!(rt; are_digits(list.as_slice(), digits));
    }
    Ok(())
}

#[test]
fn exp_golomb_codes(rt: HostRuntime) -> Result<(), Fail> {
    for (value, k, digits) in [
        (0, 0, "0".as_bytes()),
        (1, 0, b"100"),
        (2, 0, b"101"),
        (6, 0, b"11011"),
        (3, 1, b"1001"),
        (40, 5, b"10001000"),
        (65534, 0, b"1111111111111110111111111111111"),
    ] {
        let mut list = ItemList::new(rt.alloc());
        write_eg(&mut list, value, k, 0)?;
        assert!(rt; are_digits(list.as_slice(), digits));
    }
    Ok(())
}

#[test]
fn items(rt: HostRuntime) -> Result<(), Fail> {
    let flag = Bin {
        value: true,
        place: Place::Context(129),
    };
    let end = Bin {
        value: true,
        place: Place::Terminate,
    };
    let mut list = ItemList::new(rt.alloc());
    list.bin(flag)?;
    list.bin(end)?;
    list.pcm(&[7, 255])?;
    list.bypass(0b10, 2)?;
    let digit = |value| Item::Bin(Bin {
        value,
        place: Place::Bypass,
    });
    assert_eq!(rt;
        list.as_slice(),
        [
            Item::Bin(flag),
            Item::Bin(end),
            Item::Sample(7),
            Item::Sample(255),
            digit(true),
            digit(false),
        ]
        .as_slice()
    );
    Ok(())
}

#[test]
fn blocks(rt: HostRuntime) -> Result<(), Fail> {
    let mut block = Block::zero(3);
    assert_eq!(rt; block.log2(), 3);
    block.set(7, 1, -255);
    assert_eq!(rt; block.get(7, 1), -255);
    assert_eq!(rt; block.get(1, 7), 0);
    assert_eq!(rt; block.as_slice().len(), 64);
    let all = block.as_slice();
    assert!(rt; all.iter().position(|value| *value == -255) == Some(15));
    Ok(())
}
