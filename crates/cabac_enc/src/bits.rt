//! Lists of bits, the most significant bit first.
ghost use Rattle.std.specs.Prelude.{◌≡◌, ◌+◌, ◌*◌, ◌^◌, ◌<◌, ◌≤◌, ◌++◌, length, OnOk, OnErr, IfOk};
ghost use Rattle.h265_model.specs.Bits.{u, value, bits, bytes};

use h265_model::NoMemory;
use std::alloc::Global;

// The `count` low digits of a number behind the bits.
fn push_digits(list: &mut Vec<bool>, number: u32, count: u32) -> Result<(), NoMemory>
    requires few { count ≤ 16 }
    ensures ok { OnOk result (list.new.items ≡ list.old.items ++ u count number) }
    ensures err { OnErr result (list.new.items ≡ list.old.items) }
{
    let start = list.len();
    let mut left = count;
    while left > 0 {
        left -= 1;
        if list.push((number >> left) % 2 == 1).is_err() {
            list.truncate(start);
            return Err(NoMemory);
        }
    }
    Ok(())
}

// The number that the bits spell grows by 2^count.
fn raise(list: &mut Vec<bool>, count: u32)
    requires { count ≤ length list.old.items }
    ensures { list.new.items ≡ u (length list.old.items) (value list.old.items + 2 ^ count) }
{
    let mut place = list.len() - count as usize;
    while place > 0 {
        place -= 1;
        let raised = !list[place];
        list[place] = raised;
        if raised {
            return;
        }
    }
}

/// Makes the number that the bits spell 2^count times as large, and adds a number to it, which carries where it is too large.
pub(crate) fn append(list: &mut Vec<bool>, number: u32, count: u32) -> Result<(), NoMemory>
    requires few { count ≤ 16 }
    requires fits { number < 2 * 2 ^ count }
    ensures ok { OnOk result (list.new.items ≡ u (length list.old.items + count) (value list.old.items * 2 ^ count + number)) }
    ensures err { OnErr result (list.new.items ≡ list.old.items) }
{
    push_digits(list, number, count)?;
    if number >> count == 1 {
        raise(list, count);
    }
    Ok(())
}

/// The bits of some bytes behind the bits.
pub(crate) fn append_bytes(list: &mut Vec<bool>, some: &[u8]) -> Result<(), NoMemory>
    ensures ok { OnOk result (list.new.items ≡ list.old.items ++ bits some.now) }
    ensures err { OnErr result (list.new.items ≡ list.old.items) }
{
    let start = list.len();
    for byte in some {
        if push_digits(list, *byte as u32, 8).is_err() {
            list.truncate(start);
            return Err(NoMemory);
        }
    }
    Ok(())
}

/// The whole bytes of the bits.
pub(crate) fn to_bytes(alloc: Global, list: &[bool]) -> Result<Vec<u8>, NoMemory>
    ensures { IfOk result (λ found. found.items ≡ bytes list.now) }
{
    let mut found = Vec::new(alloc);
    let mut number = 0u32;
    let mut count = 0u32;
    for bit in list {
        number = 2 * number + *bit as u32;
        count += 1;
        if count == 8 {
            found.push(number as u8)?;
            number = 0;
            count = 0;
        }
    }
    Ok(found)
}
