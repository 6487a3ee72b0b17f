//! Binarisations as bypass bins (9.3.3).
ghost use Rattle.std.specs.Prelude.{◌≡◌, ◌≤◌, ◌<◌, ◌^◌};
ghost use Rattle.h265_model.specs.Binarise.{bypass_bins, tr, fl, eg};
ghost use Rattle.bin_items.specs.Growth.{IsOpen, Writes};

use crate::BinSink;
use h265_model::NoMemory;

/// Writes TR with the Rice parameter 0 (9.3.3.2): `value` ones, and a zero where `value` is below `limit`.
///
/// After `NoMemory` a front of these bins was taken.
pub fn write_tr<S: BinSink>(
    sink: &mut S,
    value: u32,
    parameter: u32,
    limit: u32,
) -> Result<(), NoMemory>
    requires not_ended { IsOpen (S.phase sink.old) }
    requires within { value ≤ limit }
    requires no_suffix { parameter ≡ 0 }
    ensures taken { Writes (bypass_bins (tr limit value)) (S.stands_for sink.old) (S.stands_for sink.new) result }
    ensures not_ended { IsOpen (S.phase sink.new) }
{
    let _none = parameter;
    write_ones(sink, value)?;
    if value < limit {
        sink.bypass(0, 1)?;
    }
    Ok(())
}

/// Writes FL (9.3.3.5): the `parameter` digits of `value`.
///
/// After `NoMemory` a front of these bins was taken.
pub fn write_fl<S: BinSink>(
    sink: &mut S,
    value: u32,
    parameter: u32,
    _limit: u32,
) -> Result<(), NoMemory>
    requires not_ended { IsOpen (S.phase sink.old) }
    requires few { parameter ≤ 8 }
    requires below { value < 2 ^ parameter }
    ensures taken { Writes (bypass_bins (fl parameter value)) (S.stands_for sink.old) (S.stands_for sink.new) result }
    ensures not_ended { IsOpen (S.phase sink.new) }
{
    sink.bypass(value, parameter)
}

/// Writes EGk, where k is `parameter` (9.3.3.3).
///
/// After `NoMemory` a front of these bins was taken.
pub fn write_eg<S: BinSink>(
    sink: &mut S,
    value: u32,
    parameter: u32,
    _limit: u32,
) -> Result<(), NoMemory>
    requires not_ended { IsOpen (S.phase sink.old) }
    requires below { value < 65535 }
    requires few { parameter ≤ 5 }
    ensures taken { Writes (bypass_bins (eg parameter value)) (S.stands_for sink.old) (S.stands_for sink.new) result }
    ensures not_ended { IsOpen (S.phase sink.new) }
{
    let mut ones = 0;
    let mut rest = value;
    while rest >= 1 << (parameter + ones) {
        rest -= 1 << (parameter + ones);
        ones += 1;
    }
    write_ones(sink, ones)?;
    sink.bypass(rest, parameter + ones + 1)
}

// Writes that many ones.
fn write_ones<S: BinSink>(sink: &mut S, count: u32) -> Result<(), NoMemory>
    requires not_ended { IsOpen (S.phase sink.old) }
    ensures taken { Writes (bypass_bins (tr count count)) (S.stands_for sink.old) (S.stands_for sink.new) result }
    ensures not_ended { IsOpen (S.phase sink.new) }
{
    let mut left = count;
    while left > 0 {
        let some = left.min(16);
        sink.bypass((1 << some) - 1, some)?;
        left -= some;
    }
    Ok(())
}
