//! Flags with a context, and bins in bypass mode.
ghost use Rattle.std.specs.Prelude.{◌<◌, ◌∷◌, []};
ghost use Rattle.h265_model.specs.Plain.{context_bin, bypass_bin};
ghost use Rattle.bin_items.specs.Growth.{IsOpen, Takes};

use bin_items::{Bin, BinSink, NoMemory, Place};

/// Writes a flag with this context.
#[inline(always)]
pub(crate) fn write_flag<S: BinSink>(
    sink: &mut S,
    value: bool,
    context: u32,
) -> Result<(), NoMemory>
    requires context { context < 130 }
    requires not_ended { IsOpen (S.phase sink.old) }
    ensures taken { Takes (context_bin value context ∷ []) (S.stands_for sink.old) (S.stands_for sink.new) result }
    ensures not_ended { IsOpen (S.phase sink.new) }
{
    sink.bin(Bin {
        value,
        place: Place::Context(context),
    })
}

/// Writes a bin in bypass mode.
#[inline(always)]
pub(crate) fn write_bypass<S: BinSink>(sink: &mut S, value: bool) -> Result<(), NoMemory>
    requires not_ended { IsOpen (S.phase sink.old) }
    ensures taken { Takes (bypass_bin value ∷ []) (S.stands_for sink.old) (S.stands_for sink.new) result }
    ensures not_ended { IsOpen (S.phase sink.new) }
{
    sink.bin(Bin {
        value,
        place: Place::Bypass,
    })
}
