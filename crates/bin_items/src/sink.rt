//! What takes bins and samples.
ghost use Rattle.std.specs.Prelude.{◌≡◌, ◌≤◌, ◌<◌, [], ◌∷◌, length, OnOk, OnErr};
ghost use Rattle.h265_model.specs.Code.{Phase, Ended, Filled, phase_after, InRange};
ghost use Rattle.h265_model.specs.Binarise.{bypass_bins, fl};
ghost use Rattle.h265_model.specs.declared.Item.TheVariants as items;
ghost use Rattle.bin_items.specs.Growth.{Meaning, IsOpen, Takes, Writes, sample_items};

use h265_model::{Bin, NoMemory, Place};

/// What takes the bins and samples of a slice's data (7.3.8), one after another.
///
/// After a terminating bin 1 samples come, or nothing (9.3.2.5). A call that answers `NoMemory` leaves the phase as it was.
pub trait BinSink {
    /// What may come next: samples after a terminating bin 1, and a bin else.
    ghost phase: { Self → Phase };

    /// The lists of items that it stands for, each from some contexts. It need not keep any.
    ghost stands_for: { Self → Meaning };

    /// Takes a bin. A context has a number below 130.
    fn bin(&mut self, bin: Bin) -> Result<(), NoMemory>
        requires not_ended { IsOpen (phase self.old) }
        requires in_range { InRange bin.place }
        ensures taken { Takes (items.Bin bin ∷ []) (stands_for self.old) (stands_for self.new) result }
        ensures phase { OnOk result (phase self.new ≡ phase_after bin.place bin.value) }
        ensures err { OnErr result (phase self.new ≡ phase self.old) };

    /// Takes the samples of a PCM coding unit (7.3.8.7), after a terminating bin 1.
    fn pcm(&mut self, samples: &[u8]) -> Result<(), NoMemory>
        requires ended { phase self.old ≡ Ended }
        requires some { 0 < length samples.now }
        ensures taken { Takes (sample_items samples.now) (stands_for self.old) (stands_for self.new) result }
        ensures phase { OnOk result (phase self.new ≡ Filled) }
        ensures err { OnErr result (phase self.new ≡ phase self.old) };

    /// Takes `count` bypass bins: the low `count` bits of `value`, the most significant first (9.3.3.5).
    ///
    /// After `NoMemory` it took a front of them.
    fn bypass(&mut self, value: u32, count: u32) -> Result<(), NoMemory>
        requires not_ended { IsOpen (phase self.old) }
        requires few { count ≤ 32 }
        ensures taken { Writes (bypass_bins (fl count value)) (stands_for self.old) (stands_for self.new) result }
        ensures not_ended { IsOpen (phase self.new) }
    {
        let mut left = count;
        while left > 0 {
            left -= 1;
            self.bin(Bin {
                value: value >> left & 1 == 1,
                place: Place::Bypass,
            })?;
        }
        Ok(())
    }
}
