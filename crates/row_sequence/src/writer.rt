//! What writes coding tree units, and how rows of them end.
ghost use Rattle.std.specs.Prelude.{◌≡◌, ◌<◌, ◌+◌, ℕ, List, OnOk};
ghost use Rattle.h265_model.specs.declared.Item.{Item};
ghost use Rattle.h265_model.specs.Plain.{Size as TheSize};
ghost use Rattle.h265_model.specs.Tiles.{tile_count};
ghost use Rattle.bin_items.specs.Growth.{IsOpen, Grew};
ghost use Rattle.cabac_bytes.specs.State.{stands_for, phase_of};

use cabac_bytes::ByteCoder;
use h265_model::NoMemory;

/// How the rows of a picture end.
#[derive(Clone, Copy, Debug, PartialEq, Eq)]
pub enum Ending {
    /// The picture is one slice segment: a row but the last ends with end_of_subset_one_bit, and end_of_slice_segment_flag is 1 after the last coding tree
    /// unit of the picture.
    Slice,
    /// Each row is a slice segment: end_of_slice_segment_flag is 1 after its last coding tree unit.
    Segment,
}

/// Writes the coding tree units of a picture, one after another from the first on.
pub trait UnitWriter {
    /// The size of the picture.
    ghost size: { Self → TheSize };

    /// What is written of each coding tree unit of the picture, by its number in rows from the top (7.3.8.2).
    ghost items: { Self → ℕ → List Item };

    /// So many coding tree units were written.
    ghost is_at: { Self → ℕ → Type 0 };

    /// Writes the next coding tree unit, without the flag after it. `ctu` is its number. After `NoMemory` no other is written.
    fn write_ctu(&mut self, sink: &mut ByteCoder, ctu: u32) -> Result<(), NoMemory>
        requires next { is_at self.old ctu }
        requires inside { ctu < tile_count (size self.old) }
        requires not_ended { IsOpen (phase_of sink.old) }
        ensures size { size self.new ≡ size self.old }
        ensures items { items self.new ≡ items self.old }
        ensures taken { OnOk result (Grew (items self.old ctu) (stands_for sink.old) (stands_for sink.new)) }
        ensures not_ended { OnOk result (IsOpen (phase_of sink.new)) }
        ensures next { OnOk result (is_at self.new (ctu + 1)) };
}
