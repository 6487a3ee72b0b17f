//! Rows of made-up coding tree units, whose bytes an independent model of the arithmetic code gave.
use crate::{ByteCoder, Ending, NoMemory, Size, SliceKind, UnitWriter, rows_in_order};
use bin_items::{Bin, BinSink, Place};
use std::test::Fail;

// Writes some bins of each coding tree unit, which tell its number.
#[derive(Drop)]
struct Numbers {
    size: Size,
}

impl UnitWriter for Numbers {
    ghost use Rattle.std.specs.Prelude.{◌≡◌, ◌∷◌, ◌%◌, ◌==◌, true};
    ghost use Rattle.h265_model.specs.Binarise.{bypass_bins, fl};
    ghost use Rattle.h265_model.specs.Plain.{context_bin};

    ghost size = { λ w. w.size };

    ghost items = { λ w ctu. context_bin (ctu % 3 == 0) (ctu % 130) ∷ context_bin true 5 ∷ context_bin true 5 ∷ bypass_bins (fl 8 (ctu % 256)) };

    ghost is_at = { λ w n. w.size ≡ w.size };

    fn write_ctu(&mut self, sink: &mut ByteCoder, ctu: u32) -> Result<(), NoMemory> {
        sink.bin(Bin {
            value: ctu % 3 == 0,
            place: Place::Context(ctu % 130),
        })?;
        sink.bin(Bin {
            value: true,
            place: Place::Context(5),
        })?;
        sink.bin(Bin {
            value: true,
            place: Place::Context(5),
        })?;
        sink.bypass(ctu % 256, 8)?;
        Ok(())
    }
}

// The kind of slice, the sides of the picture, how its rows end, and their bytes
type Case = (SliceKind, u32, u32, Ending, &'static [&'static [u8]]);

const CASES: [Case; 7] = [
    (
        SliceKind::I,
        20,
        70,
        Ending::Slice,
        &[&[0, 38, 160], &[0, 77, 160], &[200, 44, 104]],
    ),
    (
        SliceKind::I,
        20,
        70,
        Ending::Segment,
        &[&[0, 38, 224], &[0, 77, 224], &[200, 44, 104]],
    ),
    (
        SliceKind::P,
        40,
        70,
        Ending::Slice,
        &[&[0, 0, 47, 16], &[0, 140, 250, 208], &[2, 91, 215, 184]],
    ),
    (
        SliceKind::P,
        40,
        70,
        Ending::Segment,
        &[&[0, 0, 47, 48], &[0, 140, 250, 240], &[2, 91, 215, 184]],
    ),
    (
        SliceKind::I,
        130,
        40,
        Ending::Slice,
        &[
            &[0, 0, 12, 225, 64, 195, 250, 248],
            &[158, 14, 158, 93, 232, 122, 122, 120],
        ],
    ),
    (
        SliceKind::P,
        130,
        40,
        Ending::Segment,
        &[
            &[0, 0, 23, 173, 137, 43, 21],
            &[191, 142, 198, 77, 5, 37, 44, 128],
        ],
    ),
    (SliceKind::I, 40, 8, Ending::Segment, &[&[0, 0, 14, 156]]),
];

#[test]
fn rows_of_numbers(rt: HostRuntime) -> Result<(), Fail> {
    for (kind, w, h, ending, want) in CASES {
        let size = Size::new(w, h).ok_or("size")?;
        let mut writer = Numbers { size };
        let rows = rows_in_order(rt.alloc(), kind, size, ending, &mut writer)?;
        assert_eq!(rt; rows.len(), want.len());
        for row in 0..rows.len() {
            assert_eq!(rt;
                rows[row].as_slice(),
                want[row],
                "{w}x{h}, {ending:?}, row {row}"
            );
        }
    }
    Ok(())
}
