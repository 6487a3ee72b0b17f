//! What a slice segment header tells.
use h265_model::Numbers;
use std::marker::Model;

/// What the header of a picture tells; all else in it is fixed.
#[derive(Debug, Drop)]
pub struct Head {
    /// Whether the picture is an IDR picture, of an I slice. Any other is of a P slice.
    pub idr: bool,
    /// The low 8 bits of the picture order count; 0 for an IDR picture.
    pub poc: u32,
    /// For each row of coding tree units but the last, how many bytes its substream has, with emulation prevention.
    pub offsets: Numbers,
}

impl Model for Head {
    ghost use Rattle.std.specs.Prelude.{◌≡◌, ◌<◌, true};
    ghost use Rattle.h265_model.specs.SliceHead as specified;

    ghost Value = { specified.Head };

    ghost view = { λ h. record { idr = h.idr; poc = h.poc; offsets = h.offsets } };

    ghost invariant = { λ h. (h.poc < 256) × (h.idr ≡ true → h.poc ≡ 0) };
}
