//! NAL units.
use h265_model::Bytes;
use std::marker::Model;

/// A NAL unit: the two bytes of its header, and the bytes of its payload without emulation prevention (7.3.1.1).
#[derive(Debug, Drop)]
pub struct Unit {
    pub header: [u8; 2],
    pub rbsp: Bytes,
}

impl Model for Unit {
    ghost use Rattle.h265_model.specs.NalUnits.{NalUnit};

    ghost Value = { NalUnit };

    ghost view = { λ u. record { header = u.header; rbsp = u.rbsp } };
}

/// The NAL units of a byte stream, in their order.
#[derive(Debug, Drop)]
pub struct Units {
    list: Vec<Unit>,
}

impl Model for Units {
    ghost use Rattle.std.specs.Prelude.{List};
    ghost use Rattle.h265_model.specs.NalUnits.{NalUnit};

    ghost Value = { List NalUnit };

    ghost view = { λ u. u.list.items };
}

impl Units {
    ghost use Rattle.std.specs.Prelude.{◌≡◌};

    /// Takes the `Vec`.
    pub(crate) fn from_vec(list: Vec<Unit>) -> Units
        ensures { result ≡ list.items }
    {
        Units { list }
    }

    /// Lends the list.
    pub fn all(&self) -> &[Unit]
        ensures { result.now ≡ self.now }
    {
        &self.list
    }
}
