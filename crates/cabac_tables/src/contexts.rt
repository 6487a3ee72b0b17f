//! The contexts of a slice.
ghost use Rattle.std.specs.Prelude.{◌≡◌, ◌<◌, ◌≤◌, get_or};
ghost use Rattle.h265_model.specs.Contexts.{start, step, AreContexts};

use crate::SliceKind;
use crate::tables::{START_I, START_P};
use crate::transitions::next;
use std::marker::Model;

/// The 130 contexts, seen as their bytes. A byte is twice pStateIdx and valMps, and below 126.
#[derive(Clone, Copy, Debug)]
pub struct Contexts {
    bytes: [u8; 130],
}

impl Model for Contexts {
    ghost use Rattle.std.specs.Prelude.{List, ℕ};
    ghost use Rattle.cabac_tables.specs.States.{AreStates};

    ghost Value = { List ℕ };

    ghost view = { λ c. c.bytes };

    ghost invariant = { λ c. AreStates c.bytes };

    ghost inverse = { λ bytes. record { bytes = bytes } };
}

impl Contexts {
    /// The contexts at the start of a slice of this kind, at the quantisation parameter 26 (9.3.2.2).
    pub fn start(kind: SliceKind) -> Contexts
        ensures { result ≡ start kind }
    {
        match kind {
            SliceKind::I => Contexts { bytes: START_I },
            SliceKind::P => Contexts { bytes: START_P },
        }
    }

    /// The byte of context `n`.
    #[inline(always)]
    pub fn get(&self, n: u32) -> u8
        requires { n < 130 }
        ensures value { result ≡ get_or self.now n 0 }
        ensures below { result < 126 }
    {
        self.bytes[n as usize]
    }

    /// The bytes of all contexts.
    pub fn as_slice(&self) -> &[u8]
        ensures value { result.now ≡ self.now }
        ensures contexts { AreContexts self.now }
    {
        &self.bytes
    }

    /// Steps context `n` by a bin (9.3.4.3.2.2).
    #[inline(always)]
    pub fn step(&mut self, n: u32, bin: bool)
        requires { n < 130 }
        ensures { self.new ≡ step self.old n bin }
    {
        let state = self.bytes[n as usize];
        self.bytes[n as usize] = next(state, bin);
    }
}
