//! The NAL units of a stream that are still to be read, with their numbers.
ghost use Rattle.std.specs.Prelude.{◌≡◌, ◌+◌, ◌<◌, ◌^◌, ◌∷◌, [], length, IfOk, OnErr, MatchOption};
ghost use Rattle.annexb.specs.Walks.{first_header};
ghost use Rattle.stream_decode.specs.Steps.{is_hash_next};
ghost use Rattle.h265_model.specs.Decode.{units_or_number};
ghost use Rattle.stream_decode.specs.Steps.{OpensUnits};

use crate::DecodeError;
use annexb::{Walk, start_codes};
use h265_model::NoMemory;
use pic_hash::HASH_HEADER;
use std::marker::Model;

/// A place between two NAL units of a stream, all of whose NAL units are numbered from 0.
#[derive(Debug, Drop)]
pub(crate) struct Cursor<'a> {
    walk: Walk<'a>,
    number: u32,
}

impl<'a> Model for Cursor<'a> {
    ghost use Rattle.std.specs.Prelude.{◌+◌, ◌<◌, ◌^◌, length};
    ghost use Rattle.stream_decode.specs.Steps.{Units};

    ghost Value = { Units };

    ghost view = { λ c. record { number = c.number; list = c.walk } };

    ghost invariant = { λ c. c.number + length c.walk < 2 ^ 32 };
}

impl<'a> Cursor<'a> {
    /// The front of a byte stream.
    ///
    /// `BadStream` names the NAL unit that the byte stream's syntax refuses.
    pub fn new(bytes: &'a [u8]) -> Result<Cursor<'a>, DecodeError>
        requires { length bytes.now < 2 ^ 32 }
        ensures { OpensUnits (units_or_number bytes.now) result }
    {
        match Walk::new(bytes) {
            Ok(walk) => Ok(Cursor { walk, number: 0 }),
            Err(bad) => {
                let end = bytes.len().min(bad.at as usize);
                Err(DecodeError::BadStream {
                    at: start_codes(&bytes[..end]).saturating_sub(1),
                })
            }
        }
    }

    /// The same place once more.
    pub fn twin(&self) -> Cursor<'a>
        ensures { result ≡ self.now }
    {
        Cursor {
            walk: self.walk.twin(),
            number: self.number,
        }
    }

    /// The number of the next NAL unit.
    pub fn number(&self) -> u32
        ensures { result ≡ self.now.number }
    {
        self.number
    }

    /// The header of the next NAL unit.
    pub fn header(&self) -> Option<[u8; 2]>
        ensures { result ≡ first_header self.now.list }
    {
        self.walk.header()
    }

    /// Whether the next NAL unit has the header of a hash.
    pub fn is_at_hash(&self) -> bool
        ensures { result ≡ is_hash_next self.now.list }
    {
        match self.walk.header() {
            None => false,
            Some(header) => header == HASH_HEADER,
        }
    }

    /// Takes the next NAL unit: answers its header, and puts its payload without emulation prevention in `rbsp`.
    ///
    /// After `NoMemory` it stands where it stood.
    pub fn next(&mut self, rbsp: &mut Vec<u8>) -> Result<Option<[u8; 2]>, NoMemory>
        ensures taken { IfOk result (λ found. MatchOption found
            ((self.old.list ≡ []) × (self.new ≡ self.old))
            (λ header. (self.old.list ≡ record { header = header; rbsp = rbsp.new.items } ∷ self.new.list) × (self.new.number ≡ self.old.number + 1))) }
        ensures err { OnErr result (self.new ≡ self.old) }
    {
        let found = self.walk.next(rbsp)?;
        if found.is_some() {
            self.number += 1;
        }
        Ok(found)
    }
}
