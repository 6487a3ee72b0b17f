//! A walk over a byte stream (B.2.1).
ghost use Rattle.std.specs.Prelude.{◌≡◌, List, [], ◌∷◌, Ok, Err, OnOk, OnErr, IfOk, IfErr, MatchOption};
ghost use Rattle.h265_model.specs.NalUnits.{NalUnit, units};
ghost use Rattle.annexb.specs.Walks.{first_header, units_from, IsWalked, IsAhead};

use crate::BadUnit;
use crate::payload::{check_payload, payload_len, unescape};
use crate::starts::{front_zeros, next_start};
use h265_model::NoMemory;
use std::marker::Model;

/// The NAL units of a byte stream, one after another. It borrows the bytes and keeps none of the NAL units.
///
/// Contracts see the NAL units that are left.
#[derive(Debug, Drop)]
pub struct Walk<'a> {
    bytes: &'a [u8],
    // The NAL units before this place were taken.
    place: usize,
}

impl<'a> Model for Walk<'a> {
    ghost use Rattle.std.specs.Prelude.{List};
    ghost use Rattle.h265_model.specs.NalUnits.{NalUnit};
    ghost use Rattle.annexb.specs.Walks.{units_from, IsWalked};

    ghost Value = { List NalUnit };

    ghost view = { λ w. units_from w.place w.bytes.now };

    ghost invariant = { λ w. IsWalked w.place w.bytes.now };
}

impl<'a> Walk<'a> {
    /// Checks the whole byte stream, as `units` does, and stands before its first NAL unit. It takes no memory.
    ///
    /// `BadUnit` names the place that `units` names.
    pub fn new(bytes: &'a [u8]) -> Result<Walk<'a>, BadUnit>
        ensures read { IfOk result (λ walk. units bytes.now ≡ Ok walk) }
        ensures refused { IfErr result (λ bad. units bytes.now ≡ Err bad.at) }
    {
        check(bytes)?;
        Ok(Walk { bytes, place: 0 })
    }

    /// A second walk over the same bytes that stands where this one does.
    pub fn twin(&self) -> Walk<'a>
        ensures { result ≡ self.now }
    {
        Walk {
            bytes: self.bytes,
            place: self.place,
        }
    }

    /// The header of the next NAL unit. It takes no memory.
    pub fn header(&self) -> Option<[u8; 2]>
        ensures { result ≡ first_header self.now }
    {
        let start = ahead(self.bytes, self.place)?;
        Some([self.bytes[start], self.bytes[start + 1]])
    }

    /// Takes the next NAL unit: answers its header, and puts its payload without emulation prevention (7.3.1.1) in `rbsp`, whose
    /// old bytes go. Without a next NAL unit nothing is known of the bytes in `rbsp`.
    ///
    /// After `NoMemory` the walk stands where it stood.
    pub fn next(&mut self, rbsp: &mut Vec<u8>) -> Result<Option<[u8; 2]>, NoMemory>
        ensures taken { IfOk result (λ found. MatchOption found
            ((self.old ≡ []) × (self.new ≡ []))
            (λ header. self.old ≡ record { header = header; rbsp = rbsp.new.items } ∷ self.new)) }
        ensures err { OnErr result (self.new ≡ self.old) }
    {
        let Some(start) = ahead(self.bytes, self.place) else {
            return Ok(None);
        };
        let rest = &self.bytes[start..];
        let payload = &rest[..payload_len(rest)];
        let header = [payload[0], payload[1]];
        unescape(rbsp, &payload[2..])?;
        self.place = start + payload.len();
        Ok(Some(header))
    }
}

// Checks a whole byte stream.
fn check(bytes: &[u8]) -> Result<(), BadUnit>
    ensures read { OnOk result ((list : List NalUnit) × (units bytes.now ≡ Ok list)) }
    ensures refused { IfErr result (λ bad. units bytes.now ≡ Err bad.at) }
{
    let len = bytes.len();
    if len > 0 && front_zeros(bytes) == len {
        return Err(BadUnit { at: len as u64 });
    }
    let mut place = 0;
    while let Some(start) = next_start(bytes, place)? {
        let rest = &bytes[start..];
        let payload = &rest[..payload_len(rest)];
        check_payload(start, payload)?;
        place = start + payload.len();
    }
    Ok(())
}

// Where the payload of the next NAL unit starts, none where no NAL unit is left.
fn ahead(bytes: &[u8], place: usize) -> Option<usize>
    requires { IsWalked place bytes.now }
    ensures { MatchOption result (units_from place bytes.now ≡ []) (λ start. IsAhead place start bytes.now) }
{
    match next_start(bytes, place) {
        Ok(start) => start,
        Err(_) => None,
    }
}
