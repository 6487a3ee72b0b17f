//! Reading a byte stream (B.2.1).
ghost use Rattle.std.specs.Prelude.{◌≡◌, Ok, IfOk, IfErr};
ghost use Rattle.h265_model.specs.NalUnits.{units};
ghost use Rattle.annexb.specs.Refusals.{IsRefusal};

use crate::{Unit, Units, UnitsError, Walk};
use h265_model::Bytes;
use std::alloc::Global;

/// The NAL units of a byte stream: any zeros, then for each NAL unit 00 00 01, a payload of at least two bytes, and any zeros.
///
/// A payload ends before 00 00 00 and 00 00 01, before zeros up to the end, and at the end. A stream of no bytes has no NAL
/// units. `BadUnit` names the first of these places: a byte other than 00 and 01 where a start code must come; a 01 there that
/// follows fewer than two zeros; the end, where only zeros were read; the start of a payload of fewer than two bytes; a 02 after
/// 00 00, and a byte above 03 after 00 00 03, within a payload (7.4.2.1).
pub fn units(alloc: Global, bytes: &[u8]) -> Result<Units, UnitsError>
    ensures read { IfOk result (λ list. units bytes.now ≡ Ok list) }
    ensures refused { IfErr result (IsRefusal (units bytes.now)) }
{
    let mut walk = Walk::new(bytes)?;
    let mut list = Vec::new(alloc);
    loop {
        let mut rbsp = Vec::new(alloc);
        let Some(header) = walk.next(&mut rbsp)? else {
            return Ok(Units::from_vec(list));
        };
        let rbsp = Bytes::from_vec(rbsp);
        list.push(Unit { header, rbsp })?;
    }
}
