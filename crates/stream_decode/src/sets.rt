//! The parameter sets at the front of a stream.
ghost use Rattle.std.specs.Prelude.{◌≡◌};
ghost use Rattle.stream_decode.specs.Sets.{ReadsSets, TakesUnit};

use crate::DecodeError;
use crate::cursor::Cursor;
use annexb::Unit;
use h265_model::Bytes;
use param_sets::{Params, read_params};
use std::alloc::Global;

// Takes the next NAL unit. `BadStream` names the one that is missing.
fn take_unit(alloc: Global, cursor: &mut Cursor) -> Result<Unit, DecodeError>
    ensures { TakesUnit result cursor.old cursor.new }
{
    let at = cursor.number();
    let mut rbsp = Vec::new(alloc);
    let Some(header) = cursor.next(&mut rbsp)? else {
        return Err(DecodeError::BadStream { at });
    };
    Ok(Unit {
        header,
        rbsp: Bytes::from_vec(rbsp),
    })
}

/// Reads the three parameter sets at the front of a stream (7.4.2.4.2).
///
/// `BadStream` names the parameter set that fails, or the number of NAL units where these are fewer than three.
pub(crate) fn read_sets(alloc: Global, cursor: &mut Cursor) -> Result<Params, DecodeError>
    requires { cursor.old.number ≡ 0 }
    ensures { ReadsSets result cursor.old cursor.new }
{
    let video = take_unit(alloc, cursor)?;
    let sequence = take_unit(alloc, cursor)?;
    let picture = take_unit(alloc, cursor)?;
    match read_params(&[video, sequence, picture]) {
        Ok(params) => Ok(params),
        Err(bad) => Err(DecodeError::BadStream { at: bad.set }),
    }
}
