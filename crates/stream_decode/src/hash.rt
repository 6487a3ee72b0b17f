//! The hash that may follow a picture.
ghost use Rattle.std.specs.Prelude.{◌≡◌};
ghost use Rattle.stream_decode.specs.Steps.{PassesHash};

use crate::DecodeError;
use crate::cursor::Cursor;
use pic_hash::hash_fits;
use px_plane::Picture;
use std::alloc::Global;

/// Reads the hash of the picture that was just read, if the next NAL unit is one (7.4.2.4.4, D.3.19).
///
/// `BadStream` names a hash that isn't that of the picture.
pub(crate) fn pass_hash(
    alloc: Global,
    picture: &Picture,
    cursor: &mut Cursor,
    rbsp: &mut Vec<u8>,
) -> Result<(), DecodeError>
    ensures { PassesHash result picture.now cursor.old cursor.new }
{
    if !cursor.is_at_hash() {
        return Ok(());
    }
    let at = cursor.number();
    match cursor.next(rbsp)? {
        None => Ok(()),
        Some(_) => {
            if hash_fits(alloc, picture, rbsp)? {
                Ok(())
            } else {
                Err(DecodeError::BadStream { at })
            }
        }
    }
}
