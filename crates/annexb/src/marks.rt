//! Bytes that stand after two zeros.
ghost use Rattle.std.specs.Prelude.{◌<◌, ◌≤◌, length};
ghost use Rattle.annexb.specs.Marks.{ArePlain, IsMark};

/// The place of the first byte from `least` to `most` that follows two zeros, or the length.
///
/// A byte above `most` rules out three places at once, so most bytes aren't looked at.
pub fn find_mark(bytes: &[u8], least: u8, most: u8) -> usize
    ensures within { result ≤ length bytes.now }
    ensures plain { ArePlain least most bytes.now result }
    ensures mark { result < length bytes.now → IsMark least most bytes.now result }
{
    let mut place = 2;
    while place < bytes.len() {
        let byte = bytes[place];
        if byte > most {
            place += 3;
        } else if byte >= least && bytes[place - 1] == 0 && bytes[place - 2] == 0 {
            return place;
        } else if byte == 0 {
            place += 1;
        } else {
            place += 3;
        }
    }
    bytes.len()
}
