//! Start codes (B.2.1).
ghost use Rattle.std.specs.Prelude.{ℕ, ◌≡◌, ◌+◌, ◌^◌, ◌<◌, ◌≤◌, ◌≢◌, length, drop, slice_index, None, Some, Ok, Err, IfOk, IfErr, MatchOption};
ghost use Rattle.h265_model.specs.NalUnits.{next_start};
ghost use Rattle.h265_model.specs.Decode.{start_codes};

use crate::BadUnit;
use crate::marks::find_mark;

/// How many start codes 00 00 01 stand in these bytes (B.2.2).
pub fn start_codes(bytes: &[u8]) -> u32
    requires { length bytes.now < 2 ^ 32 }
    ensures { result ≡ start_codes bytes.now }
{
    let mut count = 0;
    let mut rest = bytes;
    loop {
        let mark = find_mark(rest, 1, 1);
        if mark == rest.len() {
            return count;
        }
        count += 1;
        rest = &rest[mark + 1..];
    }
}

/// The place after the next start code, none where only zeros are left.
pub(crate) fn next_start(bytes: &[u8], place: usize) -> Result<Option<usize>, BadUnit>
    requires { place ≤ length bytes.now }
    ensures found { IfOk result (λ start. MatchOption start
        (next_start place 0 (drop place bytes.now) ≡ Ok None)
        (λ after. (place < after) × (after ≤ length bytes.now) × (next_start place 0 (drop place bytes.now) ≡ Ok (Some (after, drop after bytes.now))))) }
    ensures refused { IfErr result (λ bad. next_start place 0 (drop place bytes.now) ≡ Err bad.at) }
{
    let rest = &bytes[place..];
    let zeros = front_zeros(rest);
    if zeros == rest.len() {
        Ok(None)
    } else if zeros >= 2 && rest[zeros] == 1 {
        Ok(Some(place + zeros + 1))
    } else {
        let at = (place + zeros) as u64;
        Err(BadUnit { at })
    }
}

/// How many zeros stand at the front.
pub(crate) fn front_zeros(bytes: &[u8]) -> usize
    ensures within { result ≤ length bytes.now }
    ensures zeros { (k : ℕ) → k < result → slice_index bytes.now k ≡ 0 }
    ensures other { result < length bytes.now → slice_index bytes.now result ≢ 0 }
{
    let mut zeros = 0;
    while zeros < bytes.len() && bytes[zeros] == 0 {
        zeros += 1;
    }
    zeros
}
