//! One NAL unit: where it ends, and what it holds (7.3.1.1, B.2.1).
ghost use Rattle.std.specs.Prelude.{ℕ, ◌≡◌, ◌+◌, ◌<◌, ◌≤◌, ◌≢◌, length, take, slice_index, None, Some, Ok, Err, OnOk, IfErr, MatchOption};
ghost use Rattle.h265_model.specs.NalUnits.{NalUnit, payload, forbidden, unescape, nal_unit_of};

use crate::BadUnit;
use crate::marks::find_mark;
use h265_model::NoMemory;

/// The length of the payload at the front of these bytes.
pub fn payload_len(bytes: &[u8]) -> usize
    ensures within { result ≤ length bytes.now }
    ensures front { payload bytes.now ≡ take result bytes.now }
{
    let mark = find_mark(bytes, 0, 1);
    if mark < bytes.len() {
        mark - 2
    } else {
        without_final_zeros(bytes)
    }
}

fn without_final_zeros(bytes: &[u8]) -> usize
    ensures within { result ≤ length bytes.now }
    ensures zeros { (k : ℕ) → result ≤ k → k < length bytes.now → slice_index bytes.now k ≡ 0 }
    ensures last { (k : ℕ) → result ≡ k + 1 → slice_index bytes.now k ≢ 0 }
{
    let mut len = bytes.len();
    while len > 0 && bytes[len - 1] == 0 {
        len -= 1;
    }
    len
}

/// Checks the payload of a NAL unit, which starts at place `at` of its stream.
pub fn check_payload(at: usize, payload: &[u8]) -> Result<(), BadUnit>
    requires { at + length payload.now ≤ usize.MAX }
    ensures read { OnOk result ((unit : NalUnit) × (nal_unit_of at payload.now ≡ Ok unit)) }
    ensures refused { IfErr result (λ bad. nal_unit_of at payload.now ≡ Err bad.at) }
{
    if payload.len() < 2 {
        return Err(BadUnit { at: at as u64 });
    }
    match forbidden_place(payload) {
        Some(place) => {
            let at = (at + place) as u64;
            Err(BadUnit { at })
        }
        None => Ok(()),
    }
}

// The first place of a byte that no payload may have there (7.4.2.1).
fn forbidden_place(bytes: &[u8]) -> Option<usize>
    ensures { MatchOption result
        ((at : ℕ) → forbidden at bytes.now ≡ None)
        (λ place. (place < length bytes.now) × ((at : ℕ) → forbidden at bytes.now ≡ Some (at + place))) }
{
    let mut passed = 0;
    let mut rest = bytes;
    loop {
        let mark = find_mark(rest, 2, 3);
        if mark == rest.len() {
            return None;
        }
        if rest[mark] == 2 {
            return Some(passed + mark);
        }
        let next = mark + 1;
        if next < rest.len() && rest[next] > 3 {
            return Some(passed + next);
        }
        passed += next;
        rest = &rest[next..];
    }
}

/// Puts the bytes without each 03 that follows two zeros in place of what `out` held (7.3.1.1).
pub fn unescape(out: &mut Vec<u8>, bytes: &[u8]) -> Result<(), NoMemory>
    ensures { OnOk result (out.new.items ≡ unescape bytes.now) }
{
    out.clear();
    out.reserve(bytes.len())?;
    let mut rest = bytes;
    loop {
        let mark = find_mark(rest, 3, 3);
        out.extend_from_slice(&rest[..mark])?;
        if mark == rest.len() {
            return Ok(());
        }
        rest = &rest[mark + 1..];
    }
}
