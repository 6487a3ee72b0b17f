//! Decimal numbers.
ghost use Rattle.std.specs.Prelude.{◌≡◌, ◌≤◌, ◌&&◌, not, nat_le, if◌then◌else◌};
ghost use Rattle.std.specs.Option.{IfSome};
ghost use Rattle.std.specs.Str.Parse.{digits_value};
ghost use Rattle.recorder_model.specs.Script as script;

/// The number that a word spells in decimal digits, without a leading zero. `None` exactly where the word isn't such a
/// number, or is one above `most`.
pub fn number_up_to(word: &[u8], most: u64) -> Option<u64>
    ensures value { result ≡ script.number_up_to most word.now }
    ensures within { IfSome result (λ n. n ≤ most) }
{
    if lacks_first_digit(word) {
        None
    } else {
        value_up_to(word, most)
    }
}

// Whether a word is empty, or has a zero before other bytes.
fn lacks_first_digit(word: &[u8]) -> bool
    ensures { script.is_numeral word.now ≡ (not result && script.all_digits word.now) }
{
    match word {
        [] => true,
        [_] => false,
        [first, ..] => *first == b'0',
    }
}

// The value of a text, if all of it is digits, and it is at most `most`.
fn value_up_to(text: &[u8], most: u64) -> Option<u64>
    ensures value { result ≡ (if script.all_digits text.now && nat_le (digits_value 10 text.now) most then Some (digits_value 10 text.now) else None) }
    ensures within { IfSome result (λ n. n ≤ most) }
{
    let mut value: u64 = 0;
    for digit in text {
        if !digit.is_ascii_digit() {
            return None;
        }
        let next = value.checked_mul(10)?.checked_add(u64::from(digit - b'0'))?;
        if next > most {
            return None;
        }
        value = next;
    }
    Some(value)
}
