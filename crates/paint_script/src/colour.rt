//! Colours in hexadecimal digits.
ghost use Rattle.std.specs.Prelude.{◌≡◌, ◌<◌, length};
ghost use Rattle.std.specs.Option.{IfSome};
ghost use Rattle.recorder_model.specs.Script as script;
ghost use Rattle.paint_script.specs.Paint.{colour_of};
ghost use Rattle.paint_script.specs.Spellable.{IsSpellableColour};

use h265_model::Rgb;

/// How many digits spell a colour.
pub(crate) const COLOUR_DIGITS: usize = 6;

// What each byte is worth as a digit, or 16 where it is none.
static WORTH: [u8; 256] = [
    16, 16, 16, 16, 16, 16, 16, 16, 16, 16, 16, 16, 16, 16, 16, 16, 16, 16, 16, 16, 16, 16, 16, 16,
    16, 16, 16, 16, 16, 16, 16, 16, 16, 16, 16, 16, 16, 16, 16, 16, 16, 16, 16, 16, 16, 16, 16, 16,
    0, 1, 2, 3, 4, 5, 6, 7, 8, 9, 16, 16, 16, 16, 16, 16, 16, 16, 16, 16, 16, 16, 16, 16, 16, 16,
    16, 16, 16, 16, 16, 16, 16, 16, 16, 16, 16, 16, 16, 16, 16, 16, 16, 16, 16, 16, 16, 16, 16, 10,
    11, 12, 13, 14, 15, 16, 16, 16, 16, 16, 16, 16, 16, 16, 16, 16, 16, 16, 16, 16, 16, 16, 16, 16,
    16, 16, 16, 16, 16, 16, 16, 16, 16, 16, 16, 16, 16, 16, 16, 16, 16, 16, 16, 16, 16, 16, 16, 16,
    16, 16, 16, 16, 16, 16, 16, 16, 16, 16, 16, 16, 16, 16, 16, 16, 16, 16, 16, 16, 16, 16, 16, 16,
    16, 16, 16, 16, 16, 16, 16, 16, 16, 16, 16, 16, 16, 16, 16, 16, 16, 16, 16, 16, 16, 16, 16, 16,
    16, 16, 16, 16, 16, 16, 16, 16, 16, 16, 16, 16, 16, 16, 16, 16, 16, 16, 16, 16, 16, 16, 16, 16,
    16, 16, 16, 16, 16, 16, 16, 16, 16, 16, 16, 16, 16, 16, 16, 16, 16, 16, 16, 16, 16, 16, 16, 16,
    16, 16, 16, 16, 16, 16, 16, 16, 16, 16, 16, 16, 16, 16,
];

// What a digit is worth: one of 0 to 9 and a to f.
#[inline(always)]
fn hex_value(digit: u8) -> Option<u8>
    ensures value { result ≡ script.hex_value digit }
    ensures small { IfSome result (λ n. n < 16) }
{
    let worth = WORTH[digit as usize];
    if worth < 16 { Some(worth) } else { None }
}

#[inline(always)]
fn byte_at(high: u8, low: u8) -> Option<u8>
    ensures value { result ≡ script.byte_at high low }
    ensures small { IfSome result (λ n. n < 256) }
{
    let high = hex_value(high)?;
    let low = hex_value(low)?;
    Some(16 * high + low)
}

// The colour that six digits spell.
#[inline(always)]
pub(crate) fn colour_of(digits: &[u8]) -> Option<Rgb>
    requires { length digits.now ≡ 6 }
    ensures value { result ≡ colour_of digits.now }
    ensures spellable { IfSome result IsSpellableColour }
{
    let r = byte_at(digits[0], digits[1])?;
    let g = byte_at(digits[2], digits[3])?;
    let b = byte_at(digits[4], digits[5])?;
    Some(Rgb { r, g, b })
}
