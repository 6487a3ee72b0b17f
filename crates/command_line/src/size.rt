//! Numbers and sizes.
ghost use Rattle.std.specs.Prelude.{◌≡◌, ◌≤◌, ◌==◌, [], ◌∷◌, None};
ghost use Rattle.std.specs.Option.{IfSome, MatchOption};
ghost use Rattle.std.specs.List.{slice_split};
ghost use Rattle.recorder_model.specs.Script.{number_up_to};
ghost use Rattle.command_line.specs.Words.{size_parts, size_word};

use paint_script::number_up_to;
use px_plane::Size;

// The longest side, which `Size` allows too.
const MOST_SIDE: u32 = 4096;

// A decimal number without a leading zero, of at most this size.
pub(crate) fn number(word: &str, most: u32) -> Option<u32>
    ensures value { result ≡ number_up_to most word.now }
    ensures within { IfSome result (λ n. n ≤ most) }
{
    let number = number_up_to(word.as_bytes(), u64::from(most))?;
    Some(number as u32)
}

// The two parts around the one `x`.
fn sides(word: &str) -> Option<(&str, &str)>
    ensures { MatchOption result
        (size_parts (slice_split (λ c. c == 120) word.now) ≡ None)
        (λ parts. slice_split (λ c. c == 120) word.now ≡ parts.0.now ∷ parts.1.now ∷ []) }
{
    let (w, h) = word.split_once('x')?;
    match h.split_once('x') {
        Some(_) => None,
        None => Some((w, h)),
    }
}

// A size, as `1280x720`.
pub(crate) fn size(word: &str) -> Option<Size>
    ensures { result ≡ size_word word.now }
{
    let (w, h) = sides(word)?;
    let w = number(w, MOST_SIDE)?;
    let h = number(h, MOST_SIDE)?;
    Size::new(w, h)
}
