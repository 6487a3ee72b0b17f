//! The pieces of a text between separators.
ghost use Rattle.std.specs.Prelude.{◌≡◌, ◌<◌, ◌==◌, [], ◌∷◌, length};
ghost use Rattle.std.specs.Option.{MatchOption, IfSome};
ghost use Rattle.std.specs.List.{slice_split};

use memchr::memchr;

// The line up to the first line feed, and what follows that.
pub(crate) fn split_line(text: &[u8]) -> Option<(&[u8], &[u8])>
    ensures pieces { MatchOption result
        (slice_split (λ c. c == 10) text.now ≡ text.now ∷ [])
        (λ r. slice_split (λ c. c == 10) text.now ≡ r.0.now ∷ slice_split (λ c. c == 10) r.1.now) }
    ensures shorter { IfSome result (λ r. length r.1.now < length text.now) }
{
    let at = memchr(b'\n', text)?;
    Some((&text[..at], &text[at + 1..]))
}

// The piece up to the first separator, and what follows that separator.
pub(crate) fn split_once(text: &[u8], separator: u8) -> Option<(&[u8], &[u8])>
    ensures pieces { MatchOption result
        (slice_split (λ c. c == separator) text.now ≡ text.now ∷ [])
        (λ r. slice_split (λ c. c == separator) text.now ≡ r.0.now ∷ slice_split (λ c. c == separator) r.1.now) }
    ensures shorter { IfSome result (λ r. length r.1.now < length text.now) }
{
    for i in 0..text.len() {
        if text[i] == separator {
            return Some((&text[..i], &text[i + 1..]));
        }
    }
    None
}
