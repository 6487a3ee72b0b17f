//! One line of a script.
ghost use Rattle.std.specs.Prelude.{◌≡◌, ◌∷◌, [], ◌≤◌, ◌==◌, ℕ, false, length, IfOk, MatchResult};
ghost use Rattle.std.specs.Option.{IfSome, MatchOption};
ghost use Rattle.std.specs.List.{All, slice_split};
ghost use Rattle.recorder_model.specs.Script as script;
ghost use Rattle.paint_script.specs.Answers.{Answers};
ghost use Rattle.paint_script.specs.Paint.{drawn_rect, has_paint_words, has_copy_words, pieces_after};
ghost use Rattle.paint_script.specs.Spellable.{IsOfVersion, IsSpellable, IsSpellableRect, IsSpellableColour};

use crate::colour::{COLOUR_DIGITS, colour_of};
use crate::number::number_up_to;
use crate::split::split_once;
use h265_model::{Rect, Rgb};
use recorder_model::{Cause, Line, Pixels};
use std::alloc::{AllocError, AllocFailed, Global};

/// The largest number of a script.
const MOST_NUMBER: u64 = 65_535;

/// The most pixels of a `blit`.
const MOST_PIXELS: u32 = 4096;

// Why a line isn't read.
#[derive(Debug, Drop)]
pub(crate) enum LineError {
    Bad(Cause),
    NoMemory,
}

impl From<AllocError> for LineError {
    ghost use Rattle.std.specs.Prelude.{◌≡◌};
    ghost use Rattle.paint_script.specs.declared.line.LineError.{LineError};

    ghost from_gives = { λ _ e. e ≡ LineError.NoMemory };

    fn from(_: AllocError) -> Self {
        LineError::NoMemory
    }
}

impl<T: Drop> From<AllocFailed<T>> for LineError {
    ghost use Rattle.std.specs.Prelude.{◌≡◌};
    ghost use Rattle.paint_script.specs.declared.line.LineError.{LineError};

    ghost from_gives = { λ _ e. e ≡ LineError.NoMemory };

    fn from(_: AllocFailed<T>) -> Self {
        LineError::NoMemory
    }
}

impl From<Cause> for LineError {
    ghost use Rattle.std.specs.Prelude.{◌≡◌};
    ghost use Rattle.paint_script.specs.declared.line.LineError.{LineError};

    ghost from_gives = { λ cause e. e ≡ LineError.Bad cause };

    fn from(cause: Cause) -> Self {
        LineError::Bad(cause)
    }
}

// The words of a rectangle.
#[derive(Clone, Copy)]
struct RectWords<'a> {
    x: &'a [u8],
    y: &'a [u8],
    w: &'a [u8],
    h: &'a [u8],
}

// The words after `fill` and `blit`.
#[derive(Clone, Copy)]
struct PaintWords<'a> {
    rect: RectWords<'a>,
    last: &'a [u8],
}

// The words after `copy`.
#[derive(Clone, Copy)]
struct CopyWords<'a> {
    rect: RectWords<'a>,
    to_x: &'a [u8],
    to_y: &'a [u8],
}

// The first four words, and what follows their last space.
fn rect_words(text: &[u8]) -> Option<(RectWords<'_>, &[u8])>
    ensures { MatchOption result
        ((has_paint_words (slice_split (λ c. c == 32) text.now) ≡ false) × (has_copy_words (slice_split (λ c. c == 32) text.now) ≡ false))
        (λ p. slice_split (λ c. c == 32) text.now ≡ p.0.x.now ∷ p.0.y.now ∷ p.0.w.now ∷ p.0.h.now ∷ slice_split (λ c. c == 32) p.1.now) }
{
    let (x, text) = split_once(text, b' ')?;
    let (y, text) = split_once(text, b' ')?;
    let (w, text) = split_once(text, b' ')?;
    let (h, rest) = split_once(text, b' ')?;
    Some((RectWords { x, y, w, h }, rest))
}

fn paint_words(text: &[u8]) -> Option<PaintWords<'_>>
    ensures { MatchOption result
        (has_paint_words (slice_split (λ c. c == 32) text.now) ≡ false)
        (λ p. slice_split (λ c. c == 32) text.now ≡ p.rect.x.now ∷ p.rect.y.now ∷ p.rect.w.now ∷ p.rect.h.now ∷ p.last.now ∷ []) }
{
    let (rect, last) = rect_words(text)?;
    match split_once(last, b' ') {
        Some(_) => None,
        None => Some(PaintWords { rect, last }),
    }
}

fn copy_words(text: &[u8]) -> Option<CopyWords<'_>>
    ensures { MatchOption result
        (has_copy_words (slice_split (λ c. c == 32) text.now) ≡ false)
        (λ p. slice_split (λ c. c == 32) text.now ≡ p.rect.x.now ∷ p.rect.y.now ∷ p.rect.w.now ∷ p.rect.h.now ∷ p.to_x.now ∷ p.to_y.now ∷ []) }
{
    let (rect, last) = rect_words(text)?;
    let (to_x, to_y) = split_once(last, b' ')?;
    match split_once(to_y, b' ') {
        Some(_) => None,
        None => Some(CopyWords { rect, to_x, to_y }),
    }
}

// A number of a rectangle.
fn number(word: &[u8]) -> Option<u32>
    ensures value { result ≡ script.number_up_to script.most_number word.now }
    ensures small { IfSome result (λ n. n ≤ script.most_number) }
{
    let number = number_up_to(word, MOST_NUMBER)?;
    Some(number as u32)
}

fn rect_of(words: RectWords<'_>) -> Option<Rect>
    ensures value { result ≡ script.rect_of words.entry.x.now words.entry.y.now words.entry.w.now words.entry.h.now }
    ensures small { IfSome result (λ r. (r.x ≤ script.most_number) × (r.y ≤ script.most_number) × (r.w ≤ script.most_number) × (r.h ≤ script.most_number)) }
{
    let x = number(words.x)?;
    let y = number(words.y)?;
    let w = number(words.w)?;
    let h = number(words.h)?;
    Some(Rect { x, y, w, h })
}

// The rectangle that is painted.
fn drawn_rect(words: RectWords<'_>) -> Result<Rect, Cause>
    ensures value { result ≡ drawn_rect words.entry.x.now words.entry.y.now words.entry.w.now words.entry.h.now }
    ensures spellable { IfOk result IsSpellableRect }
{
    let rect = rect_of(words).ok_or(Cause::BadNumber)?;
    if rect.w == 0 || rect.h == 0 {
        return Err(Cause::ZeroSize);
    }
    Ok(rect)
}

// The words after a command that paints.
fn words_after(text: Option<&[u8]>) -> Result<PaintWords<'_>, Cause>
    ensures { MatchResult result
        (λ p. pieces_after text.entry ≡ p.rect.x.now ∷ p.rect.y.now ∷ p.rect.w.now ∷ p.rect.h.now ∷ p.last.now ∷ [])
        (λ e. (e ≡ Cause.WordCount) × (has_paint_words (pieces_after text.entry) ≡ false)) }
{
    match text {
        None => Err(Cause::WordCount),
        Some(text) => paint_words(text).ok_or(Cause::WordCount),
    }
}

// A word of just one colour.
fn one_colour(word: &[u8]) -> Result<Rgb, Cause>
    ensures value { MatchResult result
        (λ c. script.n_colours 1 word.now ≡ Some (c ∷ []))
        (λ e. (e ≡ Cause.BadColour) × (script.n_colours 1 word.now ≡ None)) }
    ensures spellable { IfOk result IsSpellableColour }
{
    if word.len() != COLOUR_DIGITS {
        return Err(Cause::BadColour);
    }
    match colour_of(word) {
        None => Err(Cause::BadColour),
        Some(colour) => Ok(colour),
    }
}

// A `fill`, from the words after it.
fn fill_line(text: Option<&[u8]>) -> Result<Line, LineError>
    ensures value { Answers (script.paint_of script.fill_of (pieces_after text.entry)) result }
    ensures spellable { IfOk result IsSpellable }
    ensures version { IfOk result (λ line. (version : ℕ) → IsOfVersion version line) }
{
    let words = words_after(text)?;
    let rect = drawn_rect(words.rect)?;
    let colour = one_colour(words.last)?;
    Ok(Line::Fill { rect, colour })
}

// A word of just `count` colours.
fn pixels_of(alloc: Global, word: &[u8], count: usize) -> Result<Pixels, LineError>
    requires { count ≤ script.most_pixels }
    ensures value { Answers (script.or_cause Cause.BadColour (script.n_colours count word.now)) result }
    ensures count { IfOk result (λ pixels. length pixels ≡ count) }
    ensures spellable { IfOk result (λ pixels. All IsSpellableColour pixels) }
{
    if word.len() != COLOUR_DIGITS * count {
        return Err(LineError::Bad(Cause::BadColour));
    }
    let mut pixels = Vec::with_capacity(alloc, count)?;
    for k in 0..count {
        let at = COLOUR_DIGITS * k;
        match colour_of(&word[at..at + COLOUR_DIGITS]) {
            None => return Err(LineError::Bad(Cause::BadColour)),
            Some(colour) => pixels.push(colour)?,
        }
    }
    Ok(Pixels::from_vec(pixels))
}

// A `blit`, from the words after it.
fn blit_line(alloc: Global, text: Option<&[u8]>) -> Result<Line, LineError>
    ensures value { Answers (script.paint_of script.blit_of (pieces_after text.entry)) result }
    ensures spellable { IfOk result IsSpellable }
    ensures version { IfOk result (λ line. (version : ℕ) → IsOfVersion version line) }
{
    let words = words_after(text)?;
    let rect = drawn_rect(words.rect)?;
    let count = rect.w * rect.h;
    if count > MOST_PIXELS {
        return Err(LineError::Bad(Cause::TooManyPixels));
    }
    let pixels = pixels_of(alloc, words.last, count as usize)?;
    Ok(Line::Blit { rect, pixels })
}

// The words after `copy`.
fn copy_words_after(text: Option<&[u8]>) -> Result<CopyWords<'_>, Cause>
    ensures { MatchResult result
        (λ p. pieces_after text.entry ≡ p.rect.x.now ∷ p.rect.y.now ∷ p.rect.w.now ∷ p.rect.h.now ∷ p.to_x.now ∷ p.to_y.now ∷ [])
        (λ e. (e ≡ Cause.WordCount) × (has_copy_words (pieces_after text.entry) ≡ false)) }
{
    match text {
        None => Err(Cause::WordCount),
        Some(text) => copy_words(text).ok_or(Cause::WordCount),
    }
}

// A `copy`, from the words after it.
fn copy_line(text: Option<&[u8]>) -> Result<Line, LineError>
    ensures value { Answers (script.copy_of (pieces_after text.entry)) result }
    ensures spellable { IfOk result IsSpellable }
    ensures version { IfOk result (IsOfVersion 2) }
{
    let words = copy_words_after(text)?;
    let rect = rect_of(words.rect).ok_or(Cause::BadNumber)?;
    let to_x = number(words.to_x).ok_or(Cause::BadNumber)?;
    let to_y = number(words.to_y).ok_or(Cause::BadNumber)?;
    if rect.w == 0 || rect.h == 0 {
        return Err(LineError::Bad(Cause::ZeroSize));
    }
    Ok(Line::Copy { rect, to_x, to_y })
}

// A `cut`, from the words after it.
fn cut_line(text: Option<&[u8]>) -> Result<Line, LineError>
    ensures value { Answers (script.cut_of (pieces_after text.entry)) result }
    ensures spellable { IfOk result IsSpellable }
    ensures version { IfOk result (λ line. (version : ℕ) → IsOfVersion version line) }
{
    match text {
        None => Ok(Line::Cut),
        Some(_) => Err(LineError::Bad(Cause::WordCount)),
    }
}

// The first word of a line, and what follows its space.
fn first_word(text: &[u8]) -> (&[u8], Option<&[u8]>)
    ensures { slice_split (λ c. c == 32) text.now ≡ result.0.now ∷ pieces_after result.1 }
{
    match split_once(text, b' ') {
        None => (text, None),
        Some((word, rest)) => (word, Some(rest)),
    }
}

// Reads a line of a script of a version without its line feed.
pub(crate) fn read_line(alloc: Global, version: u32, text: &[u8]) -> Result<Line, LineError>
    ensures value { Answers (script.line_of version text.now) result }
    ensures spellable { IfOk result IsSpellable }
    ensures version { IfOk result (IsOfVersion version) }
{
    let (command, rest) = first_word(text);
    if command == b"fill".as_slice() {
        fill_line(rest)
    } else if command == b"blit".as_slice() {
        blit_line(alloc, rest)
    } else if command == b"cut".as_slice() {
        cut_line(rest)
    } else if version == 2 && command == b"copy".as_slice() {
        copy_line(rest)
    } else {
        Err(LineError::Bad(Cause::UnknownCommand))
    }
}
