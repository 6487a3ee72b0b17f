//! A number of a frame's head, byte by byte.
ghost use Rattle.std.specs.Prelude.{◌≡◌};
ghost use Rattle.frame_read.specs.Answers.{ReadsBy, HasFrameCause, first_byte, needed_byte};
ghost use Rattle.frame_read.specs.Numbers as numbers;
ghost use Rattle.frame_read.specs.Numbers.{before_number, number_from};

use crate::{Flaw, FrameError, HeadNumber, Source};

/// Where the reading of a number stands: whether in a comment, and what its digits say so far.
#[derive(Clone, Copy)]
pub(crate) struct Stand {
    pub in_comment: bool,
    pub value: Option<u32>,
}

/// What a byte makes of that.
pub(crate) enum Step {
    On(Stand),
    End(u32),
    Wrong,
}

// Blanks, and tabs, line feeds, vertical tabs, form feeds and carriage returns.
pub(crate) fn is_white(byte: u8) -> bool
    ensures { result ≡ numbers.is_white byte }
{
    byte == b' ' || (9 <= byte && byte <= 13)
}

// After white space a number's digits are at their end, or still to come.
fn after_white(value: Option<u32>) -> Step
    ensures { result ≡ numbers.after_white value }
{
    match value {
        None => Step::On(Stand {
            in_comment: false,
            value: None,
        }),
        Some(number) => Step::End(number),
    }
}

impl Stand {
    // Where it stands after one more byte.
    fn step(self, byte: u8) -> Step
        ensures { result ≡ numbers.step self byte }
    {
        if self.in_comment {
            if byte == b'\n' || byte == b'\r' {
                return after_white(self.value);
            }
            return Step::On(self);
        }
        match byte {
            b'#' => Step::On(Stand {
                in_comment: true,
                value: self.value,
            }),
            b'0'..=b'9' => {
                let tens = self.value.unwrap_or(0).saturating_mul(10);
                Step::On(Stand {
                    in_comment: false,
                    value: Some(tens.saturating_add(u32::from(byte - b'0'))),
                })
            }
            _ if is_white(byte) => after_white(self.value),
            _ => Step::Wrong,
        }
    }
}

// Takes the next byte. `None` comes exactly at the end.
pub(crate) fn take_byte<S: Source>(source: &mut S) -> Result<Option<u8>, FrameError>
    ensures bytes { ReadsBy first_byte (S.left source.old) (S.left source.new) result }
    ensures cause { HasFrameCause (S.faults source.old) (S.faults source.new) result }
{
    let mut byte = [0];
    if source.read(&mut byte)? == 0 {
        return Ok(None);
    }
    Ok(Some(byte[0]))
}

// Takes the next byte, which must be there.
fn need_byte<S: Source>(source: &mut S) -> Result<u8, FrameError>
    ensures bytes { ReadsBy needed_byte (S.left source.old) (S.left source.new) result }
    ensures cause { HasFrameCause (S.faults source.old) (S.faults source.new) result }
{
    match take_byte(source)? {
        None => Err(FrameError::from(Flaw::Truncated)),
        Some(byte) => Ok(byte),
    }
}

/// Takes a number and the white space behind it.
pub(crate) fn read_number<S: Source>(
    source: &mut S,
    which: HeadNumber,
    in_comment: bool,
) -> Result<u32, FrameError>
    ensures bytes { ReadsBy (number_from which (before_number in_comment)) (S.left source.old) (S.left source.new) result }
    ensures cause { HasFrameCause (S.faults source.old) (S.faults source.new) result }
{
    let mut stand = Stand {
        in_comment,
        value: None,
    };
    for _ in 0..u64::MAX {
        match stand.step(need_byte(source)?) {
            Step::On(next) => stand = next,
            Step::End(number) => return Ok(number),
            Step::Wrong => return Err(FrameError::from(Flaw::NoNumber { which })),
        }
    }
    Err(FrameError::NoMemory)
}
