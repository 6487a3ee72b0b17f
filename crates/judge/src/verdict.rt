//! What is said of one script.
ghost use Rattle.std.specs.Prelude.{ℕ, ◌≡◌, List, Ok};
ghost use Rattle.recorder_model.specs.Script.{script_of};
ghost use Rattle.hex.specs.Hex.{decode_of};
ghost use Rattle.judge.specs.Verdicts.{IsVerdict};

use paint_script::{ScriptError, read_script, write_script};
use recorder_model::Cause;
use std::alloc::Global;
use std::fmt::{self, Display, Formatter};

/// What is said of one script.
#[derive(Drop)]
pub enum Verdict {
    /// It has so many lines, and is written as it was read.
    Read { lines: u32 },
    /// Its first bad line, counted from 1, and the first cause that applies to it.
    Bad { line: u32, cause: Cause },
    /// It was read and is spelled in another way.
    SpelledOtherwise,
    /// The digits are of no script, or it is too long.
    NoScript,
    /// The allocator refused.
    NoMemory,
}

impl Display for Verdict {
    fn fmt<W: fmt::Write>(&self, f: &mut Formatter<W>) -> fmt::Result {
        match self {
            Verdict::Read { lines } => write!(f, "lines {lines}"),
            Verdict::Bad { line, cause } => write!(f, "line {line} {cause:?}"),
            Verdict::SpelledOtherwise => write!(f, "spelled otherwise"),
            Verdict::NoScript => write!(f, "no script"),
            Verdict::NoMemory => write!(f, "no memory"),
        }
    }
}

/// What is said of the script of these hexadecimal digits.
pub fn judge(alloc: Global, digits: &str) -> Verdict
    ensures { (text : List ℕ) → decode_of digits.now ≡ Ok text → IsVerdict (script_of text) result }
{
    match hex::decode(alloc, digits) {
        Ok(text) => judge_text(alloc, &text),
        Err(_) => Verdict::NoScript,
    }
}

fn judge_text(alloc: Global, text: &[u8]) -> Verdict
    ensures { IsVerdict (script_of text.now) result }
{
    if text.len() >= 1 << 32 {
        return Verdict::NoScript;
    }
    match read_script(alloc, text) {
        Ok(script) => match write_script(alloc, &script) {
            Ok(written) if written.as_slice() == text => Verdict::Read {
                lines: script.lines(),
            },
            Ok(_) => Verdict::SpelledOtherwise,
            Err(_) => Verdict::NoMemory,
        },
        Err(ScriptError::BadLine { line, cause }) => Verdict::Bad { line, cause },
        Err(ScriptError::NoMemory) => Verdict::NoMemory,
    }
}
