//! Reading a script.
ghost use Rattle.std.specs.Prelude.{◌≡◌, ◌+◌, ◌==◌, ◌<◌, ◌≤◌, ◌^◌, length, count_by, IfOk, IfErr};
ghost use Rattle.std.specs.List.{slice_split};
ghost use Rattle.recorder_model.specs.Script.{script_of, pieces_script, version_of};
ghost use Rattle.paint_script.specs.Refusals.{IsRefusal};
ghost use Rattle.paint_script.specs.Spellable.{IsVersion};

use crate::line::{LineError, read_line};
use crate::script::Script;
use crate::split::split_line;
use h265_model::NoMemory;
use recorder_model::Cause;
use std::alloc::Global;
use thiserror::Error;

/// Why a script isn't read.
#[derive(Clone, Copy, Debug, PartialEq, Eq, Error)]
pub enum ScriptError {
    /// The first line that the grammar doesn't know, counted from 1, and the first cause that applies to it.
    #[error("line {line} of the script: {cause:?}")]
    BadLine { line: u32, cause: Cause },
    /// The allocator refused.
    #[error("no memory")]
    NoMemory,
}

impl From<NoMemory> for ScriptError {
    ghost use Rattle.std.specs.Prelude.{◌≡◌};
    ghost use Rattle.paint_script.specs.declared.read.ScriptError.{ScriptError};

    ghost from_gives = { λ _ e. e ≡ ScriptError.NoMemory };

    fn from(_: NoMemory) -> Self {
        ScriptError::NoMemory
    }
}

// The bytes of the shortest line that paints, `copy 0 0 1 1 0 0` with its line feed.
const SHORTEST_PAINT: usize = 17;

fn line_feeds(bytes: &[u8]) -> u32
    requires { length bytes.now < 2 ^ 32 }
    ensures { result ≡ count_by (λ c. c == 10) bytes.now }
{
    let mut count = 0;
    for byte in bytes {
        if *byte == b'\n' {
            count += 1;
        }
    }
    count
}

// The version of a file, and what follows its first line where that says the version.
fn opening(bytes: &[u8]) -> (u32, &[u8])
    ensures version { result.0 ≡ version_of bytes.now }
    ensures known { IsVersion result.0 }
    ensures rest { script_of bytes.now ≡ pieces_script result.0 result.0 (slice_split (λ c. c == 10) result.1.now) }
    ensures shorter { length result.1.now + result.0 ≤ length bytes.now + 1 }
{
    match bytes.strip_prefix(b"paint 2\n".as_slice()) {
        Some(rest) => (2, rest),
        None => (1, bytes),
    }
}

/// Reads a script of either version.
///
/// `BadLine` is the first bad line, with the first cause that applies to it. The script takes at most four times the
/// memory of its text.
pub fn read_script(alloc: Global, bytes: &[u8]) -> Result<Script, ScriptError>
    requires { length bytes.now < 2 ^ 32 }
    ensures version { IfOk result (λ script. script.version ≡ version_of bytes.now) }
    ensures read { IfOk result (λ script. script_of bytes.now ≡ Ok script.lines) }
    ensures refused { IfErr result (IsRefusal (script_of bytes.now)) }
{
    let (version, mut rest) = opening(bytes);
    let lines = line_feeds(rest) as usize;
    let paints = lines.min(rest.len() / SHORTEST_PAINT);
    let mut script = Script::with_capacity(alloc, version, lines, paints)?;
    while let Some((text, next)) = split_line(rest) {
        match read_line(alloc, version, text) {
            Ok(line) => {
                script.add(line)?;
                rest = next;
            }
            Err(LineError::Bad(cause)) => {
                // a file of version 2 has a line before the script's first one
                let line = script.lines() + version;
                return Err(ScriptError::BadLine { line, cause });
            }
            Err(LineError::NoMemory) => return Err(ScriptError::NoMemory),
        }
    }
    if rest.is_empty() {
        Ok(script)
    } else {
        let line = script.lines() + version;
        let cause = Cause::NoLineFeed;
        Err(ScriptError::BadLine { line, cause })
    }
}
