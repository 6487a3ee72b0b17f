//! Clients' paint files, read and judged.
ghost use Rattle.std.specs.Prelude.{◌≡◌, ◌≢◌, ◌≤◌, ◌<◌, ◌+◌, ℕ, length, count_by, IfOk, IfErr};
ghost use Rattle.std.specs.List.{All};
ghost use Rattle.recorder_model.specs.Headline.{most_lines, most_cuts, contents};
ghost use Rattle.recorder_model.specs.Files.{WhereTold, file_at};
ghost use Rattle.recorder_model.specs.Script.{is_cut};
ghost use Rattle.command_line.specs.Words.{most_clients};
ghost use Rattle.command_line.specs.Views.{texts};
ghost use Rattle.paint_script.specs.Spellable.{AreSpellable};
ghost use Rattle.screenrec.specs.Accepted.{name_at, Accepts, AcceptsAll, AreFew, IsOfTheFile, IsOfReading, HasInputCause, HasRoomFor};
ghost use Rattle.screenrec.specs.Recording.{IsOfFile};

use crate::Status;
use edges::{ReadError, Shelf};
use paint_script::{Script, ScriptError, Scripts, read_script};
use recorder_model::LimitKind;
use std::alloc::Global;

/// The most bytes of a paint file.
pub const MOST_BYTES: u64 = 16_777_216;

/// The most lines of all files together.
const MOST_LINES: u32 = 1_000_000;

/// The most cuts of all files together.
const MOST_CUTS: u32 = 65_536;

// The lines and cuts of the files that were accepted.
#[derive(Clone, Copy)]
struct Totals {
    lines: u32,
    cuts: u32,
}

// No file yet.
const NONE: Totals = Totals { lines: 0, cuts: 0 };

/// Reads the one file of a recording.
///
/// # Errors
///
/// The status that refuses it: `InputFault` only where a read failed, `TooLarge`, the first bad line, a limit that it
/// passes, or `NoMemory`. No file changes.
pub fn read_paint<F: Shelf>(alloc: Global, name: &str, shelf: &mut F) -> Result<Script, Status>
    ensures cause { HasInputCause (F.read_faults shelf.old) (F.read_faults shelf.new) result }
    ensures writes { F.write_faults shelf.new ≡ F.write_faults shelf.old }
    ensures status { IfErr result (IsOfTheFile 0) }
    ensures few { IfOk result (λ script. length script.lines ≤ most_lines) }
    ensures files { WhereTold (F.files shelf.old) (F.files shelf.new) (λ before after.
        (after ≡ before) × Accepts 0 0 0 (file_at before name.now) result) }
{
    read_named(alloc, name, 0, NONE, shelf)
}

/// Reads the 1 to 64 files of a recording, in order, up to the first one that is refused.
///
/// # Errors
///
/// The status that refuses them: `InputFault` only where a read failed, `TooLarge`, the first bad line of the first bad
/// file, a limit that the files so far pass together, or `NoMemory`. No file changes.
pub fn read_paints<F: Shelf>(
    alloc: Global,
    names: &[&str],
    shelf: &mut F,
) -> Result<Scripts, Status>
    requires some { 1 ≤ length names.now }
    requires few { length names.now ≤ most_clients }
    ensures cause { HasInputCause (F.read_faults shelf.old) (F.read_faults shelf.new) result }
    ensures writes { F.write_faults shelf.new ≡ F.write_faults shelf.old }
    ensures status { IfErr result IsOfReading }
    ensures named { IfErr result (IsOfFile (texts names.now)) }
    ensures few { IfOk result AreFew }
    ensures spellable { IfOk result (All AreSpellable) }
    ensures files { WhereTold (F.files shelf.old) (F.files shelf.new) (λ before after.
        (after ≡ before) × AcceptsAll (contents before (texts names.now)) result) }
{
    let first = read_next(alloc, names, 0, NONE, shelf)?;
    let mut so_far = NONE.with(&first);
    let Ok(mut scripts) = Scripts::one(alloc, first) else {
        return Err(Status::NoMemory);
    };
    for file in 1..names.len() as u32 {
        let script = read_next(alloc, names, file, so_far, shelf)?;
        so_far = so_far.with(&script);
        match scripts.add(script) {
            Ok(()) => {}
            Err(_) => return Err(Status::NoMemory),
        }
    }
    Ok(scripts)
}

impl Totals {
    // The totals with those of one more script.
    fn with(self, script: &Script) -> Totals
        requires room { HasRoomFor self.lines self.cuts script.now.lines }
        ensures lines { result.lines ≡ self.lines + length script.now.lines }
        ensures cuts { result.cuts ≡ self.cuts + count_by is_cut script.now.lines }
    {
        Totals {
            lines: self.lines + script.lines(),
            cuts: self.cuts + script.cuts(),
        }
    }
}

// Reads the file of this number, after those before it.
fn read_next<F: Shelf>(
    alloc: Global,
    names: &[&str],
    file: u32,
    so_far: Totals,
    shelf: &mut F,
) -> Result<Script, Status>
    requires there { file < length names.now }
    requires lines { so_far.lines ≤ most_lines }
    requires cuts { so_far.cuts ≤ most_cuts }
    ensures cause { HasInputCause (F.read_faults shelf.old) (F.read_faults shelf.new) result }
    ensures writes { F.write_faults shelf.new ≡ F.write_faults shelf.old }
    ensures status { IfErr result (IsOfTheFile file) }
    ensures room { IfOk result (λ script. HasRoomFor so_far.lines so_far.cuts script.lines) }
    ensures spellable { IfOk result (λ script. AreSpellable script.lines) }
    ensures files { WhereTold (F.files shelf.old) (F.files shelf.new) (λ before after.
        (after ≡ before) × Accepts file so_far.lines so_far.cuts (file_at before (name_at names.now file)) result) }
{
    let Some(name) = names.get(file as usize) else {
        unreachable!()
    };
    read_named(alloc, name, file, so_far, shelf)
}

// Reads the file of this name and number, after those before it.
fn read_named<F: Shelf>(
    alloc: Global,
    name: &str,
    file: u32,
    so_far: Totals,
    shelf: &mut F,
) -> Result<Script, Status>
    requires lines { so_far.lines ≤ most_lines }
    requires cuts { so_far.cuts ≤ most_cuts }
    ensures cause { HasInputCause (F.read_faults shelf.old) (F.read_faults shelf.new) result }
    ensures writes { F.write_faults shelf.new ≡ F.write_faults shelf.old }
    ensures status { IfErr result (IsOfTheFile file) }
    ensures room { IfOk result (λ script. HasRoomFor so_far.lines so_far.cuts script.lines) }
    ensures spellable { IfOk result (λ script. AreSpellable script.lines) }
    ensures files { WhereTold (F.files shelf.old) (F.files shelf.new) (λ before after.
        (after ≡ before) × Accepts file so_far.lines so_far.cuts (file_at before name.now) result) }
{
    match shelf.read_whole(alloc, name, MOST_BYTES) {
        Ok(bytes) => accept(alloc, &bytes, file, so_far),
        Err(ReadError::Failed) => Err(Status::InputFault { file }),
        Err(ReadError::TooLarge) => Err(Status::TooLarge { file }),
        Err(ReadError::NoMemory) => Err(Status::NoMemory),
    }
}

// The script of the file of this number and of these bytes, or the status that refuses it: its first bad line, or a limit
// that it passes with those before it.
fn accept(alloc: Global, bytes: &[u8], file: u32, so_far: Totals) -> Result<Script, Status>
    requires lines { so_far.lines ≤ most_lines }
    requires cuts { so_far.cuts ≤ most_cuts }
    ensures status { IfErr result (IsOfTheFile file) }
    ensures no_fault { (named : ℕ) → result ≢ Err (Status.InputFault named) }
    ensures room { IfOk result (λ script. HasRoomFor so_far.lines so_far.cuts script.lines) }
    ensures spellable { IfOk result (λ script. AreSpellable script.lines) }
    ensures scripts { Accepts file so_far.lines so_far.cuts bytes.now result }
{
    if bytes.len() as u64 > MOST_BYTES {
        return Err(Status::TooLarge { file });
    }
    let script = match read_script(alloc, bytes) {
        Ok(script) => script,
        Err(ScriptError::BadLine { line, cause }) => {
            return Err(Status::BadPaint { file, line, cause });
        }
        Err(ScriptError::NoMemory) => return Err(Status::NoMemory),
    };
    if script.lines() > MOST_LINES - so_far.lines {
        return Err(Status::Limit {
            which: LimitKind::Lines,
        });
    }
    if script.cuts() > MOST_CUTS - so_far.cuts {
        return Err(Status::Limit {
            which: LimitKind::Cuts,
        });
    }
    Ok(script)
}
