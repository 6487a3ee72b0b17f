//! The stream of a script's pictures, written to a file piece by piece.
ghost use Rattle.std.specs.Prelude.{◌≡◌, ℕ, ◌+◌, ◌-◌, ◌^◌, ◌<◌, ◌≤◌, ◌++◌, ◌∷◌, [], List, IfOk, OnOk, length, slice_index_or};
ghost use Rattle.std.specs.FinMap.{insert};
ghost use Rattle.recorder_model.specs.declared.line.Line.{Line};
ghost use Rattle.recorder_model.specs.declared.line.Line.TheVariants as line;
ghost use Rattle.recorder_model.specs.Files.{Files, WhereTold};
ghost use Rattle.h265_model.specs.Settings as model;
ghost use Rattle.recorder_model.specs.Headline.{most_lines};
ghost use Rattle.edges.specs.Causes.{HasWriteCause};
ghost use Rattle.paint_script.specs.Spellable.{IsSpellable, AreSpellable};
ghost use Rattle.command_line.specs.Views.{settings_view, IsWithinLimits};
ghost use Rattle.screenrec.specs.Stored.{stream_after, cut_piece, AppendsPiece, Continues, EndsIn};
ghost use Rattle.screenrec.specs.Played.{HasPlayed, IsPlayed};
ghost use Rattle.screenrec.specs.Endings.{ending_of, EndsAnew};

use crate::stage::Stage;
use command_line::Settings;
use edges::{Shelf, WriteError};
use h265_model::NoMemory;
use paint_script::Script;
use recorder_model::Line;
use std::alloc::Global;

/// How the writing of a stream ended, and the bytes of the pieces that were appended whole.
#[derive(Debug, Drop)]
pub struct Ending {
    pub result: Result<(), WriteError>,
    pub written: u64,
}

// Cuts a picture, appends its piece, and tells the length of the piece.
fn append_picture<F: Shelf>(stage: &mut Stage, name: &str, shelf: &mut F) -> Result<u64, WriteError>
    requires played { IsPlayed stage.old }
    requires few { stage.old.cuts < 2 ^ 32 - 1 }
    ensures played { OnOk result ((settings : model.Settings) (done : List Line) → HasPlayed settings stage.old done → HasPlayed settings stage.new (done ++ line.Cut ∷ [])) }
    ensures cuts { OnOk result (stage.new.cuts ≡ stage.old.cuts + 1) }
    ensures cause { HasWriteCause (F.write_faults shelf.old) (F.write_faults shelf.new) result }
    ensures reads { F.read_faults shelf.new ≡ F.read_faults shelf.old }
    ensures counted { (settings : model.Settings) (done : List Line) → HasPlayed settings stage.old done →
        IfOk result (λ count. count ≡ length (cut_piece settings done)) }
    ensures short { IfOk result (λ count. count < 2 ^ 40) }
    ensures files { (settings : model.Settings) (done : List Line) → HasPlayed settings stage.old done →
        WhereTold (F.files shelf.old) (F.files shelf.new) (λ before after.
        AppendsPiece name.now (cut_piece settings done) before after result) }
{
    let Ok(piece) = stage.cut() else {
        return Err(WriteError::NoMemory);
    };
    shelf.append(name, &piece)?;
    Ok(piece.len() as u64)
}

// Paints a line, or appends the piece of the picture that it cuts, and tells the bytes appended.
fn play_line<F: Shelf>(
    line: &Line,
    stage: &mut Stage,
    name: &str,
    shelf: &mut F,
) -> Result<u64, WriteError>
    requires played { IsPlayed stage.old }
    requires few { stage.old.cuts < 2 ^ 32 - 1 }
    requires spellable { IsSpellable line.now }
    ensures played { OnOk result ((settings : model.Settings) (done : List Line) → HasPlayed settings stage.old done → HasPlayed settings stage.new (done ++ line.now ∷ [])) }
    ensures cuts { OnOk result (stage.new.cuts ≤ stage.old.cuts + 1) }
    ensures cause { HasWriteCause (F.write_faults shelf.old) (F.write_faults shelf.new) result }
    ensures reads { F.read_faults shelf.new ≡ F.read_faults shelf.old }
    ensures counted { (settings : model.Settings) (done : List Line) → HasPlayed settings stage.old done → IfOk result (λ count.
        length (stream_after settings (done ++ line.now ∷ [])) ≡ length (stream_after settings done) + count) }
    ensures short { IfOk result (λ count. count < 2 ^ 40) }
    ensures files { (settings : model.Settings) (done : List Line) → HasPlayed settings stage.old done →
        WhereTold (F.files shelf.old) (F.files shelf.new) (λ before after. (start : Files) →
        before ≡ insert start name.now (stream_after settings done) → Continues settings name.now done line.now start after result) }
{
    if let Line::Cut = line {
        return append_picture(stage, name, shelf);
    }
    stage.paint(line);
    Ok(0)
}

/// The line of this number.
pub(crate) fn line_at(script: &Script, index: u32) -> &Line
    requires inside { index < length script.now.lines }
    requires spellable { AreSpellable script.now.lines }
    ensures line { result.now ≡ slice_index_or script.now.lines index result.now }
    ensures spellable { IsSpellable result.now }
{
    match script.line(index) {
        Some(line) => line,
        None => unreachable!(),
    }
}

// Plays the lines, and writes the pieces of their pictures after the first piece of the stream.
fn write_pictures<F: Shelf>(
    script: &Script,
    mut stage: Stage,
    name: &str,
    shelf: &mut F,
    first: u64,
) -> Ending
    requires few { length script.now.lines ≤ most_lines }
    requires played { HasPlayed stage.encoder.settings stage [] }
    requires first { first ≡ length (stream_after stage.encoder.settings []) }
    requires short { first < 2 ^ 40 }
    ensures cause { HasWriteCause (F.write_faults shelf.old) (F.write_faults shelf.new) result.result }
    ensures reads { F.read_faults shelf.new ≡ F.read_faults shelf.old }
    ensures files { WhereTold (F.files shelf.old) (F.files shelf.new) (λ before after. (start : Files) →
        before ≡ insert start name.now (stream_after stage.encoder.settings []) →
        EndsIn stage.encoder.settings name.now script.now.lines start after result.result result.written) }
{
    let mut written = first;
    for index in 0..script.lines() {
        match play_line(line_at(script, index), &mut stage, name, shelf) {
            Ok(count) => written += count,
            Err(error) => {
                return Ending {
                    result: Err(error),
                    written,
                };
            }
        }
    }
    Ending {
        result: Ok(()),
        written,
    }
}

/// Makes the file, and writes the stream of the pictures that the lines cut to it, piece by piece: the parameter sets,
/// and one piece for each picture. No piece is written after a fault.
///
/// # Errors
///
/// The file was not made, and nothing was written: `Failed` only where a write failed, or `NoMemory`.
pub fn write_stream<F: Shelf>(
    alloc: Global,
    settings: &Settings,
    script: &Script,
    name: &str,
    shelf: &mut F,
) -> Result<Ending, WriteError>
    requires within { IsWithinLimits settings.now }
    requires few { length script.now.lines ≤ most_lines }
    ensures cause { HasWriteCause (F.write_faults shelf.old) (F.write_faults shelf.new) (ending_of result) }
    ensures reads { F.read_faults shelf.new ≡ F.read_faults shelf.old }
    ensures files { WhereTold (F.files shelf.old) (F.files shelf.new) (λ before after.
        EndsAnew (settings_view settings.now) name.now script.now.lines before after result) }
{
    let Ok(start) = make_start(alloc, settings) else {
        return Err(WriteError::NoMemory);
    };
    shelf.create(name)?;
    Ok(write_pieces(script, start, name, shelf))
}

// What a recording begins with: the parameter sets, and a black desktop.
#[derive(Drop)]
struct Start {
    first: Vec<u8>,
    stage: Stage,
}

fn make_start(alloc: Global, settings: &Settings) -> Result<Start, NoMemory>
    requires within { IsWithinLimits settings.now }
    ensures played { IfOk result (λ start. HasPlayed (settings_view settings.now) start.stage []) }
    ensures first { IfOk result (λ start. start.first.items ≡ stream_after start.stage.encoder.settings []) }
    ensures short { IfOk result (λ start. length start.first.items < 2 ^ 40) }
{
    let stage = Stage::new(alloc, settings)?;
    let first = stage.first()?;
    Ok(Start { first, stage })
}

// Appends the first piece to the empty file, and then those of the pictures.
fn write_pieces<F: Shelf>(script: &Script, start: Start, name: &str, shelf: &mut F) -> Ending
    requires few { length script.now.lines ≤ most_lines }
    requires played { HasPlayed start.stage.encoder.settings start.stage [] }
    requires first { start.first.items ≡ stream_after start.stage.encoder.settings [] }
    requires short { length start.first.items < 2 ^ 40 }
    ensures cause { HasWriteCause (F.write_faults shelf.old) (F.write_faults shelf.new) result.result }
    ensures reads { F.read_faults shelf.new ≡ F.read_faults shelf.old }
    ensures files { WhereTold (F.files shelf.old) (F.files shelf.new) (λ before after. (before_that : Files) →
        before ≡ insert before_that name.now [] →
        EndsIn start.stage.encoder.settings name.now script.now.lines before_that after result.result result.written) }
{
    let Start { first, stage } = start;
    if let Err(error) = shelf.append(name, &first) {
        return Ending {
            result: Err(error),
            written: 0,
        };
    }
    write_pictures(script, stage, name, shelf, first.len() as u64)
}
