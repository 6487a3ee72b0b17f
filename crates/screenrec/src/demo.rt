//! Generated scripts.
ghost use Rattle.std.specs.Prelude.{◌≡◌, ◌≤◌, ◌<◌, ◌⊎◌, ◌+◌, ◌-◌, ◌^◌, ◌++◌, ◌∷◌, [], ℕ, List, length, IfOk, OnOk};
ghost use Rattle.recorder_model.specs.declared.line.Line.{Line};
ghost use Rattle.recorder_model.specs.Files.{WhereTold, Rose};
ghost use Rattle.h265_model.specs.Settings as model;
ghost use Rattle.command_line.specs.Words.{row_of};
ghost use Rattle.recorder_model.specs.Painting.{accepted_line};
ghost use Rattle.recorder_model.specs.Histories.{script_length};
ghost use Rattle.command_line.specs.Views.{texts, settings_view, IsWithinLimits};
ghost use Rattle.paint_script.specs.Spellable.{IsSpellable};
ghost use Rattle.screen_gen.specs.Generated.{generated};
ghost use Rattle.screenrec.specs.declared.outcome.Status.TheVariants as status;
ghost use Rattle.screenrec.specs.Stored.{stream_after};
ghost use Rattle.screenrec.specs.Played.{HasPlayed, IsPlayed};
ghost use Rattle.screenrec.specs.Demo.{demo_settings, HasRounds, IsOfDemo, IsPlayedDemo, LeavesDemo, ReportsDemo};
ghost use Rattle.screenrec.specs.Recording.{demo_service, Answers, RefusesEmpty, TellsDemo, IsCompleteDemo};

use crate::report::write_report;
use crate::stage::Stage;
use crate::stream_file::line_at;
use crate::{Outcome, Status};
use command_line::{Row, Settings, read_words};
use edges::{Sink, WriteError};
use h265_model::{Extra, NoMemory};
use paint_script::Scripts;
use px_plane::Size;
use recorder_model::{Entry, History, Line};
use screen_gen::generate;
use std::alloc::Global;

/// How many clients a demo has.
const CLIENTS: u32 = 4;

/// How many lines each of them has.
const LINES: u32 = 60;

/// Serves the words `demo NUMBER`: plays the four scripts of the number in rounds on a desktop of 640 by 360, codes the
/// pictures that they cut, and reports how many there are and how long their stream is. Nothing is stored. It answers
/// `Usage` for all other words.
pub fn run_demo<K: Sink>(alloc: Global, words: &[&str], report: &mut K) -> Outcome
    ensures words { Answers (demo_service (row_of (texts words.now))) result.status }
    ensures later { K.faults report.old ≤ K.faults report.new }
    ensures cause { result.status ≡ Status.ReportFault → Rose (K.faults report.old) (K.faults report.new) }
    ensures quiet { result.status ≡ Status.Ok → K.faults report.new ≡ K.faults report.old }
    // The order is that of rounds, and `written` the length of the stream of its pictures.
    ensures order { RefusesEmpty (demo_service (row_of (texts words.now))) result.status result.order result.written }
    // With Ok the report grew by its text.
    ensures reported { WhereTold (K.text report.old) (K.text report.new) (λ was now.
        TellsDemo (demo_service (row_of (texts words.now))) was now result.status result.order result.written) }
    // Where the report's count didn't rise, only want of memory is between the call and Ok.
    ensures complete { IsCompleteDemo (demo_service (row_of (texts words.now))) (K.faults report.old) (K.faults report.new) result.status }
    ensures beside { WhereTold (K.beside report.old) (K.beside report.new) (λ was now. now ≡ was) }
    ensures through { K.through report.new ≡ K.through report.old }
{
    match read_words(words) {
        Some(Row::Demo(number)) => serve_demo(alloc, number, report),
        _ => Outcome::refused(alloc, Status::Usage),
    }
}

/// Plays the demo of this number, and reports it.
pub(crate) fn serve_demo<K: Sink>(alloc: Global, number: u64, report: &mut K) -> Outcome
    ensures words { IsOfDemo result.status }
    ensures later { K.faults report.old ≤ K.faults report.new }
    ensures cause { result.status ≡ Status.ReportFault → Rose (K.faults report.old) (K.faults report.new) }
    ensures quiet { result.status ≡ Status.Ok → K.faults report.new ≡ K.faults report.old }
    ensures order { LeavesDemo number result.status result.order result.written }
    ensures reported { WhereTold (K.text report.old) (K.text report.new) (λ was now.
        ReportsDemo number was now result.status result.order result.written) }
    ensures complete { ¬ Rose (K.faults report.old) (K.faults report.new) → (result.status ≡ status.Ok) ⊎ (result.status ≡ status.NoMemory) }
    ensures beside { WhereTold (K.beside report.old) (K.beside report.new) (λ was now. now ≡ was) }
    ensures through { K.through report.new ≡ K.through report.old }
{
    let Ok(played) = play_demo(alloc, number) else {
        return Outcome::refused(alloc, Status::NoMemory);
    };
    let written = played.written;
    let status = match write_report(alloc, played.pictures, played.paints, written, report) {
        Ok(()) => Status::Ok,
        Err(WriteError::Failed) => Status::ReportFault,
        Err(WriteError::NoMemory) => return Outcome::refused(alloc, Status::NoMemory),
    };
    Outcome {
        status,
        order: History::from_vec(played.order),
        written,
    }
}

// What was played: the order, how many lines of it cut and paint, and the length of the stream.
#[derive(Drop)]
struct Played {
    order: Vec<Entry>,
    pictures: u32,
    paints: u32,
    written: u64,
}

// Plays the scripts of this number in rounds.
fn play_demo(alloc: Global, number: u64) -> Result<Played, NoMemory>
    ensures { IfOk result (λ played. IsPlayedDemo (generated number) played.order.items played.pictures played.paints played.written) }
{
    let scripts = generate(alloc, number)?;
    play_rounds(alloc, &scripts)
}

// Plays line k of each client in turn, for each k.
fn play_rounds(alloc: Global, scripts: &Scripts) -> Result<Played, NoMemory>
    requires rounds { HasRounds scripts.now }
    ensures { IfOk result (λ played. IsPlayedDemo scripts.now played.order.items played.pictures played.paints played.written) }
{
    let mut stage = Stage::new(alloc, &demo_settings())?;
    let mut order = Vec::new(alloc);
    let mut written = stage.first()?.len() as u64;
    for turn in 0..LINES * CLIENTS {
        let (client, index) = (turn % CLIENTS, turn / CLIENTS);
        written += play_line(line_of(scripts, client, index), &mut stage)?;
        order.push(Entry::Line { client, index })?;
    }
    let pictures = stage.cuts();
    let paints = LINES * CLIENTS - pictures;
    Ok(Played {
        order,
        pictures,
        paints,
        written,
    })
}

// How a demo is coded.
fn demo_settings() -> Settings
    ensures settings { settings_view result ≡ demo_settings }
    ensures within { IsWithinLimits result }
{
    let Some(size) = Size::new(640, 360) else {
        unreachable!()
    };
    Settings {
        size,
        effort: 1,
        key: 4,
        extra: Extra::Plain,
    }
}

// The line of a client with this index.
fn line_of(scripts: &Scripts, client: u32, index: u32) -> &Line
    requires client { client < length scripts.now }
    requires index { index < script_length scripts.now client }
    ensures line { result.now ≡ accepted_line scripts.now client index }
    ensures spellable { IsSpellable result.now }
{
    let Some(script) = scripts.script(client) else {
        unreachable!()
    };
    let _lines = script.lines();
    line_at(script, index)
}

// Plays a line, and tells the length of the piece that it adds to the stream.
fn play_line(line: &Line, stage: &mut Stage) -> Result<u64, NoMemory>
    requires played { IsPlayed stage.old }
    requires few { stage.old.cuts < 2 ^ 32 - 1 }
    requires spellable { IsSpellable line.now }
    ensures played { OnOk result ((settings : model.Settings) (done : List Line) → HasPlayed settings stage.old done → HasPlayed settings stage.new (done ++ line.now ∷ [])) }
    ensures cuts { OnOk result (stage.new.cuts ≤ stage.old.cuts + 1) }
    ensures counted { (settings : model.Settings) (done : List Line) → HasPlayed settings stage.old done → IfOk result (λ count.
        length (stream_after settings (done ++ line.now ∷ [])) ≡ length (stream_after settings done) + count) }
    ensures short { IfOk result (λ count. count < 2 ^ 40) }
{
    if let Line::Cut = line {
        let piece = stage.cut()?;
        return Ok(piece.len() as u64);
    }
    stage.paint(line);
    Ok(0)
}
