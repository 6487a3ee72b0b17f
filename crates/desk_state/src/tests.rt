//! One desk on one thread.
ghost use Rattle.std.specs.Prelude.{ℕ, ◌≡◌, ◌≢◌, ◌<◌, ◌∷◌, [], length, IfOk, OnOk};
ghost use Rattle.recorder_model.specs.Histories.{indexes_of, script_length};
ghost use Rattle.paint_script.specs.Spellable.{IsSpellable, IsOfVersion, IsSpellableRect};
ghost use Rattle.desk_state.specs.Standing.{most_entries};

use crate::{DeskState, Entry, Job, NoMemory, Scripts, Size};
use h265_model::{Rect, Rgb};
use paint_script::Script;
use recorder_model::Line;
use std::alloc::Global;
use std::test::Fail;

fn white(rect: Rect) -> Line
    requires { IsSpellableRect rect }
    ensures spellable { IsSpellable result }
    ensures version { IsOfVersion 1 result }
{
    let colour = Rgb {
        r: 255,
        g: 255,
        b: 255,
    };
    Line::Fill { rect, colour }
}

// One paint and one cut.
fn script(alloc: Global, rect: Rect) -> Result<Script, NoMemory>
    requires { IsSpellableRect rect }
    ensures { IfOk result (λ script. length script.lines ≡ 2) }
{
    let mut script = Script::empty(alloc);
    script.add(white(rect))?;
    script.add(Line::Cut)?;
    Ok(script)
}

// Two clients, of which the second paints beside the desktop.
fn two_scripts(alloc: Global) -> Result<Scripts, NoMemory>
    ensures few { IfOk result (λ scripts. most_entries scripts < 9) }
    ensures first { IfOk result (λ scripts. script_length scripts 0 ≡ 2) }
    ensures second { IfOk result (λ scripts. script_length scripts 1 ≡ 2) }
{
    let inside = Rect {
        x: 31,
        y: 0,
        w: 2,
        h: 33,
    };
    let outside = Rect {
        x: 96,
        y: 0,
        w: 5,
        h: 5,
    };
    let mut scripts = Scripts::one(alloc, script(alloc, inside)?)?;
    let second = script(alloc, outside)?;
    if scripts.add(second).is_err() {
        return Err(NoMemory);
    }
    Ok(scripts)
}

// Plays a script of two lines.
fn play_both(state: &mut DeskState, client: u32) -> Result<(), NoMemory>
    requires there { script_length state.old.setting.scripts client ≡ 2 }
    requires fresh { length (indexes_of state.old.history client) ≡ 0 }
    ensures setting { state.new.setting ≡ state.old.setting }
    ensures others { OnOk result ((other : ℕ) → client ≢ other → length (indexes_of state.new.history other) ≡ length (indexes_of state.old.history other)) }
{
    for index in 0..2 {
        state.play_line(client, index)?;
    }
    Ok(())
}

// Takes a job.
fn take(state: &mut DeskState) -> Option<(Entry, Job)>
    ensures setting { state.new.setting ≡ state.old.setting }
    ensures lines { (client : ℕ) → length (indexes_of state.new.history client) ≡ length (indexes_of state.old.history client) }
{
    state.take_job()
}

#[test]
fn a_state_follows_its_clients(rt: HostRuntime) -> Result<(), Fail> {
    let size = Size::new(96, 64).ok_or("no size")?;
    let mut state = DeskState::new(rt.alloc(), size, two_scripts(rt.alloc())?)?;
    assert!(rt; take(&mut state).is_none() && state.entries() == 0);
    play_both(&mut state, 0)?;
    let (entry, job) = take(&mut state).ok_or("no job")?;
    assert!(rt; entry == (Entry::Take { number: 0 }) && job.number == 0);
    assert!(rt;
        job.tiles.as_slice() == [0, 1, 3, 4].as_slice() && job.samples.as_slice().len() == 4 * 3072
    );
    play_both(&mut state, 1)?;
    let (entry, job) = take(&mut state).ok_or("no second job")?;
    assert!(rt; entry == (Entry::Take { number: 1 }) && job.tiles.as_slice().is_empty());
    assert!(rt; take(&mut state).is_none() && !state.is_lost());
    state.mark_lost();
    assert!(rt; state.is_lost() && state.entries() == 6);
    let expected = [
        Entry::Line {
            client: 0,
            index: 0,
        },
        Entry::Line {
            client: 0,
            index: 1,
        },
        Entry::Take { number: 0 },
        Entry::Line {
            client: 1,
            index: 0,
        },
        Entry::Line {
            client: 1,
            index: 1,
        },
        Entry::Take { number: 1 },
    ];
    assert!(rt; state.into_history().as_slice() == expected.as_slice());
    Ok(())
}
