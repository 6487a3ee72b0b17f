//! Desks of one thread and of many.
ghost use Rattle.std.specs.Prelude.{◌≡◌, ◌-◌, ◌^◌, ◌<◌, ◌≤◌, length, IfOk, OnOk, ◌++◌, ◌∷◌, []};
ghost use Rattle.paint_script.specs.Spellable.{IsSpellable, IsOfVersion};
ghost use Rattle.desk_state.specs.Standing.{most_entries};

use crate::{Accepted, Desk, Entry, NoMemory, PlayError, Scripts, Size, Taken, TryPlayError};
use h265_model::{Rect, Rgb};
use paint_script::Script;
use recorder_model::Line;
use std::alloc::Global;
use std::test::Fail;

// Line number `index` of a client: each twentieth one is a cut.
fn line_of(client: u32, index: u32) -> Line
    requires { (client < 64) × (index < 1000) }
    ensures spellable { IsSpellable result }
    ensures version { IsOfVersion 1 result }
{
    if index % 20 == 19 {
        return Line::Cut;
    }
    let rect = Rect {
        x: 7 * client + index % 50,
        y: index % 64,
        w: 1 + index % 9,
        h: 1 + client,
    };
    let colour = Rgb {
        r: client as u8,
        g: (index % 256) as u8,
        b: 200,
    };
    Line::Fill { rect, colour }
}

fn script_of(alloc: Global, client: u32, lines: u32) -> Result<Script, NoMemory>
    requires { (client < 64) × (lines ≤ 200) }
    ensures { IfOk result (λ script. length script.lines ≡ lines) }
{
    let mut script = Script::empty(alloc);
    for index in 0..lines {
        script.add(line_of(client, index))?;
    }
    Ok(script)
}

fn add_script(scripts: &mut Scripts, script: Script) -> Result<(), NoMemory>
    ensures { OnOk result (scripts.new ≡ scripts.old ++ script.lines ∷ []) }
{
    match scripts.add(script) {
        Ok(()) => Ok(()),
        Err(_) => Err(NoMemory),
    }
}

// So many clients, each with so many lines.
fn scripts_of(alloc: Global, clients: u32, lines: u32) -> Result<Scripts, NoMemory>
    requires { (1 ≤ clients) × (clients ≤ 64) × (lines ≤ 200) }
    ensures few { IfOk result (λ scripts. most_entries scripts < 2 ^ 32 - 1) }
    ensures many { IfOk result (λ scripts. length scripts ≡ clients) }
{
    let mut scripts = Scripts::one(alloc, script_of(alloc, 0, lines)?)?;
    for client in 1..clients {
        let script = script_of(alloc, client, lines)?;
        add_script(&mut scripts, script)?;
    }
    Ok(scripts)
}

#[test]
fn a_desk_answers_its_passes(rt: HostRuntime) -> Result<(), Fail> {
    let size = Size::new(96, 64).ok_or("no size")?;
    let scripts = scripts_of(rt.alloc(), 2, 1)?;
    let (desk, mut clients, mut recorder) = Desk::new(rt.alloc(), size, scripts)?;
    let Taken::NotYet { seen: 0 } = desk.take(&rt, &mut recorder) else {
        panic!(rt; "nothing was cut")
    };
    let mut second = clients.pop().expect(&rt, "two passes");
    let mut first = clients.pop().expect(&rt, "two passes");
    assert!(rt; desk.play(&rt, &mut second) == Ok(Accepted { at: 0 }));
    assert!(rt; desk.try_play(&mut first).is_ok());
    assert!(rt; desk.play(&rt, &mut first) == Err(PlayError::Done));
    assert!(rt; first.client() == 0 && first.next() == 1 && !first.is_stopped());
    let note = desk.note(&mut first);
    desk.hear(&mut second, note);
    let recorder = desk.fold(recorder, first);
    let recorder = desk.fold(recorder, second);
    let history = desk.close(recorder);
    let expected = [
        Entry::Line {
            client: 1,
            index: 0,
        },
        Entry::Line {
            client: 0,
            index: 0,
        },
    ];
    assert!(rt; history.as_slice() == expected.as_slice());
    Ok(())
}

// One client that cuts, paints and cuts.
fn two_cuts(alloc: Global) -> Result<Scripts, NoMemory>
    ensures few { IfOk result (λ scripts. most_entries scripts < 2 ^ 32 - 1) }
{
    let mut script = Script::empty(alloc);
    script.add(Line::Cut)?;
    script.add(line_of(0, 0))?;
    script.add(Line::Cut)?;
    Scripts::one(alloc, script)
}

// Where the last cut finds no memory, the client is stopped and marks the desk: the recorder takes what was cut before, and meets the end. There is memory unless
// it is refused from outside, as by `rt try --test --fail-alloc N`.
#[test]
fn a_cut_without_memory_ends_the_desk(rt: HostRuntime) -> Result<(), Fail> {
    let size = Size::new(96, 64).ok_or("no size")?;
    let scripts = two_cuts(rt.alloc())?;
    let (desk, mut clients, mut recorder) = Desk::new(rt.alloc(), size, scripts)?;
    let mut client = clients.pop().expect(&rt, "one pass");
    desk.play(&rt, &mut client)?;
    desk.play(&rt, &mut client)?;
    if desk.play(&rt, &mut client).is_ok() {
        assert!(rt; !client.is_stopped() && client.next() == 3);
        return Ok(());
    }
    assert!(rt; client.is_stopped() && client.next() == 2);
    desk.mark_lost(&rt, &mut client);
    let Taken::Job(_) = desk.take(&rt, &mut recorder) else {
        panic!(rt; "a picture was cut")
    };
    let Taken::Ended { seen: 3 } = desk.take(&rt, &mut recorder) else {
        panic!(rt; "the desk has ended")
    };
    Ok(())
}

#[test]
fn errors_in_words(rt: HostRuntime) -> Result<(), Fail> {
    let alloc = rt.alloc();
    let rows = [
        (PlayError::Done, "all lines are played"),
        (PlayError::NoMemory, "no memory"),
    ];
    for (error, text) in rows {
        assert_eq!(rt; format!(in alloc; "{error}")?.as_str(), text);
    }
    let (loaded, found) = (2, 3);
    let rows = [
        (TryPlayError::Done, "all lines are played"),
        (
            TryPlayError::Busy { loaded, found },
            "the turn was not free",
        ),
        (TryPlayError::NoMemory, "no memory"),
    ];
    for (error, text) in rows {
        assert_eq!(rt; format!(in alloc; "{error}")?.as_str(), text);
    }
    Ok(())
}
