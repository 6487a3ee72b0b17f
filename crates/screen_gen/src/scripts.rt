//! The scripts of a number.
ghost use Rattle.std.specs.Prelude.{◌≡◌, ◌<◌, IfOk};
ghost use Rattle.paint_script.specs.Spellable.{IsSpellable, IsOfVersion};
ghost use Rattle.screen_gen.specs.Generated.{is_cut, client_script, generated, IsNext};

use crate::draw::draw_line;
use h265_model::NoMemory;
use paint_script::{Script, Scripts};
use rand_core::SeedableRng;
use rand_xoshiro::SplitMix64;
use recorder_model::Line;
use std::alloc::Global;

/// How many clients there are.
const CLIENTS: u32 = 4;

/// How many lines each has.
const LINES: u32 = 60;

/// Four scripts of 60 lines, a function of the number, for a desktop of 640 by 360.
///
/// Client c draws from SplitMix64, whose state begins at `number + c` modulo 2^64. Each tenth line of client 0 is `cut`. Any
/// other is a fill, with sides of at most 200 and 120, or a blit, with sides of at most 32.
pub fn generate(alloc: Global, number: u64) -> Result<Scripts, NoMemory>
    ensures { IfOk result (λ scripts. scripts ≡ generated number) }
{
    let first = client_script(alloc, number, 0)?;
    let mut scripts = Scripts::one(alloc, first)?;
    for client in 1..CLIENTS {
        let script = client_script(alloc, number, client)?;
        match scripts.add(script) {
            Ok(()) => {}
            Err(_) => return Err(NoMemory),
        }
    }
    Ok(scripts)
}

// The script of a client.
fn client_script(alloc: Global, number: u64, client: u32) -> Result<Script, NoMemory>
    ensures { IfOk result (λ script. script ≡ record { version = 1; lines = client_script number client }) }
{
    let mut random = SplitMix64::seed_from_u64(number.wrapping_add(client as u64));
    let mut script = Script::empty(alloc);
    for index in 0..LINES {
        let line = next_line(alloc, client, index, &mut random)?;
        script.add(line)?;
    }
    Ok(script)
}

// The line of a client with this index, after those before it.
fn next_line(
    alloc: Global,
    client: u32,
    index: u32,
    random: &mut SplitMix64,
) -> Result<Line, NoMemory>
    ensures line { IfOk result (λ line. IsNext client index random.old line random.new) }
    ensures spellable { IfOk result (λ line. IsSpellable line) }
    ensures version { IfOk result (λ line. IsOfVersion 1 line) }
{
    if is_cut(client, index) {
        return Ok(Line::Cut);
    }
    draw_line(alloc, random)
}

// Whether the line is a `cut`.
fn is_cut(client: u32, index: u32) -> bool
    ensures { result ≡ is_cut client index }
{
    client == 0 && index % 10 == 9
}
