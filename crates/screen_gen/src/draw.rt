//! Lines from a random number generator.
ghost use Rattle.std.specs.Prelude.{◌≡◌, ◌<◌, ◌*◌, ◌≤◌, ◌%◌, IfOk, length};
ghost use Rattle.paint_script.specs.Spellable.{IsSpellable, IsOfVersion, IsSpellableColour};
ghost use Rattle.screen_gen.specs.Generated.{colour_of, colours, rect_of, drawn, state_after};

use h265_model::{NoMemory, Rect, Rgb};
use rand_core::utils::NextWord;
use rand_xoshiro::SplitMix64;
use recorder_model::{Line, Pixels};
use std::alloc::Global;

/// The next line that paints.
///
/// Of six words the first tells whether it is a fill, and the others give its place, its sides and its colour. A blit leaves out
/// the last of them, and takes one more word for each pixel.
pub fn draw_line(alloc: Global, random: &mut SplitMix64) -> Result<Line, NoMemory>
    ensures line { IfOk result (λ line. (line, random.new) ≡ drawn random.old) }
    ensures spellable { IfOk result (λ line. IsSpellable line) }
    ensures version { IfOk result (λ line. IsOfVersion 1 line) }
{
    let kind = random.next_word();
    let x = random.next_word();
    let y = random.next_word();
    let w = random.next_word();
    let h = random.next_word();
    let last = random.next_word();
    if kind % 4 < 3 {
        return Ok(Line::Fill {
            rect: rect(x, y, w, h, 200, 120),
            colour: colour(last),
        });
    }
    let rect = rect(x, y, w, h, 32, 32);
    let pixels = draw_pixels(alloc, random, rect.w * rect.h)?;
    Ok(Line::Blit { rect, pixels })
}

// The rectangle that four words give, with sides of at most these.
fn rect(x: u64, y: u64, w: u64, h: u64, most_w: u32, most_h: u32) -> Rect
    requires wide { 0 < most_w }
    requires high { 0 < most_h }
    requires narrow { most_w ≤ 200 }
    requires low { most_h ≤ 200 }
    ensures { result ≡ rect_of x y w h most_w most_h }
{
    Rect {
        x: (x % 640) as u32,
        y: (y % 360) as u32,
        w: 1 + (w % most_w as u64) as u32,
        h: 1 + (h % most_h as u64) as u32,
    }
}

// The colour of a word: its low 24 bits are RRGGBB.
fn colour(word: u64) -> Rgb
    ensures value { result ≡ colour_of word }
    ensures spellable { IsSpellableColour result }
{
    Rgb {
        r: (word / 65_536 % 256) as u8,
        g: (word / 256 % 256) as u8,
        b: (word % 256) as u8,
    }
}

// The colours of the next words.
fn draw_pixels(alloc: Global, random: &mut SplitMix64, count: u32) -> Result<Pixels, NoMemory>
    ensures pixels { IfOk result (λ pixels. pixels ≡ colours random.old count) }
    ensures after { IfOk result (λ pixels. random.new ≡ state_after random.old count) }
{
    let mut pixels = Vec::with_capacity(alloc, count as usize)?;
    for _ in 0..count {
        pixels.push(colour(random.next_word()))?;
    }
    Ok(Pixels::from_vec(pixels))
}
