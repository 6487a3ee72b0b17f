//! Writing a script.
ghost use Rattle.std.specs.Prelude.{◌≡◌, ◌<◌, ◌≤◌, ◌∷◌, [], ◌++◌, ◌==◌, flat_map, IfOk, OnOk, if◌then◌else◌};
ghost use Rattle.recorder_model.specs.Script as grammar;
ghost use Rattle.paint_script.specs.Spellable.{IsSpellable, IsSpellableRect};
ghost use Rattle.paint_script.specs.Laws.{IsReadAs};

use crate::script::Script;
use h265_model::{NoMemory, Rect, Rgb};
use recorder_model::Line;
use std::alloc::Global;

// The most digits of a number.
const MOST_DIGITS: usize = 5;

// A hexadecimal digit.
fn hex_digit(value: u8) -> u8
    requires { value < 16 }
    ensures { result ≡ grammar.hex_digit value }
{
    if value < 10 {
        b'0' + value
    } else {
        b'a' - 10 + value
    }
}

// Appends the six digits of a colour.
fn write_colour(text: &mut Vec<u8>, colour: Rgb) -> Result<(), NoMemory>
    ensures { OnOk result (text.new.items ≡ text.old.items ++ grammar.colour_text colour) }
{
    let Rgb { r, g, b } = colour;
    let digits = [
        hex_digit(r / 16),
        hex_digit(r % 16),
        hex_digit(g / 16),
        hex_digit(g % 16),
        hex_digit(b / 16),
        hex_digit(b % 16),
    ];
    text.extend_from_slice(&digits)?;
    Ok(())
}

// Appends the digits of pixels.
fn write_pixels(text: &mut Vec<u8>, pixels: &[Rgb]) -> Result<(), NoMemory>
    ensures { OnOk result (text.new.items ≡ text.old.items ++ flat_map grammar.colour_text pixels.now) }
{
    for pixel in pixels {
        write_colour(text, *pixel)?;
    }
    Ok(())
}

// Appends a space and a number.
fn write_number(text: &mut Vec<u8>, number: u32) -> Result<(), NoMemory>
    requires { number ≤ grammar.most_number }
    ensures { OnOk result (text.new.items ≡ text.old.items ++ grammar.spaced number) }
{
    let mut digits = [0u8; MOST_DIGITS];
    let mut first = MOST_DIGITS - 1;
    let mut left = number;
    while left >= 10 {
        digits[first] = b'0' + (left % 10) as u8;
        left /= 10;
        first -= 1;
    }
    digits[first] = b'0' + left as u8;
    text.push(b' ')?;
    text.extend_from_slice(&digits[first..])?;
    Ok(())
}

// Appends the four numbers of a rectangle.
fn write_rect(text: &mut Vec<u8>, rect: Rect) -> Result<(), NoMemory>
    requires { IsSpellableRect rect }
    ensures { OnOk result (text.new.items ≡ text.old.items ++ grammar.rect_text rect) }
{
    write_number(text, rect.x)?;
    write_number(text, rect.y)?;
    write_number(text, rect.w)?;
    write_number(text, rect.h)
}

// Appends a line without its line feed.
fn write_words(text: &mut Vec<u8>, line: &Line) -> Result<(), NoMemory>
    requires { IsSpellable line.now }
    ensures { OnOk result (text.new.items ≡ text.old.items ++ grammar.line_text line.now) }
{
    match line {
        Line::Fill { rect, colour } => {
            text.extend_from_slice(b"fill")?;
            write_rect(text, *rect)?;
            text.push(b' ')?;
            write_colour(text, *colour)
        }
        Line::Blit { rect, pixels } => {
            text.extend_from_slice(b"blit")?;
            write_rect(text, *rect)?;
            text.push(b' ')?;
            write_pixels(text, pixels.as_slice())
        }
        Line::Copy { rect, to_x, to_y } => {
            text.extend_from_slice(b"copy")?;
            write_rect(text, *rect)?;
            write_number(text, *to_x)?;
            write_number(text, *to_y)
        }
        Line::Cut => {
            text.extend_from_slice(b"cut")?;
            Ok(())
        }
    }
}

// Appends a line.
fn write_line(text: &mut Vec<u8>, line: &Line) -> Result<(), NoMemory>
    requires { IsSpellable line.now }
    ensures { OnOk result (text.new.items ≡ text.old.items ++ (grammar.line_text line.now ++ 10 ∷ [])) }
{
    write_words(text, line)?;
    text.push(b'\n')?;
    Ok(())
}

// The line before a script of a version.
fn first_line<'a>(version: u32) -> &'a [u8]
    ensures { result.now ≡ (if version == 2 then grammar.version_line else []) }
{
    if version == 2 { b"paint 2\n" } else { b"" }
}

/// Writes the one spelling of a script. Reading it gives the script back, its version too.
pub fn write_script(alloc: Global, script: &Script) -> Result<Vec<u8>, NoMemory>
    ensures written { IfOk result (λ text. text.items ≡ grammar.script_text script.now.version script.now.lines) }
    ensures read_back { IfOk result (λ text. IsReadAs text.items script.now.version script.now.lines) }
{
    let mut text = Vec::new(alloc);
    text.extend_from_slice(first_line(script.version()))?;
    for index in 0..script.lines() {
        let line = script.line(index).unwrap();
        write_line(&mut text, line)?;
    }
    Ok(text)
}
