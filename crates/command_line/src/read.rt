//! The row of the table that words are in.
ghost use Rattle.std.specs.Prelude.{◌≡◌, option_map, true};
ghost use Rattle.std.specs.Option.{IfSome};
ghost use Rattle.command_line.specs.Words as table;
ghost use Rattle.command_line.specs.Views.{texts, settings_view, row_view, IsOfScript, IsOfClients, IsWithinLimits, RowIsWithinLimits};

use crate::size::{number, size};
use crate::{DecodeWords, RecordWords, Row, SerialWords, Settings};
use h265_model::Extra;
use paint_script::number_up_to;
use px_plane::Size;

const MOST_EFFORT: u32 = 2;

const MOST_KEY: u32 = 65_535;

const MOST_WORKERS: u32 = 64;

const MOST_CLIENTS: usize = 64;

// The side of a coding tree unit: wider pictures have two in a row.
const LONGEST_UNIT: u32 = 32;

/// The row of the table that these words are in, or `None` exactly where they are in none.
pub fn read_words<'a>(words: &'a [&'a str]) -> Option<Row<'a>>
    ensures row { option_map row_view result ≡ table.row_of (texts words.now) }
    ensures within { IfSome result RowIsWithinLimits }
{
    let (command, words) = words.split_first()?;
    if *command == "record" {
        record_words(Extra::Plain, words)
    } else if *command == "serial" {
        serial_words(Extra::Plain, words)
    } else if *command == "demo" {
        demo_words(words)
    } else if *command == "decode" {
        decode_words(words)
    } else if *command == "hash" {
        hash_words(words)
    } else if *command == "segments" {
        segments_words(words)
    } else if *command == "moves" {
        moves_words(words)
    } else {
        None
    }
}

// The words behind `hash`.
fn hash_words<'a>(words: &'a [&'a str]) -> Option<Row<'a>>
    ensures row { option_map row_view result ≡ table.hash_words (texts words.now) }
    ensures within { IfSome result RowIsWithinLimits }
{
    let (command, words) = words.split_first()?;
    if *command == "record" {
        record_words(Extra::Hash, words)
    } else if *command == "serial" {
        serial_words(Extra::Hash, words)
    } else {
        None
    }
}

// The words behind `segments`.
fn segments_words<'a>(words: &'a [&'a str]) -> Option<Row<'a>>
    ensures row { option_map row_view result ≡ table.segments_words (texts words.now) }
    ensures within { IfSome result RowIsWithinLimits }
{
    let (command, words) = words.split_first()?;
    if *command == "serial" {
        serial_words(Extra::Segments, words)
    } else {
        None
    }
}

// The words behind `moves`.
fn moves_words<'a>(words: &'a [&'a str]) -> Option<Row<'a>>
    ensures row { option_map row_view result ≡ table.moves_words (texts words.now) }
    ensures within { IfSome result RowIsWithinLimits }
{
    let (command, words) = words.split_first()?;
    if *command == "serial" {
        serial_words(Extra::Moves, words)
    } else {
        None
    }
}

// Whether pictures of this size can be coded so.
fn is_wide_enough(extra: Extra, size: Size) -> bool
    ensures value { result ≡ table.is_wide_enough extra size }
    ensures within { result ≡ true → IsOfScript extra size.w }
{
    match extra {
        Extra::Segments => size.w() > LONGEST_UNIT,
        Extra::Plain | Extra::Hash | Extra::Moves => true,
    }
}

fn settings(extra: Extra, picture: &str, effort: &str, key: &str) -> Option<Settings>
    ensures value { option_map settings_view result ≡ table.settings_words extra picture.now effort.now key.now }
    ensures within { IfSome result IsWithinLimits }
    ensures extra { IfSome result (λ settings. settings.extra ≡ extra) }
{
    let size = size(picture)?;
    let effort = number(effort, MOST_EFFORT)?;
    let key = number(key, MOST_KEY)?;
    if !is_wide_enough(extra, size) {
        return None;
    }
    Some(Settings {
        size,
        effort,
        key,
        extra,
    })
}

fn record_words<'a>(extra: Extra, words: &'a [&'a str]) -> Option<Row<'a>>
    requires { IsOfClients extra }
    ensures row { option_map row_view result ≡ table.record_words extra (texts words.now) }
    ensures within { IfSome result RowIsWithinLimits }
{
    let [picture, workers, effort, key, out, files @ ..] = words else {
        return None;
    };
    let settings = settings(extra, picture, effort, key)?;
    let workers = number(workers, MOST_WORKERS)?;
    if workers == 0 || files.is_empty() || files.len() > MOST_CLIENTS {
        return None;
    }
    Some(Row::Record(RecordWords {
        settings,
        workers,
        out,
        files,
    }))
}

fn serial_words<'a>(extra: Extra, words: &'a [&'a str]) -> Option<Row<'a>>
    ensures row { option_map row_view result ≡ table.serial_words extra (texts words.now) }
    ensures within { IfSome result RowIsWithinLimits }
{
    let [picture, effort, key, out, file] = words else {
        return None;
    };
    let settings = settings(extra, picture, effort, key)?;
    Some(Row::Serial(SerialWords {
        settings,
        out,
        file,
    }))
}

fn demo_words<'a>(words: &[&str]) -> Option<Row<'a>>
    ensures row { option_map row_view result ≡ table.demo_words (texts words.now) }
    ensures within { IfSome result RowIsWithinLimits }
{
    let [number] = words else {
        return None;
    };
    let number = number_up_to(number.as_bytes(), u64::MAX)?;
    Some(Row::Demo(number))
}

fn decode_words<'a>(words: &'a [&'a str]) -> Option<Row<'a>>
    ensures row { option_map row_view result ≡ table.decode_words (texts words.now) }
    ensures within { IfSome result RowIsWithinLimits }
{
    let [input, out] = words else {
        return None;
    };
    Some(Row::Decode(DecodeWords { input, out }))
}
