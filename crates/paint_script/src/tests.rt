//! Scripts with known answers.
use crate::{
    AddError, Script, ScriptError, Scripts, each_script_is_read_back, number_up_to, read_script,
    write_script,
};
use h265_model::{Rect, Rgb};
use recorder_model::{Cause, Line, Pixels};
use std::process::Abort;
use std::test::Fail;

// A text, the lines that it has or its first bad line, and the first cause that applies to that.
type Case = (&'static str, u32, Option<Cause>);

const EXAMPLES: [Case; 30] = [
    ("", 0, None),
    ("cut\n", 1, None),
    ("fill 0 0 32 32 ff8040\ncut\n", 2, None),
    ("fill 0 0 0 5 ffffff\n", 1, Some(Cause::ZeroSize)),
    ("cut", 1, Some(Cause::NoLineFeed)),
    ("cut\ncut \n", 2, Some(Cause::WordCount)),
    ("\n", 1, Some(Cause::UnknownCommand)),
    ("fill 00 0 1 1 ffffff\n", 1, Some(Cause::BadNumber)),
    ("fill 65536 0 1 1 ffffff\n", 1, Some(Cause::BadNumber)),
    ("fill 0 0 1 1 FFFFFF\n", 1, Some(Cause::BadColour)),
    ("blit 0 0 2 1 ff0000\n", 1, Some(Cause::BadColour)),
    ("blit 0 0 65 64 0\n", 1, Some(Cause::TooManyPixels)),
    ("paint 3\ncut\n", 1, Some(Cause::UnknownCommand)),
    ("cut\r\n", 1, Some(Cause::UnknownCommand)),
    ("copy 0 0 1 1 0 0\n", 1, Some(Cause::UnknownCommand)),
    ("paint 2\ncopy 0 0 1 1 0\n", 2, Some(Cause::WordCount)),
    ("cut\npaint 2\n", 2, Some(Cause::UnknownCommand)),
    ("paint 2\npaint 2\n", 2, Some(Cause::UnknownCommand)),
    ("paint 2", 1, Some(Cause::NoLineFeed)),
    ("paint 2\n", 0, None),
    ("paint 2\ncut\ncopy 0 0 1 1 65535 65535\n", 2, None),
    ("paint 2\ncut\ncopy 1 2 3 4 5 6", 3, Some(Cause::NoLineFeed)),
    ("paint 2\ncopy 1 2 3 4 5 6 7\n", 2, Some(Cause::WordCount)),
    ("paint 2\ncopy\n", 2, Some(Cause::WordCount)),
    ("paint 2\ncopy 1 2 0 4 5 65536\n", 2, Some(Cause::BadNumber)),
    ("paint 2\ncopy 1 2 0 4 05 6\n", 2, Some(Cause::BadNumber)),
    ("paint 2\ncopy 1 2 0 4 5 6\n", 2, Some(Cause::ZeroSize)),
    ("paint 2\ncopy 1 2 3 0 5 6\n", 2, Some(Cause::ZeroSize)),
    ("paint 2\r\ncut\n", 1, Some(Cause::UnknownCommand)),
    ("\npaint 2\n", 1, Some(Cause::UnknownCommand)),
];

// Scripts with a byte or two changed, added or taken away. An independent model gave the answers.
const MUTATED: [Case; 64] = [
    (
        "fill 65535 10 1 65535 0ffaa\nfill 9 8 7 6 123456\n",
        1,
        Some(Cause::BadColour),
    ),
    ("cut\n0cut\ncut\n", 2, Some(Cause::UnknownCommand)),
    (
        "blit 0 65535 1 2 abcd\nef012345\nfill 1 2 3 4 000000\n",
        1,
        Some(Cause::BadColour),
    ),
    ("cct\ncut\ncut\n", 1, Some(Cause::UnknownCommand)),
    ("fill 43 3 0 9 00ff00\ncut\n", 1, Some(Cause::ZeroSize)),
    (
        "blit  65535 1 2 abcdef012345\nfill 1 2 3 4 000000\n",
        1,
        Some(Cause::BadNumber),
    ),
    ("cut\ncut\nct\n", 3, Some(Cause::UnknownCommand)),
    (
        "fill 65535 10 1 65535 00ffaafill 9 8 7 6 123456\n",
        1,
        Some(Cause::WordCount),
    ),
    ("bit 1 1 64 65 00\n", 1, Some(Cause::UnknownCommand)),
    ("blit 1 1 64 65 00", 1, Some(Cause::NoLineFeed)),
    (
        "blit 0 65535 1 2 abcdef012e45\nfi9ll 1 2 3 4 000000\n",
        2,
        Some(Cause::UnknownCommand),
    ),
    (
        "cut\nblit 3 4 2 1 0a1b2c3die5f\ncut\n",
        2,
        Some(Cause::BadColour),
    ),
    (
        "fill 65535 10 1 65535 00ffaa\nfill 9 8 l7 6 123456\n",
        2,
        Some(Cause::BadNumber),
    ),
    ("blit 1 1 64 65 0F\n", 1, Some(Cause::TooManyPixels)),
    (
        "blit 0 65535 1 2 abcdef012345\nfill 1 2 3 4 00000f\n",
        2,
        None,
    ),
    (
        "fill 65535 10 1 65535 010ffaa\nfill 9 8 7 6 123456\n",
        1,
        Some(Cause::BadColour),
    ),
    ("fill 3 3 0 9 00ff00\ncuB\n", 1, Some(Cause::ZeroSize)),
    ("blit 0 65535 1 2 abcdef0123", 1, Some(Cause::NoLineFeed)),
    ("cu", 1, Some(Cause::NoLineFeed)),
    ("cut\nblit 5 5 4 0 00ff", 2, Some(Cause::NoLineFeed)),
    ("fill 3 3 0 9 0xf00\ncut\n", 1, Some(Cause::ZeroSize)),
    ("ct\ncu", 1, Some(Cause::UnknownCommand)),
    (
        "fill 65535 10 1 65535 00ffaa\n-fill 9 8 7 6 123456\n",
        2,
        Some(Cause::UnknownCommand),
    ),
    (
        "blit 0 65535 1 2 abcef012345\nfill 1 2 3 4 000000\n",
        1,
        Some(Cause::BadColour),
    ),
    (
        "cut\nblit 3 4 t2 1 0a1b2c3d4e5f\ncut\n",
        2,
        Some(Cause::BadNumber),
    ),
    (
        "fil 0 0 32 32 ff8040\ncut\n",
        1,
        Some(Cause::UnknownCommand),
    ),
    ("cut\nbeit 5 5 4 0 00ff00\n", 2, Some(Cause::UnknownCommand)),
    ("fill 0 0 32 3i2 ff8040", 1, Some(Cause::NoLineFeed)),
    ("fill 0 0 3", 1, Some(Cause::NoLineFeed)),
    ("blit  1 64 65 00\n", 1, Some(Cause::BadNumber)),
    (
        "fill 65535 1  1 65535 00ffaa\nfill 9 8 7 6 123456\n",
        1,
        Some(Cause::WordCount),
    ),
    ("fil", 1, Some(Cause::NoLineFeed)),
    ("fill 0 0 32 32 f8", 1, Some(Cause::NoLineFeed)),
    ("blit 1 1 c4 65 00\n", 1, Some(Cause::BadNumber)),
    ("fill 3 3 0 9 00f", 1, Some(Cause::NoLineFeed)),
    (
        "fill 6553510 1 65535 00ffaa\nfill 9 8 7 6 123456\n",
        1,
        Some(Cause::WordCount),
    ),
    (
        "blit 0 65535 1 2 abcdef012345\nfill 1 2 3  000000\n",
        2,
        Some(Cause::BadNumber),
    ),
    (
        "fill 65535 10 1 655\n5 00ffaa\nfill 9 8 7 6 123456\n",
        1,
        Some(Cause::WordCount),
    ),
    ("fill 3 3 0 9 00ff06cut\n", 1, Some(Cause::ZeroSize)),
    (
        "fill 65535 10  65535 00ffaa\nfill 9 8 7 6 123456\n",
        1,
        Some(Cause::BadNumber),
    ),
    ("cut\n", 1, None),
    ("cut\nblit 5 5 4 0 00f00\n", 2, Some(Cause::ZeroSize)),
    (
        "cut\nblit 3 4 2\n1 0a1b2c3d4e5f\ncut\n",
        2,
        Some(Cause::WordCount),
    ),
    (
        "blit 0 65 35 1 2 abcdef012345\nfill 1 2 3 4 000000\n",
        1,
        Some(Cause::WordCount),
    ),
    (
        "blit 0 65525 1 2 abcdef012345\nfill 1 2 3 4 000000\n",
        2,
        None,
    ),
    (
        "fill 65535 10 1 65535 00dfaa\nfill 9 8 7 6 123456\n",
        2,
        None,
    ),
    (
        "blit 0 65535 1 2 abcdef01235\nfill 1 2 ",
        1,
        Some(Cause::BadColour),
    ),
    ("fill 0 0 32 32 f8040\ncut\n", 1, Some(Cause::BadColour)),
    (
        "blit 065535 1 2 abcdef012345\nfill 1 2 3 4 000000\n",
        1,
        Some(Cause::WordCount),
    ),
    ("fill 0 0 32 32 ff8f40\ncut\n", 2, None),
    (
        "blit 0 65535 1 2 ab\tcdef012345\nfill 1 2 3 4 000000\n",
        1,
        Some(Cause::BadColour),
    ),
    (
        "cut\nblit 3 4 2 1 t0a1b2c3d4e5f\ncut\n",
        2,
        Some(Cause::BadColour),
    ),
    ("blit 1 1 64 6500\n", 1, Some(Cause::WordCount)),
    ("fill 0 0 3232 ff8040\ncut\n", 1, Some(Cause::WordCount)),
    (
        "blit 0 5535 1 2 abcdef012345\nfill 1 2 3 4 000000\n",
        2,
        None,
    ),
    ("blit 1 1 64 65 0\n", 1, Some(Cause::TooManyPixels)),
    ("cut\nblit 3 4 2 1 061b2c3d4e5f\ncut\n", 3, None),
    ("fill 3 3 0 9 00cf00\ncut\n", 1, Some(Cause::ZeroSize)),
    (
        "fill 6535 10 1 65535 00ffaa\nfill 9 8 7 6 123456\n",
        2,
        None,
    ),
    ("fill 0 0 32 37 ff8040\ncut\n", 2, None),
    ("blit 1 1 64\r 65 00\n", 1, Some(Cause::BadNumber)),
    ("cut\nblit 5 t5 4 0 00ff00\n", 2, Some(Cause::BadNumber)),
    ("fill 3 3 0 9 00ff00\ncute\n", 1, Some(Cause::ZeroSize)),
    ("cut\nblit 5 5 4 0 00ff0x\n", 2, Some(Cause::ZeroSize)),
];

// What reading a text must answer, and writing what was read.
fn check(
    rt: &(impl Abort + AllocGlobal),
    text: &[u8],
    line: u32,
    cause: Option<Cause>,
) -> Result<(), Fail> {
    assert!(rt; text.len() < 1 << 31);
    match (read_script(rt.alloc(), text), cause) {
        (Ok(script), None) => {
            assert_eq!(rt; script.lines(), line);
            let written = write_script(rt.alloc(), &script)?;
            assert!(rt; written.as_slice() == text);
        }
        (Err(error), Some(cause)) => assert_eq!(rt; error, ScriptError::BadLine { line, cause }),
        _ => panic!(rt; "line {line}"),
    }
    Ok(())
}

#[test]
fn reads_the_examples(rt: HostRuntime) -> Result<(), Fail> {
    for (text, line, cause) in EXAMPLES {
        check(&rt, text.as_bytes(), line, cause)?;
    }
    for (text, line, cause) in MUTATED {
        check(&rt, text.as_bytes(), line, cause)?;
    }
    Ok(())
}

// A script that ends after any of its bytes is read where that is the end of a line, and else its last line has no line feed.
#[test]
fn reads_whole_lines_alone(rt: HostRuntime) -> Result<(), Fail> {
    let text: &[u8] = b"fill 1 2 3 4 a0b0c0\nblit 0 0 1 2 000000ffffff\ncut\n";
    let mut lines = 0;
    check(&rt, &[], 0, None)?;
    for (k, byte) in text.iter().enumerate() {
        assert!(rt; lines < 4);
        if *byte == b'\n' {
            lines += 1;
            check(&rt, &text[..=k], lines, None)?;
        } else {
            check(&rt, &text[..=k], lines + 1, Some(Cause::NoLineFeed))?;
        }
    }
    assert_eq!(rt; lines, 3);
    Ok(())
}

// The byte, so many times.
fn filled(rt: &impl AllocGlobal, byte: u8, count: usize) -> Result<Vec<u8>, Fail> {
    Ok(vec![in rt.alloc(); byte; count]?)
}

// What becomes of such bytes between two texts.
fn check_filled(
    rt: &(impl Abort + AllocGlobal),
    front: &[u8],
    byte: u8,
    count: usize,
    back: &[u8],
    cause: Cause,
) -> Result<(), Fail> {
    let mut text = Vec::new(rt.alloc());
    text.extend_from_slice(front)?;
    text.extend_from_slice(filled(rt, byte, count)?.as_slice())?;
    text.extend_from_slice(back)?;
    check(rt, text.as_slice(), 1, Some(cause))
}

#[test]
fn refuses_hostile_texts(rt: HostRuntime) -> Result<(), Fail> {
    check_filled(&rt, b"", b'0', 1 << 24, b"", Cause::NoLineFeed)?;
    check_filled(&rt, b"", 0, 1 << 24, b"\n", Cause::UnknownCommand)?;
    check_filled(&rt, b"fill", b' ', 1_000_000, b"\n", Cause::WordCount)?;
    check_filled(&rt, b"cut", b' ', 1_000_000, b"\n", Cause::WordCount)?;
    check_filled(
        &rt,
        b"fill 1",
        b'0',
        1_000_000,
        b" 0 1 1 000000\n",
        Cause::BadNumber,
    )?;
    check_filled(
        &rt,
        b"fill 0 0 1 1 ",
        b'0',
        1_000_000,
        b"\n",
        Cause::BadColour,
    )?;
    check_filled(
        &rt,
        b"blit 0 0 64 64 ",
        b'f',
        6 * 4096 - 1,
        b"\n",
        Cause::BadColour,
    )?;
    check_filled(&rt, b"fill 0 0 1 1 00000", 0xC3, 1, b"\n", Cause::BadColour)?;
    Ok(())
}

#[test]
fn keeps_lines(rt: HostRuntime) -> Result<(), Fail> {
    let alloc = rt.alloc();
    let rect = Rect {
        x: 1,
        y: 2,
        w: 2,
        h: 1,
    };
    let black = Rgb { r: 0, g: 0, b: 0 };
    let grey = Rgb {
        r: 128,
        g: 129,
        b: 10,
    };
    let pixels = [black, grey].to_vec(alloc)?;
    let mut script = Script::empty(alloc);
    script.add(Line::Cut)?;
    script.add(Line::Fill { rect, colour: grey })?;
    let pixels = Pixels::from_vec(pixels);
    assert_eq!(rt; pixels.as_slice().len(), 2);
    script.add(Line::Blit { rect, pixels })?;
    script.add(Line::Cut)?;
    assert_eq!(rt; (script.lines(), script.cuts()), (4, 2));
    assert!(rt; matches!(script.line(2), Some(Line::Blit { .. })));
    assert!(rt; matches!(script.line(3), Some(Line::Cut)));
    assert!(rt; script.line(4).is_none());
    let text = write_script(alloc, &script)?;
    assert!(rt;
        text.as_slice() == b"cut\nfill 1 2 2 1 80810a\nblit 1 2 2 1 00000080810a\ncut\n".as_slice()
    );
    each_script_is_read_back();
    Ok(())
}

#[test]
fn keeps_versions(rt: HostRuntime) -> Result<(), Fail> {
    let alloc = rt.alloc();
    let rect = Rect {
        x: 1,
        y: 2,
        w: 3,
        h: 4,
    };
    let (to_x, to_y) = (0, 65_535);
    let mut script = Script::empty_of(alloc, 2);
    script.add(Line::Copy { rect, to_x, to_y })?;
    script.add(Line::Cut)?;
    assert_eq!(rt;
        (script.version(), script.lines(), script.cuts()),
        (2, 2, 1)
    );
    let text = write_script(alloc, &script)?;
    assert!(rt; text.as_slice() == b"paint 2\ncopy 1 2 3 4 0 65535\ncut\n".as_slice());
    assert_eq!(rt; read_script(alloc, &text)?.version(), 2);
    assert_eq!(rt; read_script(alloc, b"cut\n")?.version(), 1);
    assert_eq!(rt; Script::empty(alloc).version(), 1);
    assert_eq!(rt; Script::empty_of(alloc, 1).version(), 1);
    let text = write_script(alloc, &Script::empty_of(alloc, 2))?;
    assert!(rt; text.as_slice() == b"paint 2\n".as_slice());
    Ok(())
}

#[test]
fn keeps_scripts(rt: HostRuntime) -> Result<(), Fail> {
    let alloc = rt.alloc();
    let mut scripts = Scripts::one(alloc, Script::empty(alloc))?;
    for _client in 1..64 {
        let added = scripts.add(Script::empty(alloc));
        assert!(rt; added.is_ok());
    }
    assert!(rt; matches!(scripts.add(Script::empty(alloc)), Err(AddError::Full(_))));
    assert_eq!(rt; scripts.count(), 64);
    assert!(rt; scripts.script(63).is_some());
    assert!(rt; scripts.script(64).is_none());
    Ok(())
}

#[test]
fn reads_numbers(rt: HostRuntime) {
    let most = u64::MAX;
    for (word, most, number) in [
        ("0", 0, Some(0)),
        ("65535", 65_535, Some(65_535)),
        ("65536", 65_535, None),
        ("18446744073709551615", most, Some(most)),
        ("18446744073709551616", most, None),
        ("", most, None),
        ("00", most, None),
        ("01", most, None),
        ("+1", most, None),
        ("1 ", most, None),
    ] {
        assert_eq!(rt; number_up_to(word.as_bytes(), most), number, "{word}");
    }
}

#[test]
fn errors_in_words(rt: HostRuntime) -> Result<(), Fail> {
    let alloc = rt.alloc();
    let (line, cause) = (17, Cause::ZeroSize);
    let rows = [
        (
            ScriptError::BadLine { line, cause },
            "line 17 of the script: ZeroSize",
        ),
        (ScriptError::NoMemory, "no memory"),
    ];
    for (error, text) in rows {
        assert_eq!(rt; format!(in alloc; "{error}")?.as_str(), text);
    }
    let full = AddError::Full(Script::empty(alloc));
    assert_eq!(rt;
        format!(in alloc; "{full}")?.as_str(),
        "there are 64 scripts"
    );
    let refused = AddError::NoMemory(Script::empty(alloc));
    assert_eq!(rt; format!(in alloc; "{refused}")?.as_str(), "no memory");
    Ok(())
}
