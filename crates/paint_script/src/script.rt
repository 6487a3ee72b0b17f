//! Scripts in memory.
ghost use Rattle.std.specs.Prelude.{◌≡◌, ◌<◌, ◌≤◌, ◌-◌, ◌^◌, ◌∷◌, [], ◌++◌, length, count_by, OnOk, OnErr, IfOk};
ghost use Rattle.std.specs.Option.{option_copied};
ghost use Rattle.std.specs.List.{slice_get};
ghost use Rattle.recorder_model.specs.Script.{is_cut};
ghost use Rattle.paint_script.specs.Spellable.{IsVersion, IsSpellable, IsOfVersion, AreSpellable, AreOfVersion};

use h265_model::NoMemory;
use recorder_model::Line;
use std::alloc::Global;
use std::marker::Model;

/// A version, 1 or 2, and a list of lines. The grammar of the version can spell each: numbers are at most 65535, sides at
/// least 1, a `blit` has as many pixels as its rectangle has places, at most 4096, and only version 2 has `copy`.
///
/// A line that is `cut` takes 4 bytes.
#[derive(Debug, Drop)]
pub struct Script {
    version: u32,
    // Where each line stands in `paints`, from 1, and 0 for a `cut`.
    places: Vec<u32>,
    // The lines that paint.
    paints: Vec<Line>,
    // What is lent for each `cut`.
    cut: Line,
}

impl Model for Script {
    ghost use Rattle.paint_script.specs.Scripts as scripts;

    ghost Value = { scripts.Script };

    ghost use Rattle.paint_script.specs.Scripts.{script_in, IsInside};

    ghost view = { script_in };

    ghost invariant = { IsInside };
}

impl Script {
    /// A script of version 1 with no lines. Takes no memory.
    pub fn empty(alloc: Global) -> Script
        ensures { result ≡ record { version = 1; lines = [] } }
    {
        Script::empty_of(alloc, 1)
    }

    /// A script of a version, 1 or 2, with no lines. Takes no memory.
    pub fn empty_of(alloc: Global, version: u32) -> Script
        requires { IsVersion version }
        ensures { result ≡ record { version = version; lines = [] } }
    {
        Script {
            version,
            places: Vec::new(alloc),
            paints: Vec::new(alloc),
            cut: Line::Cut,
        }
    }

    // A script of a version with no lines, with room for so many lines, and for so many that paint.
    pub(crate) fn with_capacity(
        alloc: Global,
        version: u32,
        lines: usize,
        paints: usize,
    ) -> Result<Script, NoMemory>
        requires { IsVersion version }
        ensures { IfOk result (λ script. script ≡ record { version = version; lines = [] }) }
    {
        let places = Vec::with_capacity(alloc, lines)?;
        let paints = Vec::with_capacity(alloc, paints)?;
        Ok(Script {
            version,
            places,
            paints,
            cut: Line::Cut,
        })
    }

    /// The version, 1 or 2.
    pub fn version(&self) -> u32
        ensures value { result ≡ self.now.version }
        ensures known { IsVersion result }
    {
        self.version
    }

    /// Appends a line. A `copy` needs version 2. After `NoMemory` the script is as it was, and the line is given up.
    pub fn add(&mut self, line: Line) -> Result<(), NoMemory>
        requires room { length self.old.lines < 2 ^ 32 - 1 }
        requires spellable { IsSpellable line }
        requires version { IsOfVersion self.old.version line }
        ensures added { OnOk result (self.new ≡ record { version = self.old.version; lines = self.old.lines ++ line ∷ [] }) }
        ensures unchanged { OnErr result (self.new ≡ self.old) }
    {
        if let Line::Cut = line {
            self.places.push(0)?;
            return Ok(());
        }
        let place = self.paints.len() as u32 + 1;
        self.places.push(place)?;
        if self.paints.push(line).is_err() {
            let _ = self.places.pop();
            return Err(NoMemory);
        }
        Ok(())
    }

    /// The line of this number, from 0. `None` exactly past the end.
    pub fn line(&self, index: u32) -> Option<&Line>
        ensures { option_copied result ≡ slice_get self.now.lines index }
    {
        let place = *self.places.get(index as usize)?;
        if place == 0 {
            Some(&self.cut)
        } else {
            self.paints.get(place as usize - 1)
        }
    }

    /// How many lines there are.
    pub fn lines(&self) -> u32
        ensures value { result ≡ length self.now.lines }
        ensures spellable { AreSpellable self.now.lines }
        ensures fits { AreOfVersion self.now.version self.now.lines }
    {
        self.places.len() as u32
    }

    /// How many lines are `cut`.
    pub fn cuts(&self) -> u32
        ensures { result ≡ count_by is_cut self.now.lines }
    {
        (self.places.len() - self.paints.len()) as u32
    }
}
