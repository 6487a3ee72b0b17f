//! Some scripts.
ghost use Rattle.std.specs.Prelude.{◌≡◌, ◌≤◌, ◌∷◌, [], ◌++◌, ◌↔◌, length, IfOk, IfErr, OnOk, OnErr};
ghost use Rattle.std.specs.List.{slice_get};
ghost use Rattle.paint_script.specs.Full.{IsFull, given_back};
ghost use Rattle.paint_script.specs.Scripts.{lines_lent};

use crate::script::Script;
use h265_model::NoMemory;
use std::alloc::Global;
use std::marker::Model;
use thiserror::Error;

/// The most scripts.
const MOST_SCRIPTS: usize = 64;

/// The scripts of all clients, of which there are from 1 to 64.
#[derive(Debug, Drop)]
pub struct Scripts {
    list: Vec<Script>,
}

/// Why a script isn't added. It is handed back.
#[derive(Debug, Drop, Error)]
pub enum AddError {
    /// There are 64 scripts.
    #[error("there are 64 scripts")]
    Full(Script),
    /// The allocator refused.
    #[error("no memory")]
    NoMemory(Script),
}

impl Model for Scripts {
    ghost use Rattle.std.specs.Prelude.{List, length, ◌≤◌};
    ghost use Rattle.recorder_model.specs.declared.line.Line.{Line};

    ghost Value = { List (List Line) };

    ghost use Rattle.paint_script.specs.Scripts.{lines_of_each};

    ghost view = { λ a. lines_of_each a.list.items };

    ghost invariant = { λ a. (1 ≤ length a.list.items) × (length a.list.items ≤ 64) };
}

impl Scripts {
    /// One client's script.
    pub fn one(alloc: Global, script: Script) -> Result<Scripts, NoMemory>
        ensures { IfOk result (λ scripts. scripts ≡ script.lines ∷ []) }
    {
        let mut list = Vec::new(alloc);
        list.push(script)?;
        Ok(Scripts { list })
    }

    /// Appends the script of one more client. After an error the scripts are as they were. `Full` comes exactly where
    /// there are 64.
    pub fn add(&mut self, script: Script) -> Result<(), AddError>
        ensures added { OnOk result (self.new ≡ self.old ++ script.lines ∷ []) }
        ensures unchanged { OnErr result (self.new ≡ self.old) }
        ensures handed_back { IfErr result (λ e. given_back e ≡ script) }
        ensures full { IsFull result ↔ (64 ≤ length self.old) }
    {
        if self.list.len() >= MOST_SCRIPTS {
            return Err(AddError::Full(script));
        }
        match self.list.push(script) {
            Ok(()) => Ok(()),
            Err(refused) => Err(AddError::NoMemory(refused.value)),
        }
    }

    /// The script of a client, by its number from 0. `None` exactly past the last.
    pub fn script(&self, client: u32) -> Option<&Script>
        ensures { lines_lent result ≡ slice_get self.now client }
    {
        self.list.get(client as usize)
    }

    /// How many scripts there are.
    pub fn count(&self) -> u32
        ensures value { result ≡ length self.now }
        ensures some { 1 ≤ result }
        ensures few { result ≤ 64 }
    {
        self.list.len() as u32
    }
}
