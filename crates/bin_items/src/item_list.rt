//! A sink that keeps its items.
ghost use Rattle.std.specs.Prelude.{◌≡◌, [], ◌++◌, OnOk, OnErr};
ghost use Rattle.h265_model.specs.Code.{Plain};
ghost use Rattle.bin_items.specs.Growth.{phase_then, sample_items};

use crate::BinSink;
use h265_model::{Bin, Item, NoMemory};
use std::alloc::Global;
use std::marker::Model;

/// A list of items. It stands for exactly that list, from any contexts.
#[derive(Debug, Drop)]
pub struct ItemList {
    vec: Vec<Item>,
}

impl Model for ItemList {
    ghost use Rattle.std.specs.Prelude.{List};
    ghost use Rattle.h265_model.specs.declared.Item.{Item};

    ghost Value = { List Item };

    ghost view = { λ s. s.vec.items };
}

impl ItemList {
    /// No items yet. It takes no memory.
    pub fn new(alloc: Global) -> ItemList
        ensures { result ≡ [] }
    {
        ItemList {
            vec: Vec::new(alloc),
        }
    }

    /// Lends the list.
    pub fn as_slice(&self) -> &[Item]
        ensures { result.now ≡ self.now }
    {
        &self.vec
    }
}

impl BinSink for ItemList {
    ghost phase = { λ s. phase_then Plain s };

    ghost stands_for = { λ s list _. s ≡ list };

    fn bin(&mut self, bin: Bin) -> Result<(), NoMemory> {
        self.vec.push(Item::Bin(bin))?;
        Ok(())
    }

    fn pcm(&mut self, samples: &[u8]) -> Result<(), NoMemory> {
        append_samples(&mut self.vec, samples)
    }
}

// Adds the samples to the end, or nothing.
fn append_samples(list: &mut Vec<Item>, samples: &[u8]) -> Result<(), NoMemory>
    ensures ok { OnOk result (list.new.items ≡ list.old.items ++ sample_items samples.now) }
    ensures err { OnErr result (list.new.items ≡ list.old.items) }
{
    let start = list.len();
    for sample in samples {
        if list.push(Item::Sample(*sample)).is_err() {
            list.truncate(start);
            return Err(NoMemory);
        }
    }
    Ok(())
}
