//! Coding units whose samples are written as they are (7.3.8.7).
ghost use Rattle.std.specs.Prelude.{◌≡◌, ◌+◌, ◌*◌, ◌<◌, ◌≤◌, ◌++◌, ◌∷◌, [], List, length, map, take, nat_abs, OnOk};
ghost use Rattle.std.specs.List.{AllByRecursion};
ghost use Rattle.h265_model.specs.declared.leaf.Kind.TheVariants.{Pcm};
ghost use Rattle.h265_model.specs.declared.leaf.Leaf.{Leaf as TheLeaf};
ghost use Rattle.h265_model.specs.Tree.{content_items};
ghost use Rattle.bin_items.specs.Growth.{IsOpen, Writes};
ghost use Rattle.bin_items.specs.Square.{area};
ghost use Rattle.coding_tree.specs.Filled.{IsSample};

use crate::source::LevelSource;
use bin_items::{Bin, BinSink, Block, Leaf, NoMemory, Place};

// Copies samples that stand as levels.
fn copy_samples(levels: &[i16], out: &mut [u8])
    requires long { length levels.now ≡ length out.old }
    requires bounds { AllByRecursion IsSample levels.now }
    ensures { out.new ≡ map nat_abs levels.now }
{
    for i in 0..out.len() {
        out[i] = levels[i] as u8;
    }
}

// Adds the samples of a component behind the first `at`, and gives where they end.
fn append_samples<V: LevelSource>(
    source: &mut V,
    leaf: Leaf,
    component: u32,
    planes: &mut [u8; 3072],
    at: usize,
) -> usize
    requires low { 3 ≤ leaf.block.log2 }
    requires high { leaf.block.log2 ≤ 5 }
    requires component { component < 3 }
    requires room { at + area leaf.block.log2 ≤ 3072 }
    ensures samples { take result planes.new ≡ take at planes.old ++ (V.source source.old).samples leaf component }
    ensures end { result ≡ at + area leaf.block.log2 }
    ensures kept { V.source source.new ≡ V.source source.old }
{
    let mut block = Block::zero(leaf.block.log2);
    source.samples(leaf, component, &mut block);
    let end = at + (1 << (2 * block.log2()));
    copy_samples(block.as_slice(), &mut planes[at..end]);
    end
}

// Gives the samples of the three components one after another, and how many there are.
fn fill_planes<V: LevelSource>(source: &mut V, leaf: Leaf, planes: &mut [u8; 3072]) -> usize
    requires low { 3 ≤ leaf.block.log2 }
    requires high { leaf.block.log2 ≤ 5 }
    ensures samples { let s = V.source source.old in take result planes.new ≡ s.samples leaf 0 ++ s.samples leaf 1 ++ s.samples leaf 2 }
    ensures count { result ≡ 3 * area leaf.block.log2 }
    ensures kept { V.source source.new ≡ V.source source.old }
{
    let mut end = 0;
    for component in 0..3u32 {
        end = append_samples(source, leaf, component, planes, end);
    }
    end
}

/// Writes a unit's samples: pcm_flag 1, and the samples of the three components.
pub(crate) fn write_pcm<S: BinSink, V: LevelSource>(
    sink: &mut S,
    leaf: Leaf,
    source: &mut V,
) -> Result<(), NoMemory>
    requires low { 3 ≤ leaf.block.log2 }
    requires high { leaf.block.log2 ≤ 5 }
    requires not_ended { IsOpen (S.phase sink.old) }
    ensures taken { (before : List TheLeaf) → Writes (content_items (V.source source.old) before leaf Pcm) (S.stands_for sink.old) (S.stands_for sink.new) result }
    ensures not_ended { OnOk result (IsOpen (S.phase sink.new)) }
    ensures source { V.source source.new ≡ V.source source.old }
{
    let mut planes = [0; 3072];
    let count = fill_planes(source, leaf, &mut planes);
    sink.bin(Bin {
        value: true,
        place: Place::Terminate,
    })?;
    sink.pcm(&planes[..count])
}
