//! Which coding units are coded of a coding tree unit.
ghost use Rattle.std.specs.Prelude.{◌≡◌, ◌<◌, ◌≤◌, [], map, get_or, length};
ghost use Rattle.h265_model.specs.Tiles.{tile_count};
ghost use Rattle.h265_model.specs.Tree.{IsLawfulTree, coded_first};
ghost use Rattle.h265_model.specs.Motion.{still, still_kind};
ghost use Rattle.motion_grid.specs.Cells.{HasMotion};
ghost use Rattle.motion_code.specs.Moves.{MayAllStand, coded_leaves};
ghost use Rattle.picture_encoder.specs.Planning.{IsTask, size_of_task, kind_of_task};
ghost use Rattle.row_moves.specs.Moves.{all_units};

use bin_items::{Kind, Leaf};
use h265_model::{MoveKind, MoveLeaf};
use motion_grid::MotionGrid;
use motion_search::{MoveLeaves, plan_moves};
use picture_encoder::{Task, plan_unit};
use px_plane::Steps;
use std::sync::ledger::Ledger;

// The kind of a unit that doesn't move.
fn kind_of(kind: Kind) -> MoveKind
    ensures { result ≡ still_kind kind }
{
    match kind {
        Kind::Skip => MoveKind::Skip,
        Kind::Pcm => MoveKind::Pcm,
        Kind::Intra(mode) => MoveKind::Intra(mode),
    }
}

// Coding units of which none moves.
fn still_units(leaves: &[Leaf]) -> MoveLeaves
    requires few { length leaves.now ≤ 16 }
    ensures { result ≡ map still leaves.now }
{
    let mut units = MoveLeaves::new();
    for leaf in leaves {
        units.push(MoveLeaf {
            block: leaf.block,
            kind: kind_of(leaf.kind),
        });
    }
    units
}

/// The coding units of a coding tree unit after those that `motion` stands for. An IDR picture copies nothing: its
/// units are those of a picture in which no blocks move.
pub(crate) fn plan_ctu<L: Ledger>(
    task: &Task,
    motion: &MotionGrid,
    ctu: u32,
    steps: &mut Steps<L>,
) -> MoveLeaves
    requires task { IsTask task.now }
    requires motion { motion.now.size ≡ size_of_task task.now }
    requires ctu { ctu < tile_count (size_of_task task.now) }
    requires coded { HasMotion motion.now (coded_first (all_units task.now) ctu) }
    ensures chosen { result ≡ get_or (all_units task.now) ctu [] }
    ensures tree { IsLawfulTree (size_of_task task.now) ctu (coded_leaves result) }
    ensures allowed { MayAllStand (kind_of_task task.now) result }
{
    match task.reference {
        Some(before) => {
            let touched = task.touched[ctu as usize];
            plan_moves(before, task.current, motion, task.effort, ctu, touched)
        }
        None => {
            let leaves = plan_unit(task, ctu, steps);
            still_units(leaves.as_slice())
        }
    }
}
