//! What is kept of a coding unit for each of its blocks of 8x8.
ghost use Rattle.std.specs.Prelude.{◌≡◌, ℕ, ◌<◌, ◌≤◌, ◌*◌, ◌+◌, length, slice_index_or, Some, None};
ghost use Rattle.std.specs.Option.{option_or};
ghost use Rattle.h265_model.specs.Tree.{IsMode};
ghost use Rattle.pu_code.specs.Cells.{cell_of, IsFilled, is_smaller, is_copy, mode_kept};

use bin_items::{Kind, Leaf};

/// What neighbours ask of a coding unit: the base-2 logarithm of its side, whether it is a copy, and its mode as a candidate, which is DC where
/// it has none.
#[derive(Clone, Copy, Debug)]
pub(crate) struct Cell {
    pub log2: u8,
    pub skipped: bool,
    pub mode: u8,
}

/// The mode that counts where there is none: DC (8.4.2).
pub(crate) const DC: u32 = 1;

impl Cell {
    /// What is kept of a leaf.
    pub(crate) fn of(leaf: Leaf) -> Cell
        requires side { leaf.block.log2 ≤ 5 }
        requires mode { IsMode leaf.kind }
        ensures { result ≡ cell_of leaf }
    {
        let mode = match leaf.kind {
            Kind::Skip | Kind::Pcm => DC,
            Kind::Intra(mode) => mode,
        };
        Cell {
            log2: leaf.block.log2 as u8,
            skipped: leaf.kind == Kind::Skip,
            mode: mode as u8,
        }
    }
}

/// Whether a neighbour has a side below 2 ^ `log2`.
#[inline(always)]
pub(crate) fn is_smaller(cell: Option<Cell>, log2: u32) -> bool
    ensures { result ≡ is_smaller log2 cell }
{
    match cell {
        None => false,
        Some(cell) => u32::from(cell.log2) < log2,
    }
}

/// Whether a neighbour is a copy.
#[inline(always)]
pub(crate) fn is_copy(cell: Option<Cell>) -> bool
    ensures { result ≡ is_copy cell }
{
    match cell {
        None => false,
        Some(cell) => cell.skipped,
    }
}

/// The mode of a neighbour as a candidate.
#[inline(always)]
pub(crate) fn candidate(cell: Option<Cell>) -> u32
    ensures mode { result ≡ mode_kept cell }
    ensures small { result < 256 }
{
    match cell {
        None => DC,
        Some(cell) => u32::from(cell.mode),
    }
}

// Fills the empty ones of some cells.
fn fill_row(row: &mut [Option<Cell>], cell: Cell)
    ensures { (i : ℕ) → i < length row.old → slice_index_or row.new i None ≡ option_or (slice_index_or row.old i None) (Some cell) }
{
    for i in 0..row.len() {
        if row[i].is_none() {
            row[i] = Some(cell);
        }
    }
}

/// Fills the empty cells of a square, of cells in rows of `columns`.
pub(crate) fn fill_square(
    cells: &mut [Option<Cell>],
    columns: usize,
    left: usize,
    top: usize,
    side: usize,
    cell: Cell,
)
    requires wide { left + side ≤ columns }
    requires tall { (top + side) * columns ≤ length cells.old }
    ensures { IsFilled cells.old cells.new columns left (left + side) top (top + side) cell }
{
    for y in top..top + side {
        let at = y * columns + left;
        fill_row(&mut cells[at..at + side], cell);
    }
}
