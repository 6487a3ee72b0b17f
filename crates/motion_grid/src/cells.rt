//! Cells in rows.
ghost use Rattle.std.specs.Prelude.{◌≡◌, ℕ, ◌<◌, ◌≤◌, ◌*◌, ◌+◌, length, slice_index_or, Some, None};
ghost use Rattle.std.specs.Option.{option_or};
ghost use Rattle.motion_grid.specs.Cells.{IsFilled};

use h265_model::Vector;

/// What is kept of a coding unit for each of its blocks of 8x8: the vector that it was copied by, if it was.
#[derive(Clone, Copy, Debug)]
pub(crate) struct Cell {
    pub vector: Option<Vector>,
}

/// Empties cells.
pub(crate) fn empty(cells: &mut [Option<Cell>])
    ensures each { (i : ℕ) → slice_index_or cells.new i None ≡ None }
    ensures long { length cells.new ≡ length cells.old }
{
    for i in 0..cells.len() {
        cells[i] = None;
    }
}

// Fills the empty ones of some cells.
fn fill_row(row: &mut [Option<Cell>], cell: Cell)
    ensures { (i : ℕ) → i < length row.old → slice_index_or row.new i None ≡ option_or (slice_index_or row.old i None) (Some cell) }
{
    for i in 0..row.len() {
        if row[i].is_none() {
            row[i] = Some(cell);
        }
    }
}

/// Fills the empty cells of a square, of cells in rows of `columns`.
pub(crate) fn fill_square(
    cells: &mut [Option<Cell>],
    columns: usize,
    left: usize,
    top: usize,
    side: usize,
    cell: Cell,
)
    requires wide { left + side ≤ columns }
    requires tall { (top + side) * columns ≤ length cells.old }
    ensures { IsFilled cells.old cells.new columns left (left + side) top (top + side) cell }
{
    for y in top..top + side {
        let at = y * columns + left;
        fill_row(&mut cells[at..at + side], cell);
    }
}
