//! A row of coding tree units as a job of the wavefront.
ghost use Rattle.std.specs.Prelude.{◌≡◌, ◌<◌, ◌≤◌, ℕ, ◌+◌, ◌*◌, ◌-◌, ◌++◌, [], length, map, slice_index_or, get_or, false, None, Some, IfOk, OnOk};
ghost use Rattle.std.specs.Arc.{arc_value};
ghost use Rattle.std.specs.List.{AllByRecursion};
ghost use Rattle.h265_model.specs.Plain.{ctus, joined};
ghost use Rattle.h265_model.specs.Tree.{IsLawfulTree};
ghost use Rattle.px_plane.specs.Planes.{IsPicture};
ghost use Rattle.pu_code.specs.Cells.{Cells, StandsFor, IsUnit};
ghost use Rattle.row_coder.specs.Rows.{Row, AreTrees, AreAbove, first_contexts, leaves_of};

use crate::levels::LentLevels;
use bin_items::{Bin, BinSink, Leaf, Leaves, NoMemory, Place};
use cabac_bytes::ByteCoder;
use cabac_tables::Contexts;
use coding_tree::write_ctu;
use h265_model::SliceKind;
use pu_code::Grid;
use px_plane::{Picture, Size};
use row_core::RowJob;
use std::alloc::Global;
use std::marker::Model;
use std::sync::Arc;

/// A row of coding tree units that is coded, one unit after another. Contracts see what it is made from and how far it is.
#[derive(Drop)]
pub struct CtuRow {
    alloc: Global,
    picture: Arc<Picture, Global>,
    kind: SliceKind,
    number: u32,
    // What is known of the row above.
    above: Vec<Leaf>,
    plans: Vec<Leaves>,
    // The coding units of the row above and of the units that are coded, from the first `code_next` on.
    grid: Option<Grid>,
    coder: ByteCoder,
    begun: bool,
    inherited: Option<Contexts>,
    // `None` while a unit is under way, and for good once a call found no memory.
    coded: Option<u32>,
}

impl Model for CtuRow {
    ghost use Rattle.std.specs.Arc.{arc_value};
    ghost use Rattle.row_coder.specs.Rows.{Row, IsRow, leaves_of};

    ghost Value = { Row };

    ghost view = { λ s. record {
      planes = arc_value s.picture;
      kind = s.kind;
      number = s.number;
      above = s.above.items;
      plans = leaves_of s.plans.items;
      begun = s.begun;
      inherited = s.inherited;
      coded = s.coded;
    } };

    ghost invariant = { λ s. IsRow (record {
      planes = arc_value s.picture;
      kind = s.kind;
      number = s.number;
      above = s.above.items;
      plans = leaves_of s.plans.items;
      begun = s.begun;
      inherited = s.inherited;
      coded = s.coded;
    }) s.grid s.coder };
}

// The contexts that a row starts from (9.3.1). `across` is how many coding tree units stand side by side.
fn first_of(kind: SliceKind, across: u32, number: u32, inherited: &Option<Contexts>) -> Contexts
    ensures { result ≡ first_contexts kind across number inherited.now }
{
    if number == 0 || across < 2 {
        return Contexts::start(kind);
    }
    match inherited {
        Some(contexts) => *contexts,
        None => Contexts::start(kind),
    }
}

// A grid with the coding units of the row above.
fn grid_above(alloc: Global, size: Size, above: &[Leaf]) -> Result<Grid, NoMemory>
    requires { AllByRecursion (IsUnit size) above.now }
    ensures size { IfOk result (λ grid. grid.size ≡ size) }
    ensures set { IfOk result (λ grid. StandsFor grid above.now) }
{
    let mut grid = Grid::new(alloc, size)?;
    for leaf in above {
        grid.set(*leaf);
    }
    Ok(grid)
}

// The grid that was kept, or else one with the coding units of the row above.
fn grid_for(alloc: Global, kept: Option<Grid>, size: Size, above: &[Leaf]) -> Result<Grid, NoMemory>
    requires { AllByRecursion (IsUnit size) above.now }
    ensures made { IfOk result (λ grid. kept ≡ None → (grid.size ≡ size) × StandsFor grid above.now) }
    ensures kept { IfOk result (λ grid. (before : Cells) → kept ≡ Some before → grid ≡ before) }
{
    match kept {
        Some(grid) => Ok(grid),
        None => grid_above(alloc, size, above),
    }
}

impl CtuRow {
    /// A row of this picture, in a slice of this kind. `row` is its number from the top, and `plans` are the coding units of its coding tree units.
    ///
    /// It stands for no leaves of the row above, which `with_above` adds.
    ///
    /// # Errors
    ///
    /// None today: a row takes memory by `with_above` and while it is coded.
    pub fn new(
        alloc: Global,
        now: Arc<Picture, Global>,
        kind: SliceKind,
        row: u32,
        plans: Vec<Leaves>,
    ) -> Result<CtuRow, NoMemory>
        requires row { row < ctus (arc_value now).size.h }
        requires plans { AreTrees kind (arc_value now).size row (leaves_of plans.items) }
        ensures { IfOk result (λ made. made ≡ record {
          planes = arc_value now;
          kind = kind;
          number = row;
          above = [];
          plans = leaves_of plans.items;
          begun = false;
          inherited = None;
          coded = Some 0;
        }) }
    {
        let _size = now.size();
        Ok(CtuRow {
            alloc,
            picture: now,
            kind,
            number: row,
            above: Vec::new(alloc),
            plans,
            grid: None,
            coder: ByteCoder::new(alloc, Contexts::start(kind)),
            begun: false,
            inherited: None,
            coded: Some(0),
        })
    }

    // Adds the leaves of a coding tree unit of the row above.
    fn add_above(&mut self, leaves: &[Leaf]) -> Result<(), NoMemory>
        requires fresh { self.old.begun ≡ false }
        requires units { AllByRecursion (IsUnit self.old.planes.size) leaves.now }
        ensures { OnOk result (self.new ≡ record self.old { above = self.old.above ++ leaves.now }) }
    {
        self.above.extend_from_slice(leaves)?;
        Ok(())
    }

    /// The row with the coding units of the row above it, which its own depend on. It wasn't begun.
    ///
    /// # Errors
    ///
    /// `NoMemory` where the allocator refuses the list of them. The row is then given up.
    pub fn with_above(self, above: &[Leaves]) -> Result<CtuRow, NoMemory>
        requires not_first { 0 < self.number }
        requires fresh { self.begun ≡ false }
        requires above { AreAbove self.planes.size (self.number - 1) (leaves_of above.now) }
        ensures { IfOk result (λ made. made ≡ record self { above = self.above ++ joined (leaves_of above.now) }) }
    {
        let mut row = self;
        for leaves in above {
            row.add_above(leaves.as_slice())?;
        }
        Ok(row)
    }
}

impl RowJob for CtuRow {
    ghost use Rattle.row_coder.specs.Rows.{plan_of, coded_of};
    ghost use Rattle.row_coder.specs.HandsOn.{hands_on_contexts};

    ghost plan = { λ r. plan_of r };

    ghost begun = { λ r. r.begun };

    ghost inherits = { λ r. r.inherited };

    ghost coded = { λ r. coded_of r.coded };

    fn width(&self) -> u32 {
        (self.picture.size().w() + 31) / 32
    }

    fn begin(&mut self, inherited: Option<Contexts>) {
        let first = first_of(self.kind, self.width(), self.number, &inherited);
        self.coder = ByteCoder::new(self.alloc, first);
        self.inherited = inherited;
        self.begun = true;
    }

    fn code_next(&mut self) -> Result<(), NoMemory> {
        let coded = self.coded.take().ok_or(NoMemory)?;
        let size = self.picture.size();
        let across = (size.w() + 31) / 32;
        let ctu = self.number * across + coded;
        let leaves = self.plans[coded as usize].as_slice();
        let mut grid = grid_for(self.alloc, self.grid.take(), size, self.above.as_slice())?;
        let mut source = LentLevels {
            lent: &self.picture,
        };
        write_ctu(
            &mut self.coder,
            self.kind,
            &mut grid,
            size,
            ctu,
            leaves,
            &mut source,
        )?;
        self.coder.bin(Bin {
            value: ctu + 1 == across * ((size.h() + 31) / 32),
            place: Place::Terminate,
        })?;
        self.grid = Some(grid);
        self.coded = Some(coded + 1);
        Ok(())
    }

    fn contexts(&self) -> Contexts {
        self.coder.contexts()
    }

    fn finish(self) -> Result<Vec<u8>, NoMemory> {
        let is_last = self.number + 1 == (self.picture.size().h() + 31) / 32;
        let mut coder = self.coder;
        if !is_last {
            coder.bin(Bin {
                value: true,
                place: Place::Terminate,
            })?;
        }
        coder.finish()
    }

    ghost hands_on = { hands_on_contexts };
}
