//! All rows of a picture.
ghost use Rattle.std.specs.Prelude.{◌≡◌, ◌≤◌, ◌↔◌, IsTrue, IsOk, OnOk, OnErr, IfOk, IfErr};
ghost use Rattle.h265_model.specs.Wave.{new_wave, row_at, claimed_count, must_sync, allows_row, after_event};
ghost use Rattle.row_core.specs.Events.{event_of};

use crate::event::{NotLawful, RowEvent};
use crate::row::Row;
use h265_model::NoMemory;
use std::alloc::Global;
use std::marker::Model;

/// The rows of coding tree units of a picture, from the top, and what was done of each.
///
/// Rows are claimed from the top. A row below another takes its contexts after two coding tree units of the other, where there
/// are as many (9.3.1), so it is coded beside it.
#[derive(Debug, Drop)]
pub struct Wave {
    width: u32,
    rows: Vec<Row>,
}

impl Model for Wave {
    ghost use Rattle.h265_model.specs.Wave as specified;

    ghost Value = { specified.Wave };

    ghost use Rattle.std.specs.Prelude.{◌<◌, ◌^◌};

    ghost view = { λ w. record { width = w.width; rows = w.rows.items } };

    ghost invariant = { λ w. w.width < 2 ^ 32 };
}

impl Wave {
    /// A wave of so many rows, of so many coding tree units each, of which none is claimed. Both are at least 1.
    pub fn new(alloc: Global, rows: u32, width: u32) -> Result<Wave, NoMemory>
        requires rows { 1 ≤ rows }
        requires width { 1 ≤ width }
        ensures { IfOk result (λ wave. wave ≡ new_wave rows width) }
    {
        let rows = vec![in alloc; Row::unclaimed(); rows as usize]?;
        Ok(Wave { width, rows })
    }

    /// Lets the event happen. Takes no memory.
    ///
    /// - `Claim` is lawful of the first row that isn't claimed.
    /// - `Sync` is lawful of a claimed row below another that is published, where the rows have at least 2 coding tree units,
    ///   none of them is coded yet, and it hasn't synced.
    /// - `Code` is lawful of a claimed row that isn't lost, has coding tree units left, and has synced if it must: where it is
    ///   below another, and the rows have at least 2 coding tree units.
    /// - `Publish` is lawful of a row of which two coding tree units are coded, and that isn't published or lost.
    /// - `Finish` is lawful of a row of which all coding tree units are coded, that isn't lost or finished, and is published
    ///   if it has at least 2.
    /// - `Lose` is lawful of a claimed row that isn't published, finished or lost.
    ///
    /// `NotLawful` comes exactly elsewhere. It hands back the event, and the rows are as they were.
    pub fn apply(&mut self, event: RowEvent) -> Result<(), NotLawful>
        ensures lawful { IsOk result ↔ IsTrue (allows_row self.old (event_of event)) }
        ensures after { OnOk result (self.new ≡ after_event self.old (event_of event)) }
        ensures unchanged { OnErr result (self.new ≡ self.old) }
        ensures named { IfErr result (λ error. error.event ≡ event) }
    {
        if !self.allows(event) {
            return Err(NotLawful { event });
        }
        let mut row = self.row(event.row());
        match event {
            RowEvent::Claim(_) => row.claimed = true,
            RowEvent::Sync(_) => row.synced = true,
            RowEvent::Code(_) => row.coded += 1,
            RowEvent::Publish(_) => row.published = true,
            RowEvent::Finish(_) => row.finished = true,
            RowEvent::Lose(_) => row.lost = true,
        }
        self.rows[event.row() as usize] = row;
        Ok(())
    }

    // Whether the event is lawful.
    fn allows(&self, event: RowEvent) -> bool
        ensures { result ≡ allows_row self.now (event_of event) }
    {
        let row = self.row(event.row());
        match event {
            RowEvent::Claim(index) => {
                index as usize == self.claimed() && (index as usize) < self.rows.len()
            }
            RowEvent::Sync(index) => {
                row.claimed
                    && self.must_sync(index)
                    && row.coded == 0
                    && self.row(index.saturating_sub(1)).published
                    && !row.synced
            }
            RowEvent::Code(index) => {
                row.claimed
                    && (!self.must_sync(index) || row.synced)
                    && !row.lost
                    && row.coded < self.width
            }
            RowEvent::Publish(_) => row.coded == 2 && !row.published && !row.lost,
            RowEvent::Finish(_) => {
                row.claimed
                    && row.coded == self.width
                    && !row.lost
                    && !row.finished
                    && (self.width < 2 || row.published)
            }
            RowEvent::Lose(_) => row.claimed && !row.published && !row.finished && !row.lost,
        }
    }

    // The row of this number, and one that isn't claimed past the last.
    fn row(&self, index: u32) -> Row
        ensures { result ≡ row_at self.now index }
    {
        match self.rows.get(index as usize) {
            Some(row) => *row,
            None => Row::unclaimed(),
        }
    }

    // How many rows are claimed.
    fn claimed(&self) -> usize
        ensures { result ≡ claimed_count self.now }
    {
        self.rows.iter().filter(|row| row.claimed).count()
    }

    // Whether the row has to take contexts from the row above.
    fn must_sync(&self, index: u32) -> bool
        ensures { result ≡ must_sync self.now index }
    {
        index > 0 && self.width >= 2
    }
}
