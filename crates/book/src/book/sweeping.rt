ghost use Rattle.std.specs.Prelude.{◌<◌, ◌≤◌, length, Decides, MatchBool};
ghost use Rattle.book.specs.Reading.{count_of};
ghost use Rattle.book.specs.Sweeping.{Served, MayFollow, OneMore, Filled, Sweeping};

use crate::{Added, Book, PlannerFault};
use criteria::Criterion;
use roads::{Road, serves};
use rows::{ROWS, Row, Sheet};
use sweep::{Frontier, SweepFault, sweep};

impl<A, B> Book<A, B> {
    // Whether the book has as many sheets as it may have.
    fn is_full(&self) -> bool
        ensures { MatchBool result (64 ≤ count_of self.now) (count_of self.now < 64) }
    {
        self.sheets.is_full()
    }

    // Adds a sheet behind the others.
    fn enter(&mut self, sheet: Sheet)
        requires { MayFollow self.old sheet }
        ensures { OneMore self.old self.new sheet }
    {
        self.sheets.push(sheet);
        self.used += sheet.len;
    }
}

impl<A: Criterion, B: Criterion> Book<A, B> {
    // Sweeps from the origin, into the unused rows; tells how many rows there are.
    fn fill(
        &self,
        frontier: &mut Frontier<A::Value, B::Value>,
        roads: &[Road],
        rows: &mut [Row<A::Value, B::Value>],
        origin: u32,
    ) -> Result<u32, SweepFault>
        requires { self.now.used ≤ length rows.old }
        ensures { Filled (A.Criterion.meaning self.now.first) (B.Criterion.meaning self.now.second) self.now roads.now rows.old rows.new origin result }
    {
        let start = self.used as usize;
        let end = rows.len().min(ROWS);
        sweep(
            &self.first,
            &self.second,
            frontier,
            &self.network,
            roads,
            &mut rows[start..end],
            self.used,
            origin,
        )
    }

    // Sweeps from the origin over the roads that are open, with their marks of now: adds one sheet behind the others. The frontier
    // is scratch space, which any number of sweeps may share.
    pub fn sweep(
        &mut self,
        frontier: &mut Frontier<A::Value, B::Value>,
        roads: &[Road],
        rows: &mut [Row<A::Value, B::Value>],
        origin: u32,
    ) -> Result<Added, PlannerFault>
        ensures { Sweeping (A.Criterion.meaning self.old.first) (B.Criterion.meaning self.old.second) self.old self.new roads.now rows.old rows.new origin result }
    {
        if !self.is_served(roads, rows) {
            return Err(PlannerFault::ForeignTable);
        }
        let places = self.network.places();
        if origin >= places {
            return Err(PlannerFault::NoSuchPlace);
        }
        if self.is_full() {
            return Err(PlannerFault::SheetsFull);
        }
        let len = self.fill(frontier, roads, rows, origin)?;
        let sheet = self.sheets.len() as u32;
        self.enter(Sheet {
            origin,
            reach: places - 1,
            start: self.used,
            len,
        });
        Ok(Added { sheet, rows: len })
    }

    // Whether both tables serve the book.
    fn is_served(&self, roads: &[Road], rows: &[Row<A::Value, B::Value>]) -> bool
        ensures { Decides result (Served (A.Criterion.meaning self.now.first) (B.Criterion.meaning self.now.second) self.now roads.now rows.now) }
    {
        serves(roads, self.network.places(), self.network.roads()) && self.is_sound(rows)
    }
}
