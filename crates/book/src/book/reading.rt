ghost use Rattle.std.specs.Prelude.{Decides, MatchResult};
ghost use Rattle.book.specs.Reading.{Serving, Found, PlaceRefused, Counted, RowThere, RowRefused, FirstThere, LastThere, BestRefused};

use crate::{Book, PlannerFault};
use criteria::Criterion;
use rows::{Row, Sheet, count_at, last_at, row_at, sound};

// Each call takes the rows, the number of a sheet and that of a place: a value of the three would only be made for one call.
// The two best calls look alike and stand apart: each promises another end of the list.
impl<A: Criterion, B: Criterion> Book<A, B> {
    // How many rows of the sheet end at the place.
    pub fn count(
        &self,
        rows: &[Row<A::Value, B::Value>],
        sheet: u32,
        place: u32,
    ) -> Result<u32, PlannerFault>
        ensures { Counted (A.Criterion.meaning self.now.first) (B.Criterion.meaning self.now.second) self.now rows.now sheet place result }
    {
        let sheet = self.sheet_at(rows, sheet, place)?;
        Ok(count_at(rows, sheet, place))
    }

    // The row of that index among those of the sheet that end at the place.
    pub fn row<'r>(
        &self,
        rows: &'r [Row<A::Value, B::Value>],
        sheet: u32,
        place: u32,
        index: u32,
    ) -> Result<&'r Row<A::Value, B::Value>, PlannerFault>
        ensures { MatchResult result (λ x. RowThere (A.Criterion.meaning self.now.first) (B.Criterion.meaning self.now.second) self.now rows.now sheet place index x.now) (λ f. RowRefused (A.Criterion.meaning self.now.first) (B.Criterion.meaning self.now.second) self.now rows.now sheet place index f) }
    {
        let sheet = self.sheet_at(rows, sheet, place)?;
        row_at(rows, sheet, place, index).ok_or(PlannerFault::NoSuchRow)
    }

    // The first of the rows of the sheet that end at the place: the best by the first criterion.
    pub fn best_by_first<'r>(
        &self,
        rows: &'r [Row<A::Value, B::Value>],
        sheet: u32,
        place: u32,
    ) -> Result<&'r Row<A::Value, B::Value>, PlannerFault>
        ensures { MatchResult result (λ x. FirstThere (A.Criterion.meaning self.now.first) (B.Criterion.meaning self.now.second) self.now rows.now sheet place x.now) (λ f. BestRefused (A.Criterion.meaning self.now.first) (B.Criterion.meaning self.now.second) self.now rows.now sheet place f) }
    {
        let sheet = self.sheet_at(rows, sheet, place)?;
        row_at(rows, sheet, place, 0).ok_or(PlannerFault::NoTrip)
    }

    // The last of the rows of the sheet that end at the place: the best by the second criterion.
    pub fn best_by_second<'r>(
        &self,
        rows: &'r [Row<A::Value, B::Value>],
        sheet: u32,
        place: u32,
    ) -> Result<&'r Row<A::Value, B::Value>, PlannerFault>
        ensures { MatchResult result (λ x. LastThere (A.Criterion.meaning self.now.first) (B.Criterion.meaning self.now.second) self.now rows.now sheet place x.now) (λ f. BestRefused (A.Criterion.meaning self.now.first) (B.Criterion.meaning self.now.second) self.now rows.now sheet place f) }
    {
        let sheet = self.sheet_at(rows, sheet, place)?;
        last_at(rows, sheet, place).ok_or(PlannerFault::NoTrip)
    }

    // The sheet of that number, to be read at the place; refuses a table that does not serve, a sheet that the book has not, and a
    // place that the network has not.
    fn sheet_at(
        &self,
        rows: &[Row<A::Value, B::Value>],
        sheet: u32,
        place: u32,
    ) -> Result<&Sheet, PlannerFault>
        ensures { MatchResult result (λ x. Found (A.Criterion.meaning self.now.first) (B.Criterion.meaning self.now.second) self.now rows.now sheet place x.now) (λ f. PlaceRefused (A.Criterion.meaning self.now.first) (B.Criterion.meaning self.now.second) self.now rows.now sheet place f) }
    {
        if !self.is_sound(rows) {
            return Err(PlannerFault::ForeignTable);
        }
        let found = self
            .sheets
            .get(sheet as usize)
            .ok_or(PlannerFault::NoSuchSheet)?;
        if place >= self.network.places() {
            return Err(PlannerFault::NoSuchPlace);
        }
        Ok(found)
    }

    // Whether the row table serves the book.
    pub(crate) fn is_sound(&self, rows: &[Row<A::Value, B::Value>]) -> bool
        ensures { Decides result (Serving (A.Criterion.meaning self.now.first) (B.Criterion.meaning self.now.second) self.now rows.now) }
    {
        sound(
            &self.first,
            &self.second,
            self.network.places(),
            self.network.roads(),
            &self.sheets,
            self.used,
            rows,
        )
    }
}
