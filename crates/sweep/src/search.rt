ghost use Rattle.std.specs.Prelude.{◌≡◌, ℕ, ◌+◌, ◌<◌, ◌≤◌, List, length, take, Some, None, Option, IfOk, IfErr, MatchBool, slice_index_or, replicate};
ghost use Rattle.std.specs.Option.{option_copied};
ghost use Rattle.criteria.specs.Meaning.{Laws};
ghost use Rattle.growth.specs.Complete.{EmptyRow};
ghost use Rattle.growth.specs.Sourced.{Sourced};
ghost use Rattle.frontiers.specs.Frontiers.{Linked, Standing, Newest, Older, Ready, Chosen, Searching, Searched, Founded};
ghost use Rattle.sweep.specs.Steps.{Advanced, SourcedAfter};
ghost use Rattle.sweep.specs.declared.sweeping.SweepFault.TheVariants.{RowsFull};

use crate::frontier::Best;
use crate::renewal::Renewal;
use crate::{Frontier, SweepFault, ahead};
use criteria::{Criterion, laws_stand};
use roads::Road;
use rows::{Row, Source};

// What a search goes by: the criteria, the roads of so many places, where it starts, and how many rows stand before its own in
// their table.
#[derive(Drop)]
pub(crate) struct Search<'s, A: Criterion, B: Criterion> {
    pub(crate) first: &'s A,
    pub(crate) second: &'s B,
    pub(crate) roads: &'s [Road],
    pub(crate) places: u32,
    pub(crate) origin: u32,
    pub(crate) base: u32,
}

// The frontier and the rows are lent to each method, and a search goes by the first n of them: a struct that lent both would keep no
// fact of them, since Searching may have several proofs, so that it would stand in clauses still.
impl<A: Criterion, B: Criterion> Search<'_, A, B> {
    // The better of what was chosen among the first places and what the next one holds. Lent, and not rows: a choice that is copied at
    // each place takes several times as long as the look at an empty place.
    fn better<'r>(
        &self,
        choice: Option<&'r Row<A::Value, B::Value>>,
        held: &'r Row<A::Value, B::Value>,
    ) -> &'r Row<A::Value, B::Value>
        requires first_laws { Laws (A.Criterion.meaning self.now.first.now) }
        requires second_laws { Laws (B.Criterion.meaning self.now.second.now) }
        ensures { (n : ℕ) (best : List (Option (Row A.Value B.Value))) → slice_index_or best n None ≡ Some held.now → Chosen (A.Criterion.meaning self.now.first.now) (B.Criterion.meaning self.now.second.now) n best (option_copied choice.entry) → Chosen (A.Criterion.meaning self.now.first.now) (B.Criterion.meaning self.now.second.now) (n + 1) best (Some result.now) }
    {
        match choice {
            Some(row) if ahead(self.first, self.second, row, held) => row,
            _ => held,
        }
    }

    // The best row that the places hold. A `for`, and no `fold`: that the choice is the best so far is the loop's invariant, and would
    // be a lemma by induction over the fold's steps.
    fn pick(&self, best: &Best<A::Value, B::Value>) -> Option<Row<A::Value, B::Value>>
        requires { self.now.places ≤ 2048 }
        ensures { Chosen (A.Criterion.meaning self.now.first.now) (B.Criterion.meaning self.now.second.now) self.now.places best.now.rows result }
    {
        laws_stand(self.first);
        laws_stand(self.second);
        let mut choice = None;
        for held in &best.rows[..self.places as usize] {
            if let Some(row) = held {
                choice = Some(self.better(choice, row));
            }
        }
        choice.copied()
    }

    // After a row was added at the place: every place holds the best uncovered extension into it again.
    fn renew(
        &self,
        frontier: &mut Frontier<A::Value, B::Value>,
        rows: &[Row<A::Value, B::Value>],
        newest: u32,
        place: u32,
    )
        requires within { newest < length rows.now }
        requires standing { Standing (A.Criterion.meaning self.now.first.now) (B.Criterion.meaning self.now.second.now) self.now.roads.now self.now.base (take (newest + 1) rows.now) }
        requires linked { Linked (take (newest + 1) rows.now) frontier.old.links.last frontier.old.links.prev }
        requires added { Newest (A.Criterion.meaning self.now.first.now) (B.Criterion.meaning self.now.second.now) (take (newest + 1) rows.now) newest place }
        requires older { Older (A.Criterion.meaning self.now.first.now) (B.Criterion.meaning self.now.second.now) self.now.roads.now self.now.base (take (newest + 1) rows.now) place newest frontier.old.best.rows }
        ensures links { frontier.new.links ≡ frontier.old.links }
        ensures ready { Ready (A.Criterion.meaning self.now.first.now) (B.Criterion.meaning self.now.second.now) self.now.roads.now self.now.base (take (newest + 1) rows.now) frontier.new.best.rows }
    {
        let renewal = Renewal {
            first: self.first,
            second: self.second,
            roads: self.roads,
            base: self.base,
            rows: &rows[..newest as usize + 1],
            links: &frontier.links,
            newest,
            place,
        };
        renewal.renew(&mut frontier.best);
    }

    // Adds the best uncovered extension to the first n rows, if there is one; tells whether, or that there is no room for it.
    fn advance(
        &self,
        frontier: &mut Frontier<A::Value, B::Value>,
        rows: &mut [Row<A::Value, B::Value>],
        n: u32,
    ) -> Result<bool, SweepFault>
        requires searching { Searching (A.Criterion.meaning self.now.first.now) (B.Criterion.meaning self.now.second.now) self.now.roads.now self.now.places self.now.origin self.now.base (take n rows.old) frontier.old.best.rows frontier.old.links.last frontier.old.links.prev }
        requires within { n ≤ length rows.old }
        requires room { self.now.base + length rows.old ≤ 65536 }
        ensures advanced { Advanced (A.Criterion.meaning self.now.first.now) (B.Criterion.meaning self.now.second.now) self.now.roads.now self.now.places self.now.origin self.now.base n rows.old rows.new frontier.new.best.rows frontier.new.links.last frontier.new.links.prev result }
        ensures sourced { Sourced (length self.now.roads.now) self.now.base (take n rows.old) → SourcedAfter (length self.now.roads.now) self.now.base n rows.new result }
    {
        let Some(row) = self.pick(&frontier.best) else {
            return Ok(false);
        };
        if is_full(n, rows.len()) {
            return Err(SweepFault::RowsFull);
        }
        // Not by `get_mut`: the library says nothing of what that leaves in the table.
        rows[n as usize] = row;
        frontier.links.link(row.end, n);
        self.renew(frontier, rows, n, row.end);
        Ok(true)
    }

    // Adds the best uncovered extension, again and again, until none is left or the table is full. Tells the number of rows.
    fn climb(
        &self,
        frontier: &mut Frontier<A::Value, B::Value>,
        rows: &mut [Row<A::Value, B::Value>],
    ) -> Result<u32, SweepFault>
        requires searching { Searching (A.Criterion.meaning self.now.first.now) (B.Criterion.meaning self.now.second.now) self.now.roads.now self.now.places self.now.origin self.now.base (take 1 rows.old) frontier.old.best.rows frontier.old.links.last frontier.old.links.prev }
        requires sourced { Sourced (length self.now.roads.now) self.now.base (take 1 rows.old) }
        requires some { 1 ≤ length rows.old }
        requires room { self.now.base + length rows.old ≤ 65536 }
        ensures searched { Searched (A.Criterion.meaning self.now.first.now) (B.Criterion.meaning self.now.second.now) self.now.roads.now self.now.places self.now.origin self.now.base rows.new result }
        ensures full { IfErr result (λ f. f ≡ RowsFull) }
        ensures sourced { IfOk result (λ count. Sourced (length self.now.roads.now) self.now.base (take count rows.new)) }
    {
        // No `for`: n is the number of rows, and only a step tells that there are no more.
        let mut n = 1;
        while self.advance(frontier, rows, n)? {
            n += 1;
        }
        Ok(n)
    }

    // The row of the empty trip.
    fn empty_row(&self) -> Row<A::Value, B::Value>
        ensures { EmptyRow (A.Criterion.meaning self.now.first.now) (B.Criterion.meaning self.now.second.now) self.now.origin result }
    {
        Row {
            end: self.origin,
            first: self.first.unit(),
            second: self.second.unit(),
            roads: 0,
            source: Source::Empty,
        }
    }

    // Empties the frontier. What the links say of each row before it stays, as only that of a row that was added is read.
    fn clear(&self, frontier: &mut Frontier<A::Value, B::Value>)
        ensures best { frontier.new.best.rows ≡ replicate 2048 None }
        ensures last { frontier.new.links.last ≡ replicate 2048 None }
    {
        frontier.best = Best::new();
        frontier.links.clear();
    }

    // Writes the row of the empty trip, and makes the frontier of that one row.
    fn begin(
        &self,
        frontier: &mut Frontier<A::Value, B::Value>,
        rows: &mut [Row<A::Value, B::Value>],
    )
        requires founded { Founded (A.Criterion.meaning self.now.first.now) (B.Criterion.meaning self.now.second.now) self.now.roads.now self.now.places self.now.origin self.now.base (length rows.old) }
        requires some { 1 ≤ length rows.old }
        ensures stands { Searching (A.Criterion.meaning self.now.first.now) (B.Criterion.meaning self.now.second.now) self.now.roads.now self.now.places self.now.origin self.now.base (take 1 rows.new) frontier.new.best.rows frontier.new.links.last frontier.new.links.prev }
        ensures sourced { Sourced (length self.now.roads.now) self.now.base (take 1 rows.new) }
    {
        self.clear(frontier);
        rows[0] = self.empty_row();
        frontier.links.link(self.origin, 0);
        self.renew(frontier, rows, 0, self.origin);
    }

    // Searches from the origin over the roads, into the table. Tells the number of rows, or that there is no room for all.
    pub(crate) fn grow(
        &self,
        frontier: &mut Frontier<A::Value, B::Value>,
        rows: &mut [Row<A::Value, B::Value>],
    ) -> Result<u32, SweepFault>
        requires { Founded (A.Criterion.meaning self.now.first.now) (B.Criterion.meaning self.now.second.now) self.now.roads.now self.now.places self.now.origin self.now.base (length rows.old) }
        ensures searched { Searched (A.Criterion.meaning self.now.first.now) (B.Criterion.meaning self.now.second.now) self.now.roads.now self.now.places self.now.origin self.now.base rows.new result }
        ensures full { IfErr result (λ f. f ≡ RowsFull) }
        ensures sourced { IfOk result (λ count. Sourced (length self.now.roads.now) self.now.base (take count rows.new)) }
    {
        if rows.is_empty() {
            return Err(SweepFault::RowsFull);
        }
        self.begin(frontier, rows);
        self.climb(frontier, rows)
    }
}

// Whether a table with room for so many rows has none left behind n rows.
fn is_full(n: u32, room: usize) -> bool
    ensures { MatchBool result (room ≤ n) (n < room) }
{
    n as usize >= room
}
