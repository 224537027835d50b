ghost use Rattle.std.specs.Prelude.{◌≡◌, ◌+◌, ◌<◌, None, MatchBool, slice_index_or};
ghost use Rattle.frontiers.specs.Frontiers.{Linked, Built, Passing, Tested, Shown, Weighed, Outdone, Foremost, Standing, Follows, Tried, Held, Enters, Kept, Newest, Renewed, Older, Ready};
ghost use Rattle.frontiers.specs.Links.{linked_prop};
ghost use Rattle.trips.specs.Plans.{Numbered};

use crate::ahead;
use crate::compare::as_good;
use crate::frontier::Best;
use crate::links::Links;
use criteria::Criterion;
use roads::Road;
use rows::{Row, Source};

// A search that has a row more, until its frontier is ready again: the criteria, the roads, the rows so far, which stand behind
// `base` others in their table, their links, and the newest row and where it ends.
// Its methods ask for Standing in their clauses: a ghost field must be a fact that has one proof at most, and the laws of a
// criterion may have several; between bars it would be one fact, but could prove nothing of what a place holds, as that may have
// several proofs too.
// That an offered row ends below 2,048 stands in clauses too: a row's own type knows no bound. Four of its fields are those of a
// Search, and not a Search, so that clauses name them shortly.
#[derive(Drop)]
pub(crate) struct Renewal<'s, A: Criterion, B: Criterion> {
    pub(crate) first: &'s A,
    pub(crate) second: &'s B,
    pub(crate) roads: &'s [Road],
    pub(crate) base: u32,
    pub(crate) rows: &'s [Row<A::Value, B::Value>],
    pub(crate) links: &'s Links,
    pub(crate) newest: u32,
    pub(crate) place: u32,
    ghost linked: { Linked rows.now links.now.last links.now.prev } by { linked_prop rows.now links.now.last links.now.prev },
    ghost added: { Newest (A.Criterion.meaning first.now) (B.Criterion.meaning second.now) rows.now newest place },
}

impl<A: Criterion, B: Criterion> Renewal<'_, A, B> {
    // Whether the last row at the place of q, where there is one, is at least as good as q by the second criterion.
    fn shadowed(&self, q: &Row<A::Value, B::Value>) -> bool
        requires { q.now.end < 2048 }
        ensures { Shown (B.Criterion.meaning self.now.second.now) self.now.rows.now q.now (slice_index_or self.now.links.now.last q.now.end None) result }
    {
        self.links.last_at(q.end).is_some_and(|k| as_good(
            self.second,
            self.rows[k as usize].second,
            q.second,
        ))
    }

    // Whether the place of q holds a row that is as good as q.
    fn outdone(&self, best: &Best<A::Value, B::Value>, q: &Row<A::Value, B::Value>) -> bool
        requires { q.now.end < 2048 }
        ensures { MatchBool result (Outdone (A.Criterion.meaning self.now.first.now) (B.Criterion.meaning self.now.second.now) q.now best.now.rows) (Foremost (A.Criterion.meaning self.now.first.now) (B.Criterion.meaning self.now.second.now) q.now best.now.rows) }
    {
        best.rows[q.end as usize]
            .as_ref()
            .is_some_and(|held| ahead(self.first, self.second, held, q))
    }

    // Offers the extension q: its place holds it from now on if no row covers it and it is better than what is held there.
    fn offer(&self, best: &mut Best<A::Value, B::Value>, q: Row<A::Value, B::Value>)
        requires { q.end < 2048 }
        ensures { Weighed (A.Criterion.meaning self.now.first.now) (B.Criterion.meaning self.now.second.now) self.now.rows.now q (slice_index_or self.now.links.now.last q.end None) best.old.rows best.new.rows }
    {
        if self.shadowed(&q) || self.outdone(best, &q) {
            return;
        }
        best.rows[q.end as usize] = Some(q);
    }

    // The row with one road more behind it. `from` and `number` name the two in the new row's source.
    fn extension(
        &self,
        row: &Row<A::Value, B::Value>,
        road: &Road,
        from: u32,
        number: u32,
    ) -> Row<A::Value, B::Value>
        requires { Tested (A.Criterion.meaning self.now.first.now) (B.Criterion.meaning self.now.second.now) row.now }
        ensures built { Built (A.Criterion.meaning self.now.first.now) (B.Criterion.meaning self.now.second.now) row.now road.now from number result }
        ensures passing { Passing (A.Criterion.meaning self.now.first.now) (B.Criterion.meaning self.now.second.now) result }
    {
        Row {
            end: road.end,
            first: self.first.join(row.first, self.first.read(&road.marks)),
            second: self.second.join(row.second, self.second.read(&road.marks)),
            roads: row.roads + 1,
            source: Source::Extend {
                row: from,
                road: number,
            },
        }
    }

    // Offers the row of index i with road j behind it.
    fn try_row(&self, best: &mut Best<A::Value, B::Value>, i: u32, j: usize)
        requires standing { Standing (A.Criterion.meaning self.now.first.now) (B.Criterion.meaning self.now.second.now) self.now.roads.now self.now.base self.now.rows.now }
        requires follows { Follows (A.Criterion.meaning self.now.first.now) (B.Criterion.meaning self.now.second.now) self.now.roads.now self.now.rows.now i j }
        ensures { Tried (A.Criterion.meaning self.now.first.now) (B.Criterion.meaning self.now.second.now) self.now.roads.now self.now.base self.now.rows.now i j self.now.links.now.last best.old.rows best.new.rows }
    {
        let q = self.extension(
            &self.rows[i as usize],
            &self.roads[j],
            self.base + i,
            j as u32,
        );
        self.offer(best, q);
    }

    // Offers every row at the start of road j, which ends at the newest row's place, with the road behind it.
    fn try_rows(&self, best: &mut Best<A::Value, B::Value>, j: usize)
        requires standing { Standing (A.Criterion.meaning self.now.first.now) (B.Criterion.meaning self.now.second.now) self.now.roads.now self.now.base self.now.rows.now }
        requires enters { Enters (A.Criterion.meaning self.now.first.now) (B.Criterion.meaning self.now.second.now) self.now.roads.now j self.now.place }
        requires held { Held (A.Criterion.meaning self.now.first.now) (B.Criterion.meaning self.now.second.now) self.now.roads.now self.now.base self.now.rows.now best.old.rows (λ _ k. k < j) self.now.place }
        ensures kept { Kept (A.Criterion.meaning self.now.first.now) (B.Criterion.meaning self.now.second.now) self.now.place best.old.rows best.new.rows }
        ensures held { Held (A.Criterion.meaning self.now.first.now) (B.Criterion.meaning self.now.second.now) self.now.roads.now self.now.base self.now.rows.now best.new.rows (λ _ k. k < j + 1) self.now.place }
    {
        // A `while`, and no `for` over `successors`, which tells no end: no such `for` is proved.
        let mut at = self.links.last_at(self.roads[j].start);
        while let Some(i) = at {
            self.try_row(best, i, j);
            at = self.links.before(i);
        }
    }

    // Sees road j again: the newest row is offered with it, and where it ends at the newest row's place, every row is.
    fn see_road(&self, best: &mut Best<A::Value, B::Value>, j: usize, road: &Road)
        requires standing { Standing (A.Criterion.meaning self.now.first.now) (B.Criterion.meaning self.now.second.now) self.now.roads.now self.now.base self.now.rows.now }
        requires road { Numbered self.now.roads.now j road.now }
        requires renewed { Renewed (A.Criterion.meaning self.now.first.now) (B.Criterion.meaning self.now.second.now) self.now.roads.now self.now.base self.now.rows.now self.now.place self.now.newest best.old.rows j }
        ensures { Renewed (A.Criterion.meaning self.now.first.now) (B.Criterion.meaning self.now.second.now) self.now.roads.now self.now.base self.now.rows.now self.now.place self.now.newest best.new.rows (j + 1) }
    {
        if !drivable(road) {
            return;
        }
        if road.end == self.place {
            self.try_rows(best, j);
            return;
        }
        if road.start != self.place {
            return;
        }
        self.try_row(best, self.newest, j);
    }

    // Makes every place hold the best uncovered extension into it again.
    pub(crate) fn renew(&self, best: &mut Best<A::Value, B::Value>)
        requires standing { Standing (A.Criterion.meaning self.now.first.now) (B.Criterion.meaning self.now.second.now) self.now.roads.now self.now.base self.now.rows.now }
        requires older { Older (A.Criterion.meaning self.now.first.now) (B.Criterion.meaning self.now.second.now) self.now.roads.now self.now.base self.now.rows.now self.now.place self.now.newest best.old.rows }
        ensures { Ready (A.Criterion.meaning self.now.first.now) (B.Criterion.meaning self.now.second.now) self.now.roads.now self.now.base self.now.rows.now best.new.rows }
    {
        best.rows[self.place as usize] = None;
        for (j, road) in self.roads.iter().enumerate() {
            self.see_road(best, j, road);
        }
    }
}

// Whether a road may be driven: it is open.
fn drivable(road: &Road) -> bool
    ensures { result ≡ road.now.«open» }
{
    road.open
}
