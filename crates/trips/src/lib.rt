// Trips, the plans of sheets and their pages: definitions, and what is true of them.
#![tactic(auto)]

ghost use Rattle.trips.specs.Efficient.{PagesAreEfficient, UniqueRows, ItemsTakeRows};
ghost use Rattle.trips.specs.Groupings.{RegroupedTrips, RegroupedPage};
ghost use Rattle.trips.specs.SamePages.{SamePage, UniquePage};
ghost use Rattle.trips.specs.Thinned.{PoolPage, SeriesPage};
ghost use Rattle.trips.specs.Worths.{WorthOfBoth};

use criteria::{Criterion, laws_stand};

// Each function is a theorem: its body only brings the laws. The two criteria stay two parameters: a struct of both would ask more
// of callers.

// The value of two trips, one after the other, is the join of their values.
pub fn worths_join<A: Criterion>(a: &A)
    ensures { WorthOfBoth (A.Criterion.meaning a.now) }
{
    laws_stand(a);
}

// Plans whose trips have the same pairs of values have the same page, so that a plan has one page at most at a place.
pub fn pages_are_unique<A: Criterion, B: Criterion>(a: &A, b: &B)
    ensures same { SamePage (A.Criterion.meaning a.now) (B.Criterion.meaning b.now) }
    ensures unique { UniquePage (A.Criterion.meaning a.now) (B.Criterion.meaning b.now) }
{
    laws_stand(a);
    laws_stand(b);
}

// The pairs of a page are the efficient ones; a plan has one number of rows at most, and different efficient pairs take a row each.
pub fn rows_are_counted<A: Criterion, B: Criterion>(a: &A, b: &B)
    ensures pages { PagesAreEfficient (A.Criterion.meaning a.now) (B.Criterion.meaning b.now) }
    ensures unique { UniqueRows (A.Criterion.meaning a.now) (B.Criterion.meaning b.now) }
    ensures items { ItemsTakeRows (A.Criterion.meaning a.now) (B.Criterion.meaning b.now) }
{
    laws_stand(a);
    laws_stand(b);
}

// The pages of two plans make those of their pool and of their series.
pub fn pages_combine<A: Criterion, B: Criterion>(a: &A, b: &B)
    ensures pool { PoolPage (A.Criterion.meaning a.now) (B.Criterion.meaning b.now) }
    ensures series { SeriesPage (A.Criterion.meaning a.now) (B.Criterion.meaning b.now) }
{
    laws_stand(a);
    laws_stand(b);
}

// However a list of plans is put in series, the trips are the same, and so are the pages.
pub fn regrouping_changes_nothing<A: Criterion, B: Criterion>(a: &A, b: &B)
    ensures trips { RegroupedTrips }
    ensures pages { RegroupedPage (A.Criterion.meaning a.now) (B.Criterion.meaning b.now) }
{
    laws_stand(a);
    laws_stand(b);
}
