// Why a list of rows that is grown by the best uncovered extension is complete.
#![tactic(auto)]

ghost use Rattle.growth.specs.Complete.{StartsGrown, StaysGrown, EndsComplete, LeavesRoom, HasARow, StaysBounded};

use criteria::{Criterion, laws_stand};

// Rows that start with the empty trip and grow by the best uncovered extension stay grown, and where no uncovered extension
// is left they are all rows of the sweep. Before that they are fewer; the sweep has at least one; and each of them ends at a
// place of the network and has fewer roads than there are places.
// A theorem, whose body only brings the laws. The two criteria stay two parameters: a struct of both would ask more of callers.
pub fn growth_is_complete<A: Criterion, B: Criterion>(a: &A, b: &B)
    ensures start { StartsGrown (A.Criterion.meaning a.now) (B.Criterion.meaning b.now) }
    ensures more { StaysGrown (A.Criterion.meaning a.now) (B.Criterion.meaning b.now) }
    ensures complete { EndsComplete (A.Criterion.meaning a.now) (B.Criterion.meaning b.now) }
    ensures full { LeavesRoom (A.Criterion.meaning a.now) (B.Criterion.meaning b.now) }
    ensures some { HasARow (A.Criterion.meaning a.now) (B.Criterion.meaning b.now) }
    ensures bounded { StaysBounded (A.Criterion.meaning a.now) (B.Criterion.meaning b.now) }
{
    laws_stand(a);
    laws_stand(b);
}
