ghost use Rattle.classical.specs.Ends.{FirstIsBest, LastIsBest};
ghost use Rattle.classical.specs.Lists.{PagesAreClassical, EverySetHasThePage};

use criteria::{Criterion, laws_stand};

// Each function is a theorem: its contract is the statement, and its body brings laws at most.

// The rows of a sweep at a place are the values of a minimal complete set of efficient paths, and of every other, for each of the six problems.
pub fn pages_are_classical()
    ensures listed { PagesAreClassical }
    ensures every { EverySetHasThePage }
{}

// By any two criteria the first row of a place is the best by the first, and on a tie by the second; and the last the other way round.
// The two criteria stay two parameters: a struct of both would ask more of callers.
pub fn ends_are_best<A: Criterion, B: Criterion>(a: &A, b: &B)
    ensures first { FirstIsBest (A.Criterion.meaning a.now) (B.Criterion.meaning b.now) }
    ensures last { LastIsBest (A.Criterion.meaning a.now) (B.Criterion.meaning b.now) }
{
    laws_stand(a);
    laws_stand(b);
}
