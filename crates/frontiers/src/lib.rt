// Why the best uncovered extension into each place is enough to find the next row of a sweep.
#![tactic(auto)]

ghost use Rattle.frontiers.specs.Sound.{StaysRenewed, ChoosesNext, LeavesNone};

use criteria::{Criterion, laws_stand};

// Offering the newest row with the roads that leave its place keeps what every place holds the best of what has been seen. The
// best of what all places hold is the next row, and where no place holds anything, no uncovered extension is left.
// A theorem, whose body only brings the laws. The two criteria stay two parameters: a struct of both would ask more of callers.
pub fn frontier_is_sound<A: Criterion, B: Criterion>(a: &A, b: &B)
    ensures renewed { StaysRenewed (A.Criterion.meaning a.now) (B.Criterion.meaning b.now) }
    ensures next { ChoosesNext (A.Criterion.meaning a.now) (B.Criterion.meaning b.now) }
    ensures none { LeavesNone (A.Criterion.meaning a.now) (B.Criterion.meaning b.now) }
{
    laws_stand(a);
    laws_stand(b);
}
