ghost use Rattle.std.specs.Prelude.{MatchBool};
ghost use Rattle.criteria.specs.Meaning.{Strict};
ghost use Rattle.growth.specs.Growing.{Ahead};
ghost use Rattle.rows.specs.Places.{pair_of};

use criteria::{Comparison, Criterion};
use rows::Row;

// Whether x is at least as good as y by the second criterion.
pub(crate) fn as_good<B: Criterion>(b: &B, x: B::Value, y: B::Value) -> bool
    ensures { MatchBool result ((B.Criterion.meaning b.now).good x y) (Strict (B.Criterion.meaning b.now).good y x) }
{
    b.compare(x, y) != Comparison::Worse
}

// Whether the values of x are better than those of y or as good, where the first criterion decides and the second on a tie.
// The rule of Lexical, said again: a Lexical asks that its first part is steady, and a sweep takes any two criteria. They stay two
// parameters: a struct of both would ask more of callers.
pub fn ahead<A: Criterion, B: Criterion>(
    a: &A,
    b: &B,
    x: &Row<A::Value, B::Value>,
    y: &Row<A::Value, B::Value>,
) -> bool
    ensures { MatchBool result (Ahead (A.Criterion.meaning a.now) (B.Criterion.meaning b.now) (pair_of x.now) (pair_of y.now)) (Ahead (A.Criterion.meaning a.now) (B.Criterion.meaning b.now) (pair_of y.now) (pair_of x.now)) }
{
    match a.compare(x.first, y.first) {
        Comparison::Better => true,
        Comparison::Worse => false,
        Comparison::Equal => as_good(b, x.second, y.second),
    }
}
