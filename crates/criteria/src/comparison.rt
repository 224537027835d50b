ghost use Rattle.std.specs.Prelude.{◌≡◌};
ghost use Rattle.std.specs.Ordering.{MatchOrdering};
ghost use Rattle.criteria.specs.declared.comparison.Comparison.TheVariants.{Better, Equal, Worse};

use std::cmp::Ordering;

// How the first of two values stands to the second.
// Not std's Ordering: by some criteria the greater value is the better, and Less would then mislead.
#[derive(Clone, Copy, Debug, PartialEq, Eq)]
pub enum Comparison {
    Better,
    Equal,
    Worse,
}

// How two values stand of which the lesser is the better.
impl From<Ordering> for Comparison {
    ghost from_gives = { λ o c. MatchOrdering o (c ≡ Better) (c ≡ Equal) (c ≡ Worse) };

    fn from(order: Ordering) -> Comparison {
        match order {
            Ordering::Less => Comparison::Better,
            Ordering::Equal => Comparison::Equal,
            Ordering::Greater => Comparison::Worse,
        }
    }
}
