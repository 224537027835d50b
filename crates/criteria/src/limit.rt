ghost use Rattle.criteria.specs.Fault.{Made};
ghost use Rattle.criteria.specs.Limit.{limit_meaning};
ghost use Rattle.std.proofs.Common.{rules};

use self::LimitValue::{Mark, Unlimited};
use crate::column::Column;
use crate::comparison::Comparison;
use crate::criterion::Criterion;
use crate::fault::CriterionFault;

// What a trip is worth by Limit.
// An enum of its own: by its derived order no limit lies above every mark, where the None of an Option would lie below; and callers
// name its cases.
#[derive(Clone, Copy, Debug, PartialEq, Eq, PartialOrd, Ord)]
pub enum LimitValue {
    // The least mark of the roads.
    Mark(u32),
    // No road, so no limit: better than every mark.
    Unlimited,
}

// The least of one mark over a trip's roads; more is better.
#[derive(Clone, Copy)]
pub struct Limit {
    column: Column,
}

impl Limit {
    // Limit by the mark of that number, refused where it is above 3.
    pub fn new(column: u32) -> Result<Limit, CriterionFault>
        ensures { Made (λ (l : Limit). l.column.index) column result }
    {
        Ok(Limit {
            column: Column::try_from(column)?,
        })
    }
}

// Peak beside it is no twin that one generic type could serve: what each means, and its laws, would be members of that type's
// parameter, as many as stand here.
impl Criterion for Limit {
    type Value = LimitValue;

    ghost meaning = { λ l. limit_meaning l.column.index };

    ghost lawful = { λ _. Unit {0} };

    ghost steady = { λ _. ⊥ };

    ghost order = { Prim.search rules };

    ghost joins = { Prim.search rules };

    ghost monotone = { Prim.search rules };

    ghost best = { Prim.search rules };

    ghost tests = { Prim.search rules };

    ghost steadiness = { Prim.search rules };

    fn promise(&self) {}

    fn unit(&self) -> LimitValue {
        LimitValue::Unlimited
    }

    fn read(&self, marks: &[u32; 4]) -> LimitValue {
        Mark(self.column.mark(marks))
    }

    fn compare(&self, x: LimitValue, y: LimitValue) -> Comparison {
        Comparison::from(y.cmp(&x))
    }

    fn join(&self, x: LimitValue, y: LimitValue) -> LimitValue {
        x.min(y)
    }

    fn test(&self, x: LimitValue, k: u32) -> bool {
        match x {
            Unlimited => k == 0,
            Mark(_) => k > 0,
        }
    }
}
