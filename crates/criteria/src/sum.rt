ghost use Rattle.criteria.specs.Fault.{Made};
ghost use Rattle.criteria.specs.Sum.{sum_meaning};
ghost use Rattle.std.proofs.Common.{rules};

use crate::column::Column;
use crate::comparison::Comparison;
use crate::criterion::{Criterion, Steady};
use crate::fault::CriterionFault;

// What a trip is worth by Sum.
#[derive(Clone, Copy, Debug, PartialEq, Eq, PartialOrd, Ord)]
pub struct SumValue {
    pub total: u64,
}

// The sum of one mark over a trip's roads; less is better.
#[derive(Clone, Copy)]
pub struct Sum {
    column: Column,
}

impl Sum {
    // Sum by the mark of that number, refused where it is above 3.
    // Limit and Peak are made likewise: one generic function would need a trait that says how each is made of a column.
    pub fn new(column: u32) -> Result<Sum, CriterionFault>
        ensures { Made (λ (s : Sum). s.column.index) column result }
    {
        Ok(Sum {
            column: Column::try_from(column)?,
        })
    }
}

impl Criterion for Sum {
    type Value = SumValue;

    ghost meaning = { λ s. sum_meaning s.column.index };

    ghost lawful = { λ _. Unit {0} };

    ghost steady = { λ _. Unit {0} };

    ghost order = { Prim.search rules };

    ghost joins = { Prim.search rules };

    ghost monotone = { Prim.search rules };

    ghost best = { Prim.search rules };

    ghost tests = { Prim.search rules };

    ghost steadiness = { Prim.search rules };

    fn promise(&self) {}

    fn unit(&self) -> SumValue {
        SumValue { total: 0 }
    }

    fn read(&self, marks: &[u32; 4]) -> SumValue {
        SumValue {
            total: u64::from(self.column.mark(marks)),
        }
    }

    fn compare(&self, x: SumValue, y: SumValue) -> Comparison {
        Comparison::from(x.cmp(&y))
    }

    fn join(&self, x: SumValue, y: SumValue) -> SumValue {
        SumValue {
            total: x.total.saturating_add(y.total),
        }
    }

    fn test(&self, x: SumValue, k: u32) -> bool {
        x.total <= u64::from(k) * u64::from(u32::MAX)
    }
}

impl Steady for Sum {
    fn promise_steady(&self) {}
}
