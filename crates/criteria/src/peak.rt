ghost use Rattle.criteria.specs.Fault.{Made};
ghost use Rattle.criteria.specs.Peak.{peak_meaning};
ghost use Rattle.std.proofs.Common.{rules};

use self::PeakValue::{Level, Mark};
use crate::column::Column;
use crate::comparison::Comparison;
use crate::criterion::Criterion;
use crate::fault::CriterionFault;

// What a trip is worth by Peak.
// No Option, which would have the same order: `None` does not say that no road is better than every grade, and callers name the
// cases of this public type.
#[derive(Clone, Copy, Debug, PartialEq, Eq, PartialOrd, Ord)]
pub enum PeakValue {
    // No road, so no grade: better than every mark.
    Level,
    // The greatest mark of the roads.
    Mark(u32),
}

// The greatest of one mark over a trip's roads; less is better.
#[derive(Clone, Copy)]
pub struct Peak {
    column: Column,
}

impl Peak {
    // Peak by the mark of that number, refused where it is above 3.
    pub fn new(column: u32) -> Result<Peak, CriterionFault>
        ensures { Made (λ (p : Peak). p.column.index) column result }
    {
        Ok(Peak {
            column: Column::try_from(column)?,
        })
    }
}

impl Criterion for Peak {
    type Value = PeakValue;

    ghost meaning = { λ p. peak_meaning p.column.index };

    ghost lawful = { λ _. Unit {0} };

    ghost steady = { λ _. ⊥ };

    ghost order = { Prim.search rules };

    ghost joins = { Prim.search rules };

    ghost monotone = { Prim.search rules };

    ghost best = { Prim.search rules };

    ghost tests = { Prim.search rules };

    ghost steadiness = { Prim.search rules };

    fn promise(&self) {}

    fn unit(&self) -> PeakValue {
        PeakValue::Level
    }

    fn read(&self, marks: &[u32; 4]) -> PeakValue {
        Mark(self.column.mark(marks))
    }

    fn compare(&self, x: PeakValue, y: PeakValue) -> Comparison {
        Comparison::from(x.cmp(&y))
    }

    fn join(&self, x: PeakValue, y: PeakValue) -> PeakValue {
        x.max(y)
    }

    fn test(&self, x: PeakValue, k: u32) -> bool {
        match x {
            Level => k == 0,
            Mark(_) => k > 0,
        }
    }
}
