ghost use Rattle.criteria.specs.Cancellation.{SteadyIsCancelling};
ghost use Rattle.criteria.specs.Meaning.{Laws, Steadiness};

use crate::criterion::{Criterion, Steady};

// Each function here is a theorem: its contract is the law, and its body names the promise that gives it.

// Every criterion keeps the laws.
pub fn laws_stand<C: Criterion>(criterion: &C)
    ensures { Laws (C.Criterion.meaning criterion.now) }
{
    criterion.promise();
}

// Every steady criterion keeps strictly better strictly better.
pub fn steadiness_stands<C: Steady>(criterion: &C)
    ensures { Steadiness (C.Criterion.meaning criterion.now) }
{
    criterion.promise_steady();
}

// A criterion is steady exactly if what is joined can be taken away again.
pub fn steady_is_cancelling<C: Criterion>(criterion: &C)
    ensures { SteadyIsCancelling (C.Criterion.meaning criterion.now) }
{
    criterion.promise();
}
