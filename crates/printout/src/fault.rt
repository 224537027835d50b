ghost use Rattle.std.specs.Prelude.{◌≡◌};
ghost use Rattle.printout.specs.Faults.{fault_line};
ghost use Rattle.printout.specs.declared.fault.RecordFault.TheVariants as fault;

use book::PlannerFault;
use lines::Line;
use report::Refusal;

// Why a record has one line, which tells of a refusal.
#[derive(Clone, Copy, Debug, PartialEq, Eq)]
pub(crate) enum RecordFault {
    // There is no network for the road file.
    File(Refusal),
    // The sweep is refused.
    Planner(PlannerFault),
}

// By hand and not derived, as the contracts say which fault each becomes.
impl From<Refusal> for RecordFault {
    ghost from_gives = { λ f r. r ≡ fault.File f };

    fn from(refusal: Refusal) -> RecordFault {
        RecordFault::File(refusal)
    }
}

impl From<PlannerFault> for RecordFault {
    ghost from_gives = { λ f r. r ≡ fault.Planner f };

    fn from(fault: PlannerFault) -> RecordFault {
        RecordFault::Planner(fault)
    }
}

// The line that tells a fault. A refusal that is no fault of the file is at offset 0.
impl From<RecordFault> for Line {
    ghost from_gives = { λ f l. l ≡ fault_line f };

    fn from(fault: RecordFault) -> Line {
        match fault {
            RecordFault::File(refusal) => Line::from(refusal),
            RecordFault::Planner(fault) => Line::Refused {
                number: fault.number(),
                offset: 0,
            },
        }
    }
}
