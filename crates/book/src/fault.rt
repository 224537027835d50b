ghost use Rattle.std.specs.Prelude.{◌≡◌};
ghost use Rattle.book.specs.Faults.{planner_number, told};

use sweep::SweepFault;

// Why a book refuses a call. Like the other enums of refusals, but the cases are its own.
#[derive(Clone, Copy, Debug, PartialEq, Eq)]
pub enum PlannerFault {
    // The network has no place of that number.
    NoSuchPlace = 12,
    // The book has no sheet of that number.
    NoSuchSheet = 13,
    // The sheet has no row of that index at the place.
    NoSuchRow = 14,
    // As many sheets exist as a book may have.
    SheetsFull = 17,
    // The row table has too few unused rows.
    RowsFull = 18,
    // The sheet has no trip to the place.
    NoTrip = 20,
    // The row table is not the one that the book filled.
    ForeignTable = 22,
}

impl PlannerFault {
    // The number by which the refusal is known. A method, since a cast has no contract to state the number in.
    pub fn number(&self) -> u32
        ensures { result ≡ planner_number self.now }
    {
        *self as u32
    }
}

// A refusal of the sweep over slices, as the book tells it. Case by case: the two enums are of two crates, and the clause says which
// each becomes.
impl From<SweepFault> for PlannerFault {
    ghost from_gives = { λ f r. r ≡ told f };

    fn from(fault: SweepFault) -> PlannerFault {
        match fault {
            SweepFault::ForeignTable => PlannerFault::ForeignTable,
            SweepFault::NoSuchPlace => PlannerFault::NoSuchPlace,
            SweepFault::RowsFull => PlannerFault::RowsFull,
        }
    }
}
