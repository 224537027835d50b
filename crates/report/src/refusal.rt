ghost use Rattle.std.specs.Prelude.{◌≡◌};
ghost use Rattle.report.specs.Reading.{refusal_line};
ghost use Rattle.report.specs.declared.refusal.Refusal.TheVariants.{Fault};

use lines::Line;
use roadfile::LoadFault;

// The number of a file that is too long. It stands apart from its case: an enum with a case that carries a value can have no
// discriminants.
const TOO_LONG: u32 = 21;

// Why there is no network for a road file.
#[derive(Clone, Copy, Debug, PartialEq, Eq)]
pub enum Refusal {
    // The file has more bytes than a road file may have here.
    TooLong,
    // A fault of the file.
    Fault(LoadFault),
}

// Written out and not derived: its clause says which fault each becomes.
impl From<LoadFault> for Refusal {
    ghost from_gives = { λ f r. r ≡ Fault f };

    fn from(fault: LoadFault) -> Refusal {
        Refusal::Fault(fault)
    }
}

// The line that tells a refusal.
impl From<Refusal> for Line {
    ghost from_gives = { λ r l. l ≡ refusal_line r };

    fn from(refusal: Refusal) -> Line {
        match refusal {
            Refusal::TooLong => Line::Refused {
                number: TOO_LONG,
                offset: 0,
            },
            Refusal::Fault(fault) => Line::Refused {
                number: fault.fault.number(),
                offset: fault.offset,
            },
        }
    }
}
