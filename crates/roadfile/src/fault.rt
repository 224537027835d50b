ghost use Rattle.std.specs.Prelude.{◌≡◌};
ghost use Rattle.roadfile.specs.Faults.{file_number, file_layer};
ghost use Rattle.roadfile.specs.declared.fault.FileFault.TheVariants.{Draft};

use roads::DraftFault;

// Why a road file is refused.
#[derive(Clone, Copy, Debug, PartialEq, Eq)]
pub enum FileFault {
    // The file has fewer than five bytes, or does not begin with the letters CRN.
    Letters,
    // The version is not 1.
    Version,
    // A record's head or body passes the end of the file.
    Cut,
    // The kind of a record, or its length, is not one of those allowed.
    Form,
    // Bytes follow the end record.
    Extra,
    // The draft refuses what the file says.
    Draft(DraftFault),
}

// Who found a fault: the reader of the file, or the draft that the file fills.
#[derive(Clone, Copy, Debug, PartialEq, Eq)]
pub enum Layer {
    File,
    Draft,
}

// A fault and where in the file it was found.
#[derive(Clone, Copy, Debug, PartialEq, Eq)]
pub struct LoadFault {
    pub fault: FileFault,
    pub offset: u64,
}

// Written out and not derived: its clause says which fault each becomes.
impl From<DraftFault> for FileFault {
    ghost from_gives = { λ f r. r ≡ Draft f };

    fn from(fault: DraftFault) -> FileFault {
        FileFault::Draft(fault)
    }
}

impl FileFault {
    // The fault with where in the file it was found.
    pub(crate) fn at(self, offset: u64) -> LoadFault
        ensures fault { result.fault ≡ self }
        ensures offset { result.offset ≡ offset }
    {
        LoadFault {
            fault: self,
            offset,
        }
    }

    // The number by which the refusal is known.
    // Kept as a match: a fault of the draft has the number that it has there.
    pub fn number(&self) -> u32
        ensures { result ≡ file_number self.now }
    {
        match self {
            FileFault::Letters => 1,
            FileFault::Version => 2,
            FileFault::Cut => 3,
            FileFault::Form => 4,
            FileFault::Extra => 5,
            FileFault::Draft(inner) => inner.number(),
        }
    }

    // The layer that found the fault.
    pub fn layer(&self) -> Layer
        ensures { result ≡ file_layer self.now }
    {
        match self {
            FileFault::Draft(_) => Layer::Draft,
            _ => Layer::File,
        }
    }
}
