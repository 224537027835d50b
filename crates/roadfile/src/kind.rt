ghost use Rattle.std.specs.Prelude.{Decides};
ghost use Rattle.roadfile.specs.Format.{Allowed};
ghost use Rattle.roadfile.specs.Kinds.{Decodes, code_of};

use crate::FileFault;

// What a record can be, as its kind byte says.
#[derive(Clone, Copy, Debug, PartialEq, Eq)]
pub(crate) enum Kind {
    End,
    Place,
    Road,
    Remark,
}

// By hand: std derives no `TryFrom` of a number.
impl TryFrom<u8> for Kind {
    type Error = FileFault;

    ghost try_from_gives = { Decodes };

    fn try_from(code: u8) -> Result<Kind, FileFault> {
        match code {
            0 => Ok(Kind::End),
            1 => Ok(Kind::Place),
            2 => Ok(Kind::Road),
            3 => Ok(Kind::Remark),
            _ => Err(FileFault::Form),
        }
    }
}

impl Kind {
    // Whether records of this kind may have a body of this length.
    pub(crate) fn allows(self, size: u8) -> bool
        ensures { Decides result (Allowed (code_of self) size) }
    {
        match self {
            Kind::End => size == 0,
            Kind::Place => (1..=32).contains(&size),
            Kind::Road => size == 20,
            Kind::Remark => true,
        }
    }
}
