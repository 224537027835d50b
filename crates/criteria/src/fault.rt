ghost use Rattle.std.specs.Prelude.{◌≡◌};
ghost use Rattle.criteria.specs.Fault.{fault_number};

// Why a criterion is refused.
#[derive(Clone, Copy, Debug, PartialEq, Eq)]
pub enum CriterionFault {
    NoSuchMark = 10,
}

impl CriterionFault {
    // The number by which the fault is reported. A method, since a cast has no contract to state the number in.
    pub fn number(&self) -> u32
        ensures { result ≡ fault_number self.now }
    {
        *self as u32
    }
}
