ghost use Rattle.std.specs.Prelude.{◌≡◌, ◌<◌, slice_index};
ghost use Rattle.criteria.specs.Fault.{Made};

use crate::fault::CriterionFault;

// The number of one of a road's four marks.
#[derive(Clone, Copy, Debug, PartialEq, Eq)]
pub struct Column {
    index: u32,
    ghost within: { index < 4 },
}

// The column of that number, refused where it is above 3.
impl TryFrom<u32> for Column {
    ghost use Rattle.criteria.specs.declared.column.Column.{Column};

    type Error = CriterionFault;

    ghost try_from_gives = { Made (λ (c : Column). c.index) };

    fn try_from(index: u32) -> Result<Column, CriterionFault> {
        if index < 4 {
            Ok(Column { index })
        } else {
            Err(CriterionFault::NoSuchMark)
        }
    }
}

impl Column {
    // The mark of that number.
    pub fn mark(&self, marks: &[u32; 4]) -> u32
        ensures { result ≡ slice_index marks.now self.now.index }
    {
        marks[self.index as usize]
    }
}
