// The classes of rigs, by gross mass, and which of them a limit bears.
#![tactic(auto)]

ghost use Rattle.std.specs.Prelude.{ℕ, ◌^◌, ◌<◌, ◌≤◌, length, slice_index};
ghost use Rattle.criteria.specs.declared.limit.LimitValue.TheVariants.{Mark};
ghost use Rattle.rigs.specs.Rigs.{masses, StrictlyRising, Chosen};

use criteria::LimitValue;

// The gross masses of classes 0 to 11, in hundreds of kilograms.
const MASSES: [u32; 12] = [35, 80, 120, 160, 185, 225, 260, 305, 360, 425, 500, 680];

// A theorem, which the class choice uses: the masses rise from class to class.
fn masses_rise()
    ensures { StrictlyRising masses }
{}

// How many classes of a rising table, from the first, the limit bears.
fn borne(table: &[u32], limit: u32) -> usize
    requires { StrictlyRising table.now }
    ensures within { result ≤ length table.now }
    ensures before { (k : ℕ) → k < result → slice_index table.now k ≤ limit }
    ensures above { result < length table.now → limit < slice_index table.now result }
{
    table.partition_point(|mass| *mass <= limit)
}

// The highest class of a rising table that the limit bears, if it bears any.
fn highest(table: &[u32], limit: u32) -> Option<u32>
    requires rising { StrictlyRising table.now }
    requires few { length table.now < 2 ^ 32 }
    ensures { Chosen table.now (Mark limit) result }
{
    (borne(table, limit) as u32).checked_sub(1)
}

// The highest class of rigs that the limit bears, if it bears any.
pub fn class(limit: LimitValue) -> Option<u32>
    ensures { Chosen masses limit result }
{
    masses_rise();
    match limit {
        LimitValue::Unlimited => Some(11),
        LimitValue::Mark(mark) => highest(&MASSES, mark),
    }
}

#[cfg(test)]
mod tests {
    use super::*;

    #[test]
    fn classes_of_limits(rt: HostRuntime) {
        assert_eq!(rt; class(LimitValue::Unlimited), Some(11));
        assert_eq!(rt; class(LimitValue::Mark(34)), None);
        assert_eq!(rt; class(LimitValue::Mark(35)), Some(0));
        assert_eq!(rt; class(LimitValue::Mark(499)), Some(9));
        assert_eq!(rt; class(LimitValue::Mark(500)), Some(10));
    }
}
