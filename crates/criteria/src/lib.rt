// Criteria by which trips are judged: what each means, the laws that it keeps, and its calls.
#![tactic(auto)]

mod column;
mod comparison;
mod criterion;
mod fault;
mod laws;
mod lexical;
mod limit;
mod peak;
mod sum;
mod warnings;

pub use comparison::Comparison;
pub use criterion::{Criterion, Steady};
pub use fault::CriterionFault;
pub use laws::{laws_stand, steadiness_stands, steady_is_cancelling};
pub use lexical::{Lexical, LexicalValue};
pub use limit::{Limit, LimitValue};
pub use peak::{Peak, PeakValue};
pub use sum::{Sum, SumValue};
pub use warnings::warnings_stand;

#[cfg(test)]
mod tests {
    use super::*;
    use std::test::Fail;

    // By time, then cost, then grade.
    fn time_cost_grade() -> Result<Lexical<Lexical<Sum, Sum>, Peak>, CriterionFault> {
        let first = Lexical {
            first: Sum::new(0)?,
            second: Sum::new(1)?,
        };
        Ok(Lexical {
            first,
            second: Peak::new(3)?,
        })
    }

    #[test]
    fn lexical_of_lexical(rt: HostRuntime) -> Result<(), Fail> {
        let Ok(criterion) = time_cost_grade() else {
            return Err(Fail::new("a mark number is refused"));
        };
        let gentle = criterion.read(&[10, 5, 400, 2]);
        let steep = criterion.read(&[10, 5, 200, 6]);
        assert_eq!(rt; criterion.compare(gentle, steep), Comparison::Better);
        let both = criterion.join(gentle, steep);
        assert_eq!(rt; both.first.first.total, 20);
        assert_eq!(rt; both.second, PeakValue::Mark(6));
        assert!(rt; criterion.test(both, 2));
        assert!(rt; !criterion.test(both, 0));
        Ok(())
    }

    #[test]
    fn refuses_a_fifth_mark(rt: HostRuntime) -> Result<(), Fail> {
        let Err(fault) = Limit::new(4) else {
            return Err(Fail::new("a limit by mark 4"));
        };
        assert_eq!(rt; fault.number(), 10);
        Ok(())
    }
}
