// The book of a planner: sheets over a network by two criteria, and the calls that read them.
#![tactic(auto)]

mod added;
mod book;
mod fault;

pub use added::Added;
pub use book::Book;
pub use fault::PlannerFault;

#[cfg(test)]
mod tests {
    use super::*;
    use criteria::{Limit, LimitValue, Sum, SumValue};
    use roads::{Draft, Network};
    use rows::Row;
    use std::test::Fail;

    // A network of one place.
    fn one_place() -> Result<Network, Fail> {
        let mut draft = Draft::new();
        let _ = draft.place();
        match draft.close(&mut []) {
            Ok(network) => Ok(network),
            Err(_) => Err(Fail::new("the draft is not closed")),
        }
    }

    #[test]
    fn a_new_book_has_no_sheet(rt: HostRuntime) -> Result<(), Fail> {
        let network = one_place()?;
        let Ok(time) = Sum::new(0) else {
            return Err(Fail::new("mark 0 is refused"));
        };
        let Ok(load) = Limit::new(2) else {
            return Err(Fail::new("mark 2 is refused"));
        };
        let book = Book::open(&network, time, load);
        let rows = [Row::unused(SumValue { total: 0 }, LimitValue::Unlimited); 4];
        match book.count(&rows, 0, 0) {
            Ok(_) => Err(Fail::new("a sheet in a new book")),
            Err(fault) => {
                assert_eq!(rt; fault.number(), 13);
                Ok(())
            },
        }
    }
}
