ghost use Rattle.printout.specs.Record.{OneRecord, by_load, by_time};
ghost use Rattle.trips.specs.SamePages.{UniquePage};

use crate::record::{LOAD, TIME};
use criteria::{Limit, Sum};
use roadfile::one_outcome;
use trips::pages_are_unique;

// Each function is a theorem: its contract is the statement, and its body brings laws; `one_page` makes the criteria too.

// A road file has one record.
pub fn one_record()
    ensures { OneRecord }
{
    one_outcome();
    one_page();
}

// By the record's criteria a plan has one page at most at a place. They are made here and for the record: two calls, which a function
// would only name.
fn one_page()
    ensures { UniquePage by_time by_load }
{
    let time = Sum::new(TIME).unwrap();
    let load = Limit::new(LOAD).unwrap();
    pages_are_unique(&time, &load);
}
