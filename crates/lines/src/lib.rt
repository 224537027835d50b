// One line of a report, as a text of at most 48 bytes, and the table that a text fills.
#![tactic(auto)]

mod line;

pub use line::{LINE, Line, fill, write_line};
