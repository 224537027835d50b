// What the program prints: one line, and the record of a road file.
#![tactic(auto)]

mod record;
mod refusal;

pub use lines::{LINE, Line, write_line};
pub use record::{BLANK, FILE, ROADS, network_of, write_record};
pub use refusal::Refusal;
