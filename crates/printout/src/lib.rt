// The whole record of a road file: each place with the rows of its page, or the refusal.
#![tactic(auto)]

mod fault;
mod laws;
mod record;
mod sheet;

pub use laws::one_record;
pub use record::{RECORD, write_record};
