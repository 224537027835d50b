// A sweep, which fills a table with the efficient rows of one origin, and its frontier, which holds the best uncovered extension
// into each place.
#![tactic(auto)]

mod compare;
mod frontier;
mod links;
mod renewal;
mod search;
mod sweeping;

pub use compare::ahead;
pub use frontier::Frontier;
pub use sweeping::{SweepFault, sweep};
