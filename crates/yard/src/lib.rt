// A yard of four places and seven roads: what stands on its pages, and calls that build, sweep and read it.
#![tactic(auto)]

mod building;
mod calls;
mod table;

pub use calls::{row_of_yard, sweep_yard};
pub use table::yard_stands;
