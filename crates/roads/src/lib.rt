// The network of a mill: places, roads with four marks, the draft that takes them and the calls that alter a road.
#![tactic(auto)]

mod draft;
mod fault;
mod network;
mod road;

pub use draft::Draft;
pub use draft::calls::{PLACES, Unclosed};
pub use fault::{DraftFault, NetworkFault};
pub use network::Network;
pub use road::{Road, serves};
