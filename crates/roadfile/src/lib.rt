// Road files: a reader that hands out the records of a file one by one, and a loading that fills and closes a draft.
#![tactic(auto)]

mod bytes;
mod fault;
mod kind;
mod laws;
mod loading;
mod reader;
mod record;

pub use fault::{FileFault, Layer, LoadFault};
pub use laws::{one_outcome, reading_is_faithful};
pub use loading::load;
pub use reader::{Item, Reader};
pub use record::Record;
