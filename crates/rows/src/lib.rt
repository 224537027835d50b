// Rows and sheets: what a row holds, where it comes from, which tables of rows are sound, and how a table is read.
#![tactic(auto)]

mod reading;
mod row;
mod sheet;
mod soundness;

pub use reading::{count_at, find_at, last_at, row_at};
pub use row::{Row, Source};
pub use sheet::Sheet;
pub use soundness::sound;

// The most rows of a row table that are used.
pub const ROWS: usize = 65536;
