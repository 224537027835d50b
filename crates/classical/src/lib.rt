// What the lists of a book are in the words of bicriterion path problems: plain numbers, paths and lexicographic minima.
#![tactic(auto)]

mod pages;
mod peaks;
mod sums;

pub use pages::{ends_are_best, pages_are_classical};
pub use peaks::{least_peak_then_sums, least_sums_then_peak};
pub use sums::least_sums;
