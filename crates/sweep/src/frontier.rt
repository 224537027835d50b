ghost use Rattle.std.specs.Prelude.{◌≡◌, length, replicate, None};

use crate::links::Links;
use roads::PLACES;
use rows::Row;

// For each place that a network may have the best uncovered extension into it, where there is one. A fixed array, as a sweep
// allocates nothing.
#[derive(Drop)]
pub(crate) struct Best<X, Y> {
    pub(crate) rows: [Option<Row<X, Y>>; PLACES],
    ghost sized: { length rows ≡ 2048 },
}

impl<X: Copy, Y: Copy> Best<X, Y> {
    // A row at no place.
    pub(crate) fn new() -> Best<X, Y>
        ensures { result.rows ≡ replicate 2048 None }
    {
        Best {
            rows: [None; PLACES],
        }
    }
}

// Scratch space of a sweep, at the bounds of a network: what every place holds, and how the rows so far are linked.
#[derive(Drop)]
pub struct Frontier<X, Y> {
    pub(crate) best: Best<X, Y>,
    pub(crate) links: Links,
}

impl<X: Copy, Y: Copy> Frontier<X, Y> {
    // A frontier that holds nothing.
    pub fn new() -> Frontier<X, Y>
        ensures best { result.best.rows ≡ replicate 2048 None }
        ensures last { result.links.last ≡ replicate 2048 None }
    {
        Frontier {
            best: Best::new(),
            links: Links::new(),
        }
    }
}
