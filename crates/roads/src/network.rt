ghost use Rattle.std.specs.Prelude.{◌<◌, ◌≤◌};

pub mod calls;

// A closed draft: its places and roads are fixed, and only marks and openness of its roads, in the caller's table, may change.
// The same fields as a draft has, which may still grow: so a call on the wrong one of the two does not compile.
// The counts stand apart from the table, since the table is the caller's and nothing is allocated.
#[derive(Clone, Copy, Debug, PartialEq, Eq)]
pub struct Network {
    pub(crate) places: u32,
    pub(crate) roads: u32,
    ghost some: { 0 < places },
    ghost places_fit: { places ≤ 2048 },
    ghost roads_fit: { roads ≤ 16384 },
}
