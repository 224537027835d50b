ghost use Rattle.std.specs.Prelude.{◌≤◌};

pub mod calls;

// A network in the making: how many places and roads it has so far. Its roads stand in the caller's road table.
#[derive(Debug, PartialEq, Eq, Drop)]
pub struct Draft {
    pub(crate) places: u32,
    pub(crate) roads: u32,
    ghost places_fit: { places ≤ 2048 },
    ghost roads_fit: { roads ≤ 16384 },
}
