ghost use Rattle.std.specs.Prelude.{◌≡◌};

// Where a row comes from. Rows are named by their places in the row table, which is the caller's: nothing is allocated.
#[derive(Clone, Copy, Debug, PartialEq, Eq)]
pub enum Source {
    // The empty trip.
    Empty,
    // A row, and one road behind it.
    Extend { row: u32, road: u32 },
    // Two rows, the second behind the first.
    Pair { left: u32, right: u32 },
    // A row taken over from another sheet.
    Taken { row: u32 },
}

// One efficient trip: the place where it ends, its values by the two criteria, its number of roads and its source.
#[derive(Clone, Copy, Debug, PartialEq, Eq)]
pub struct Row<X, Y> {
    pub end: u32,
    pub first: X,
    pub second: Y,
    pub roads: u32,
    pub source: Source,
}

impl<X, Y> Row<X, Y> {
    // A row to fill a table with: the empty trip, at place 0, with these two values.
    pub fn unused(first: X, second: Y) -> Row<X, Y>
        ensures end { result.end ≡ 0 }
        ensures first { result.first ≡ first }
        ensures second { result.second ≡ second }
        ensures roads { result.roads ≡ 0 }
        ensures source { result.source ≡ Source.Empty }
    {
        Row {
            end: 0,
            first,
            second,
            roads: 0,
            source: Source::Empty,
        }
    }
}
