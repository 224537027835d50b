ghost use Rattle.std.specs.Prelude.{◌≡◌, map};
ghost use Rattle.yard.specs.Building.{Begun, Built, entry_of};
ghost use Rattle.yard.specs.Network.{yard_roads};

use roads::{Draft, Network, Road};

// How many places the yard has.
const PLACES: u32 = 4;

// The roads of the yard, all open: where each starts and ends, and its four marks.
const ROADS: [(u32, u32, [u32; 4]); 7] = [
    (0, 1, [10, 5, 400, 2]),
    (1, 3, [10, 5, 200, 2]),
    (0, 2, [15, 1, 300, 6]),
    (2, 3, [15, 3, 300, 1]),
    (0, 3, [40, 2, 600, 3]),
    (1, 2, [0, 0, 400, 0]),
    (3, 0, [12, 1, 500, 4]),
];

// A road to fill a table with. Not the blank road of `report`, on which the yard does not stand.
const UNUSED: Road = Road {
    start: 0,
    end: 0,
    marks: [0; 4],
    open: true,
};

// A draft of the yard's places.
fn places() -> Draft
    ensures places { result.places ≡ 4 }
    ensures roads { result.roads ≡ 0 }
{
    let mut draft = Draft::new();
    // Over numbers: the same call four times, and each gives the next place.
    for _ in 0..PLACES {
        draft.place().unwrap();
    }
    draft
}

// The roads, so that a contract says that they are the yard's.
fn roads() -> [(u32, u32, [u32; 4]); 7]
    ensures { result ≡ map entry_of yard_roads }
{
    ROADS
}

// Adds the roads of the yard to the draft, in their order.
fn lay(draft: &mut Draft, table: &mut [Road; 7])
    requires { Begun 0 draft.old table.old }
    ensures { Begun 7 draft.new table.new }
{
    for (start, end, marks) in roads() {
        draft.road(table, start, end, marks).unwrap();
    }
}

// The yard: its network, and the table of its roads.
pub(crate) fn build() -> (Network, [Road; 7])
    ensures { Built result.0 result.1 }
{
    let mut draft = places();
    let mut table = [UNUSED; 7];
    lay(&mut draft, &mut table);
    let network = draft.close(&mut table).unwrap();
    (network, table)
}
