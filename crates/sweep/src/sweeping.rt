ghost use Rattle.std.specs.Prelude.{◌+◌, ◌<◌, ◌≤◌, length, IfOk, MatchBool};
ghost use Rattle.sweep.specs.Sweeps.{Swept, MayStand};

use crate::Frontier;
use crate::search::Search;
use criteria::{Criterion, laws_stand};
use roads::{Network, Road, serves};
use rows::{ROWS, Row};

// Why a sweep is refused.
#[derive(Clone, Copy, Debug, PartialEq, Eq)]
pub enum SweepFault {
    // The road table is not one of this network's, or the rows pass the last that a row table may use.
    ForeignTable,
    // The network has no place of that number.
    NoSuchPlace,
    // There are fewer free rows than the sweep has.
    RowsFull,
}

// Whether so many free rows behind `used` others pass the last row that a table may use.
fn passes_end(used: u32, free: usize) -> bool
    ensures { MatchBool result (65536 < used + free) (used + free ≤ 65536) }
{
    (used as usize).saturating_add(free) > ROWS
}

// Sweeps from the origin over the open roads of the network, and tells how many rows there are. They are written to the front of
// the free rows, which stand behind `used` others in their table. A parameter for each: they are the caller's, and lent apart.
pub fn sweep<A: Criterion, B: Criterion>(
    a: &A,
    b: &B,
    frontier: &mut Frontier<A::Value, B::Value>,
    network: &Network,
    roads: &[Road],
    free: &mut [Row<A::Value, B::Value>],
    used: u32,
    origin: u32,
) -> Result<u32, SweepFault>
    ensures swept { Swept (A.Criterion.meaning a.now) (B.Criterion.meaning b.now) network.now roads.now used (length free.old) origin result free.new }
    ensures lawful { IfOk result (λ count. MayStand (A.Criterion.meaning a.now) (B.Criterion.meaning b.now) network.now used count free.new) }
{
    laws_stand(a);
    laws_stand(b);
    let places = network.places();
    let count = network.roads();
    if passes_end(used, free.len()) || !serves(roads, places, count) {
        return Err(SweepFault::ForeignTable);
    }
    if origin >= places {
        return Err(SweepFault::NoSuchPlace);
    }
    let search = Search {
        first: a,
        second: b,
        roads: &roads[..count as usize],
        places,
        origin,
        base: used,
    };
    search.grow(frontier, free)
}
