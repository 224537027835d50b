// What loading a road file makes of a road table.
ghost use Rattle.std.specs.Prelude.{◌≡◌, Decides};
ghost use Rattle.filecases.specs.Told.{weight_of, unsaid, layer_name};

use crate::script::Case;
use roadfile::{Layer, LoadFault, load};
use roads::{Network, Road};
use std::alloc::{AllocError, Global};
use std::fmt;

// What the table holds before a loading: no file can say such a road.
const UNSAID: Road = Road {
    start: u32::MAX,
    end: u32::MAX,
    marks: [u32::MAX; 4],
    open: false,
};

// What the loading answered, how many entries of the table it changed, and the sum of their weights.
#[derive(Clone, Copy, Debug, PartialEq, Eq)]
pub struct Loading {
    answer: Result<Network, LoadFault>,
    changed: usize,
    sum: u64,
}

impl Loading {
    // Loads the file of a case over a new table.
    pub fn of(heap: Global, case: &Case) -> Result<Loading, AllocError> {
        let mut table = vec![in heap; UNSAID; case.room]?;
        let answer = load(case.file.as_slice(), table.as_mut_slice());
        let (changed, sum) = changes(table.as_slice());
        Ok(Loading {
            answer,
            changed,
            sum,
        })
    }
}

// How many entries have changed, and the sum of their weights: each weighs by its place in the table. Both in one pass: a table may
// have many entries, and few that have changed.
fn changes(table: &[Road]) -> (usize, u64) {
    table
        .iter()
        .enumerate()
        .filter(|(_, road)| !untouched(road))
        .fold((0_usize, 0_u64), |(changed, sum), (i, road)| {
            let place = (i as u64).wrapping_add(1);
            (
                changed.wrapping_add(1),
                sum.wrapping_add(place.wrapping_mul(weight(road))),
            )
        })
}

// Whether the entry is as it stood before the loading.
fn untouched(road: &Road) -> bool
    ensures { Decides result (road.now ≡ unsaid) }
{
    *road == UNSAID
}

// The weight of a road: each of its parts counts by a factor of its own.
fn weight(road: &Road) -> u64
    ensures { result ≡ weight_of road.now }
{
    let [first, second, third, fourth] = road.marks;
    u64::from(road.start)
        + 3 * u64::from(road.end)
        + 5 * u64::from(first)
        + 7 * u64::from(second)
        + 11 * u64::from(third)
        + 13 * u64::from(fourth)
        + 17 * u64::from(road.open)
}

// What a layer is called.
// A function: the words are what these cases print, and the library has none of its own.
fn name(layer: Layer) -> &'static str
    ensures { result.now ≡ layer_name layer }
{
    match layer {
        Layer::File => "file",
        Layer::Draft => "draft",
    }
}

impl fmt::Display for Loading {
    fn fmt<W: fmt::Write>(&self, f: &mut fmt::Formatter<W>) -> fmt::Result {
        match self.answer {
            Ok(network) => write!(
                f,
                "loaded {} places {} roads, sum {}",
                network.places(),
                network.roads(),
                self.sum
            ),
            Err(refusal) => {
                let fault = refusal.fault;
                write!(
                    f,
                    "refused {} at {} by {}, kept {}, sum {}",
                    fault.number(),
                    refusal.offset,
                    name(fault.layer()),
                    self.changed,
                    self.sum
                )
            }
        }
    }
}
