ghost use Rattle.std.specs.Prelude.{◌≡◌, ◌≤◌, length, Decides};
ghost use Rattle.roads.specs.Tables.{Within, Serves, opened};

// One road: the places where it starts and ends, its four marks, and whether it may be used.
#[derive(Clone, Copy, Debug, PartialEq, Eq)]
pub struct Road {
    pub start: u32,
    pub end: u32,
    pub marks: [u32; 4],
    pub open: bool,
}

impl Road {
    // Whether the road names places that exist, where there are so many.
    pub fn within(&self, places: u32) -> bool
        ensures { Decides result (Within places self.now) }
    {
        self.start < places && self.end < places
    }
}

// Whether a road table serves a network of so many places and roads: it is long enough, and every counted road names places that exist.
// Two numbers, and not a draft or a network: both ask it.
pub fn serves(table: &[Road], places: u32, roads: u32) -> bool
    ensures { Decides result (Serves places roads table.now) }
{
    // By `else`. Tried by `is_some_and`, with no answer by hand: the check does not find the proof through a closure in a closure.
    let Some(counted) = table.get(..roads as usize) else {
        return false;
    };
    counted.iter().all(|road| road.within(places))
}

// Opens the first `count` roads of the table.
pub(crate) fn open_all(table: &mut [Road], count: usize)
    requires { count ≤ length table.old }
    ensures { table.new ≡ opened count table.old }
{
    for road in &mut table[..count] {
        road.open = true;
    }
}
