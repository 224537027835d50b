ghost use Rattle.std.specs.Prelude.{◌≡◌, ◌+◌, ◌<◌, MatchResult};
ghost use Rattle.roads.specs.Drafts.{Placed, Serving, Laid, ClosingRefused, Closed};
ghost use Rattle.roads.specs.declared.fault.DraftFault.TheVariants.{ForeignTable};

use crate::road::open_all;
use crate::{Draft, DraftFault, Network, Road, serves};

// The most places that a network may have.
pub const PLACES: usize = 2048;

// The most roads.
const ROADS: usize = 16384;

// A closing that was refused: the draft as it was, and why.
#[derive(Debug, PartialEq, Eq, Drop)]
pub struct Unclosed {
    pub draft: Draft,
    pub fault: DraftFault,
}

impl Draft {
    // A draft without a place or a road.
    pub fn new() -> Draft
        ensures places { result.places ≡ 0 }
        ensures roads { result.roads ≡ 0 }
    {
        Draft {
            places: 0,
            roads: 0,
        }
    }

    // Adds a place and answers its number.
    pub fn place(&mut self) -> Result<u32, DraftFault>
        ensures { Placed self.old result self.new }
    {
        let number = self.places;
        if number as usize >= PLACES {
            return Err(DraftFault::PlacesFull);
        }
        self.places = number + 1;
        Ok(number)
    }

    // Refuses a road table that does not serve the draft.
    fn check_table(&self, table: &[Road]) -> Result<(), DraftFault>
        ensures { MatchResult result (λ _. Serving self.now table.now) (λ fault. (fault ≡ ForeignTable) × ¬ Serving self.now table.now) }
    {
        if serves(table, self.places, self.roads) {
            Ok(())
        } else {
            Err(DraftFault::ForeignTable)
        }
    }

    // Refuses a closing that the draft is not ready for.
    fn check_closing(&self, table: &[Road]) -> Result<(), DraftFault>
        ensures { MatchResult result (λ _. Serving self.now table.now × (0 < self.now.places)) (λ fault. ClosingRefused self.now table.now fault) }
    {
        self.check_table(table)?;
        if self.places == 0 {
            return Err(DraftFault::NoPlace);
        }
        Ok(())
    }

    // Adds an open road, into the table's next entry, and answers its number.
    pub fn road(
        &mut self,
        table: &mut [Road],
        start: u32,
        end: u32,
        marks: [u32; 4],
    ) -> Result<u32, DraftFault>
        ensures { Laid self.old table.old start end marks result self.new table.new }
    {
        self.check_table(table)?;
        let road = Road {
            start,
            end,
            marks,
            open: true,
        };
        if !road.within(self.places) {
            return Err(DraftFault::UnknownPlace);
        }
        let number = self.roads;
        let at = number as usize;
        if at >= ROADS || at >= table.len() {
            return Err(DraftFault::RoadsFull);
        }
        // Not by `get_mut`: tried, and the library says nothing of what it leaves in the table.
        table[at] = road;
        self.roads = number + 1;
        Ok(number)
    }

    // Ends the draft: its places and roads are a network, and every road of it is open.
    pub fn close(self, table: &mut [Road]) -> Result<Network, Unclosed>
        ensures { Closed self table.old result table.new }
    {
        // No `map_err` with `?`: its closure would take the draft, which is still read below.
        if let Err(fault) = self.check_closing(table) {
            return Err(Unclosed { draft: self, fault });
        }
        open_all(table, self.roads as usize);
        Ok(Network {
            places: self.places,
            roads: self.roads,
        })
    }
}
