ghost use Rattle.std.specs.Prelude.{◌≡◌, true, false};
ghost use Rattle.roads.specs.Networks.{ReMarked, Turned, Found};

use crate::{Network, NetworkFault, Road, serves};

impl Network {
    // How many places the network has.
    pub fn places(&self) -> u32
        ensures { result ≡ self.now.places }
    {
        self.places
    }

    // How many roads the network has.
    pub fn roads(&self) -> u32
        ensures { result ≡ self.now.roads }
    {
        self.roads
    }

    // Sets one mark of one road.
    pub fn re_mark(
        &self,
        table: &mut [Road],
        road: u32,
        mark: u32,
        value: u32,
    ) -> Result<(), NetworkFault>
        ensures { ReMarked self.now table.old road mark value result table.new }
    {
        let at = self.find(table, road)?;
        if mark >= 4 {
            return Err(NetworkFault::NoSuchMark);
        }
        // The mark not by `get_mut`, as in `find`.
        table[at].marks[mark as usize] = value;
        Ok(())
    }

    // Shuts one road; on a road that is shut it changes nothing.
    pub fn shut(&self, table: &mut [Road], road: u32) -> Result<(), NetworkFault>
        ensures { Turned self.now table.old road false result table.new }
    {
        self.turn(table, road, false)
    }

    // Reopens one road; on a road that is open it changes nothing.
    pub fn reopen(&self, table: &mut [Road], road: u32) -> Result<(), NetworkFault>
        ensures { Turned self.now table.old road true result table.new }
    {
        self.turn(table, road, true)
    }

    // Opens or shuts one road.
    fn turn(&self, table: &mut [Road], road: u32, open: bool) -> Result<(), NetworkFault>
        ensures { Turned self.now table.old road «open» result table.new }
    {
        let at = self.find(table, road)?;
        table[at].open = open;
        Ok(())
    }

    // The index of a road of this network in the table. No `&mut Road`: a Result that lends out of a slice can have no clause for what
    // it leaves there, and the library's `get_mut` has none.
    fn find(&self, table: &[Road], road: u32) -> Result<usize, NetworkFault>
        ensures { Found self.now table.now road result }
    {
        if !serves(table, self.places, self.roads) {
            return Err(NetworkFault::ForeignTable);
        }
        if road >= self.roads {
            return Err(NetworkFault::NoSuchRoad);
        }
        Ok(road as usize)
    }
}
