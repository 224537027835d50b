ghost use Rattle.report.specs.Reading.{NetworkOf};
ghost use Rattle.report.specs.Record.{Says, Told};

use crate::Refusal;
use lines::{LINE, Line, write_line};
use roadfile::load;
use roads::{Network, Road};

// The most bytes that a road file given to the program may have.
pub const FILE: usize = 65536;
// The roads of the table that the program loads a file into.
pub const ROADS: usize = 1024;
// An entry of that table before a file is loaded.
pub const BLANK: Road = Road {
    start: 0,
    end: 0,
    marks: [0; 4],
    open: false,
};

// Loads a road file into the table, if it is not too long.
pub fn network_of(file: &[u8], table: &mut [Road; ROADS]) -> Result<Network, Refusal>
    ensures { NetworkOf file.now table.old table.new result }
{
    if file.len() > FILE {
        return Err(Refusal::TooLong);
    }
    Ok(load(file, table)?)
}

// The line that a road file comes to: what was loaded, or why it was refused.
fn line_of(file: &[u8]) -> Line
    ensures { Says file.now result }
{
    network_of(file, &mut [BLANK; ROADS]).map_or_else(
        Line::from,
        |network| Line::Loaded {
            places: network.places(),
            roads: network.roads(),
        },
    )
}

// Fills the table with the record of a road file, and zeros after it; tells the record's length.
// A table and a length, as in `fill` of `lines`.
pub fn write_record(file: &[u8], table: &mut [u8; LINE]) -> usize
    ensures { Told file.now table.new result }
{
    write_line(line_of(file), table)
}
