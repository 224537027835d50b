ghost use Rattle.std.specs.Prelude.{◌≡◌, [], Ok, IfErr};
ghost use Rattle.roads.specs.Networks.{Serving};
ghost use Rattle.printout.specs.Faults.{text_told};
ghost use Rattle.printout.specs.Record.{Noted, Says, Told};

use crate::fault::RecordFault;
use crate::sheet::{FirstSheet, push_line};
use arrayvec::ArrayString;
use book::Book;
use criteria::{Limit, LimitValue, Sum, SumValue};
use lines::{LINE, Line, fill};
use report::{BLANK, ROADS, network_of};
use roads::{Network, PLACES, Road};
use rows::Row;
use sweep::Frontier;
use trips::rows_are_counted;

// The rows of the table that is swept into.
const ROWS: usize = 1024;
// The bytes of the table that a record is written to: a line for each place that a network may have, and for each row.
pub const RECORD: usize = LINE * (PLACES + ROWS);
// The mark that is a road's time.
pub(crate) const TIME: u32 = 0;
// The mark that is its limit.
pub(crate) const LOAD: u32 = 2;

// Fills the table with the record of a road file, and zeros after it; tells the record's length.
// A table and a length, as in `fill` of `lines`. One string, lent to each function: one that is handed back is copied at each step.
pub fn write_record(file: &[u8], table: &mut [u8; RECORD]) -> usize
    ensures { Told file.now table.new result }
{
    let mut output = ArrayString::new();
    push_record(&mut output, file);
    fill(table, &output)
}

// Appends the record of a road file: the lines of every place, or the line of a refusal.
fn push_record(output: &mut ArrayString<RECORD>, file: &[u8])
    requires { output.old.bytes ≡ [] }
    ensures { Says file.now output.new.bytes }
{
    if let Err(fault) = push_loaded(output, file) {
        push_line(output, Line::from(fault));
    }
}

// Loads a road file, and appends the lines of every place; a refusal appends nothing.
fn push_loaded(output: &mut ArrayString<RECORD>, file: &[u8]) -> Result<(), RecordFault>
    requires { output.old.bytes ≡ [] }
    ensures says { Says file.now (text_told result output.new.bytes) }
    ensures kept { IfErr result (λ _. output.new.bytes ≡ []) }
{
    let mut roads = [BLANK; ROADS];
    let network = network_of(file, &mut roads)?;
    push_swept(output, &network, &roads)
}

// Sweeps from place 0, and appends the lines of every place; a refusal appends nothing.
fn push_swept(
    output: &mut ArrayString<RECORD>,
    network: &Network,
    roads: &[Road],
) -> Result<(), RecordFault>
    requires serves { Serving network.now roads.now }
    requires empty { output.old.bytes ≡ [] }
    ensures noted { Noted (Ok network.now) roads.now result output.new.bytes }
    ensures kept { IfErr result (λ _. output.new.bytes ≡ []) }
{
    let time = Sum::new(TIME).unwrap();
    let load = Limit::new(LOAD).unwrap();
    rows_are_counted(&time, &load);
    let first = SumValue { total: 0 };
    let second = LimitValue::Unlimited;
    let mut rows = [Row::unused(first, second); ROWS];
    let mut frontier = Frontier::new();
    let mut book = Book::open(network, time, load);
    book.sweep(&mut frontier, roads, &mut rows, 0)?;
    let sheet = FirstSheet {
        book: &book,
        rows: &rows,
    };
    sheet.push_places(output, network.places());
    Ok(())
}
