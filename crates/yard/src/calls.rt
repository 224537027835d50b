ghost use Rattle.std.specs.Prelude.{◌≡◌, length, MatchResult};
ghost use Rattle.book.specs.Reading.{RowThere, RowRefused};
ghost use Rattle.yard.specs.Calls.{Opened, Swept, swept_into, read_at, by_time, by_load};

use crate::building::build;
use book::{Added, Book, PlannerFault};
use criteria::{Limit, LimitValue, Sum, SumValue};
use roads::Road;
use rows::Row;
use sweep::Frontier;

// A book on the yard, by the sum of mark 0 and the limit of mark 2, and the table of its roads. The criteria are made where they are
// used, as elsewhere: two calls, which a function would only name.
fn open() -> (Book<Sum, Limit>, [Road; 7])
    ensures { Opened result.0 result.1 }
{
    let (network, table) = build();
    let time = Sum::new(0).unwrap();
    let load = Limit::new(2).unwrap();
    (Book::open(&network, time, load), table)
}

// Opens a book on the yard and sweeps from place 0.
fn list(
    frontier: &mut Frontier<SumValue, LimitValue>,
    rows: &mut [Row<SumValue, LimitValue>],
) -> Result<(Book<Sum, Limit>, Added), PlannerFault>
    ensures { Swept rows.old rows.new result }
{
    let (mut book, table) = open();
    let added = book.sweep(frontier, &table, rows, 0)?;
    Ok((book, added))
}

// Sweeps the yard from place 0 into the rows, and tells which sheet was added.
pub fn sweep_yard(
    frontier: &mut Frontier<SumValue, LimitValue>,
    rows: &mut [Row<SumValue, LimitValue>],
) -> Result<Added, PlannerFault>
    ensures { result ≡ swept_into (length rows.old) }
{
    list(frontier, rows).map(|(_, added)| added)
}

// The row of that index among those of sheet 0 that end at the place.
fn look<'r>(
    book: &Book<Sum, Limit>,
    rows: &'r [Row<SumValue, LimitValue>],
    place: u32,
    index: u32,
) -> Result<&'r Row<SumValue, LimitValue>, PlannerFault>
    ensures { MatchResult result (λ x. RowThere (by_time book.now) (by_load book.now) book.now rows.now 0 place index x.now) (λ f. RowRefused (by_time book.now) (by_load book.now) book.now rows.now 0 place index f) }
{
    book.row(rows, 0, place, index)
}

// The time and the limit of the row of that index at the place, of the sweep from place 0.
pub fn row_of_yard(place: u32, index: u32) -> Result<(SumValue, LimitValue), PlannerFault>
    ensures { result ≡ read_at place index }
{
    let mut frontier = Frontier::new();
    let unused = Row::unused(SumValue { total: 0 }, LimitValue::Unlimited);
    let mut rows = [unused; 6];
    let (book, _) = list(&mut frontier, &mut rows)?;
    let row = look(&book, &rows, place, index)?;
    Ok((row.first, row.second))
}
