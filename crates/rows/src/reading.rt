ghost use Rattle.std.specs.Prelude.{◌≡◌, ◌-◌, ◌^◌, ◌<◌, ◌≤◌, length, MatchOption};
ghost use Rattle.rows.specs.Places.{RowAt, rows_at, rows_of, StandsAt, Position};

use crate::{Row, Sheet};

// The public functions take the table, the sheet and the place apart, as their callers have them: the call of a book asks for each.

// How many rows of the sheet end at the place.
pub fn count_at<X, Y>(table: &[Row<X, Y>], sheet: &Sheet, place: u32) -> u32
    ensures { result ≡ length (rows_at place (rows_of sheet.now table.now)) }
{
    tally(part(table, sheet), place) as u32
}

// Where the row of that index among those of the sheet that end at the place stands in the table.
pub fn find_at<X, Y>(table: &[Row<X, Y>], sheet: &Sheet, place: u32, index: u32) -> Option<usize>
    ensures { MatchOption result (length (rows_at place (rows_of sheet.now table.now)) ≤ index) (λ k. StandsAt table.now sheet.now place index k) }
{
    // By `?`: the closure of a `map` needs its contract written on it, which is no plainer.
    let k = position(part(table, sheet), place, index as usize)?;
    Some(sheet.start as usize + k)
}

// The row of that index among those of the sheet that end at the place.
pub fn row_at<'r, X, Y>(
    table: &'r [Row<X, Y>],
    sheet: &Sheet,
    place: u32,
    index: u32,
) -> Option<&'r Row<X, Y>>
    ensures { MatchOption result (length (rows_at place (rows_of sheet.now table.now)) ≤ index) (λ x. RowAt (rows_at place (rows_of sheet.now table.now)) index x.now) }
{
    let k = find_at(table, sheet, place, index)?;
    Some(&table[k])
}

// The last row of the sheet that ends at the place.
pub fn last_at<'r, X, Y>(table: &'r [Row<X, Y>], sheet: &Sheet, place: u32) -> Option<&'r Row<X, Y>>
    ensures { MatchOption result (length (rows_at place (rows_of sheet.now table.now)) ≡ 0) (λ x. RowAt (rows_at place (rows_of sheet.now table.now)) (length (rows_at place (rows_of sheet.now table.now)) - 1) x.now) }
{
    last(part(table, sheet), place)
}

// The rows of the sheet, as far as the table has them.
fn part<'r, X, Y>(table: &'r [Row<X, Y>], sheet: &Sheet) -> &'r [Row<X, Y>]
    ensures rows { result.now ≡ rows_of sheet.now table.now }
    ensures few { length result.now < 2 ^ 32 }
{
    table
        .get(sheet.start as usize..sheet.end(table.len()))
        .unwrap_or(&[])
}

// How many of the rows end at the place.
fn tally<X, Y>(rows: &[Row<X, Y>], place: u32) -> usize
    ensures count { result ≡ length (rows_at place rows.now) }
    ensures few { result ≤ length rows.now }
{
    // A loop, and no chain: the nested loops of `filter` and `count` branch on each row, which takes about twice the time.
    let mut count = 0;
    for row in rows {
        if row.end == place {
            count += 1;
        }
    }
    count
}

// The last of the rows that end at the place.
fn last<'r, X, Y>(rows: &'r [Row<X, Y>], place: u32) -> Option<&'r Row<X, Y>>
    requires { length rows.now < 2 ^ 32 }
    ensures { MatchOption result (length (rows_at place rows.now) ≡ 0) (λ x. RowAt (rows_at place rows.now) (length (rows_at place rows.now) - 1) x.now) }
{
    // A loop over numbers, which takes no branch: `filter` with `last` takes up to twice the time. The last row so far stands just before
    // `behind`, and 0 says that there is none.
    let mut behind = 0;
    for (k, row) in rows.iter().enumerate() {
        let here = if row.end == place { k as u32 + 1 } else { 0 };
        behind = here.max(behind);
    }
    let k = behind.checked_sub(1)?;
    Some(&rows[k as usize])
}

// Which of the rows is the one of that index among those that end at the place.
fn position<X, Y>(rows: &[Row<X, Y>], place: u32, index: usize) -> Option<usize>
    ensures { MatchOption result (length (rows_at place rows.now) ≤ index) (λ k. Position rows.now place index k) }
{
    // A loop, and no chain: the nested loops of `filter` and `nth` take up to twice the time.
    let mut before = 0;
    for (k, row) in rows.iter().enumerate() {
        if row.end == place {
            if before == index {
                return Some(k);
            }
            before += 1;
        }
    }
    None
}
