ghost use Rattle.std.specs.Prelude.{◌≡◌, ◌+◌, ◌*◌, ◌<◌, ◌≤◌, ◌++◌, length};
ghost use Rattle.lines.specs.Text.{text};
ghost use Rattle.book.specs.Reading.{Serving, count_of};
ghost use Rattle.criteria.specs.Limit.{limit_meaning};
ghost use Rattle.criteria.specs.Sum.{sum_meaning};
ghost use Rattle.printout.specs.Record.{limit_of, by_load, place_text, places_text, row_text, by_time};
ghost use Rattle.rows.specs.Places.{RowAt, pair_of};
ghost use Rattle.trips.specs.Pages.{all_rows};

use crate::RECORD;
use arrayvec::ArrayString;
use book::Book;
use criteria::{Limit, LimitValue, Sum, SumValue};
use lines::Line;
use rows::Row;

// The first sheet of a book that has one, beside a row table that serves the book. That it serves stands between bars: a ghost field
// must be a fact that has one proof at most.
#[derive(Clone, Copy)]
pub(crate) struct FirstSheet<'b> {
    pub(crate) book: &'b Book<Sum, Limit>,
    // the table that the book filled
    pub(crate) rows: &'b [Row<SumValue, LimitValue>],
    ghost serving: { ∥ Serving (sum_meaning book.now.first.column.index) (limit_meaning book.now.second.column.index) book.now rows.now ∥₁ },
    ghost some: { 0 < count_of book.now },
}

impl FirstSheet<'_> {
    ghost use Rattle.printout.specs.Sheets.{rows_at, pairs_at};

    // Appends the lines of every place.
    pub(crate) fn push_places(&self, output: &mut ArrayString<RECORD>, places: u32)
        requires places { places ≤ self.now.book.now.network.places }
        requires room { length output.old.bytes + 48 * (places + all_rows by_time by_load (pairs_at self.now) places) ≤ 147456 }
        ensures { output.new.bytes ≡ output.old.bytes ++ places_text (pairs_at self.now) places }
    {
        // Over numbers: a network has no list of its places.
        for place in 0..places {
            self.push_place(output, place);
        }
    }

    // Appends the lines of the place: how many rows it has, and each of them.
    fn push_place(&self, output: &mut ArrayString<RECORD>, place: u32)
        requires place { place < self.now.book.now.network.places }
        requires room { length output.old.bytes + 48 * (1 + length (pairs_at self.now place)) ≤ 147456 }
        ensures near { length output.new.bytes ≤ length output.old.bytes + 48 * (1 + length (pairs_at self.now place)) }
        ensures written { output.new.bytes ≡ output.old.bytes ++ place_text place (pairs_at self.now place) }
    {
        let count = self.book.count(self.rows, 0, place).unwrap();
        push_line(output, Line::Place { place, rows: count });
        // Over numbers: a book answers a row by its index.
        for index in 0..count {
            self.push_row(output, place, index);
        }
    }

    // Appends the line of the row of that index at the place.
    fn push_row(&self, output: &mut ArrayString<RECORD>, place: u32, index: u32)
        requires place { place < self.now.book.now.network.places }
        requires index { index < length (rows_at self.now place) }
        requires room { length output.old.bytes + 48 ≤ 147456 }
        ensures near { length output.new.bytes ≤ length output.old.bytes + 48 }
        ensures written { (x : Row SumValue LimitValue) → RowAt (rows_at self.now place) index x → output.new.bytes ≡ output.old.bytes ++ row_text (pair_of x) }
    {
        let row = self.book.row(self.rows, 0, place, index).unwrap();
        let line = Line::Row {
            time: row.first.total,
            limit: limit(row.second),
        };
        push_line(output, line);
    }
}

// The limit of a row, where there is one.
// A function of this crate: that no limit is printed as a dash is a matter of this record and not of the criterion.
fn limit(value: LimitValue) -> Option<u32>
    ensures { result ≡ limit_of value }
{
    match value {
        LimitValue::Unlimited => None,
        LimitValue::Mark(limit) => Some(limit),
    }
}

// Appends the line.
pub(crate) fn push_line(output: &mut ArrayString<RECORD>, line: Line)
    requires { length output.old.bytes + 48 ≤ 147456 }
    ensures near { length output.new.bytes ≤ length output.old.bytes + 48 }
    ensures written { output.new.bytes ≡ output.old.bytes ++ text line }
{
    output.push_str(line.text().as_str());
}
