ghost use Rattle.std.specs.Prelude.{◌≡◌, ℕ, ◌↔◌, length, Some, IfSome, ◌<◌, ◌≤◌, ◌^◌, Decides, option_map, slice_get};
ghost use Rattle.rows.specs.Sound.{Made, Fits, LawfulAt, SheetSound, Sound};

use crate::{Row, Sheet, Source};
use criteria::Criterion;

impl Source {
    // How many roads follow from the source of a row behind these, where there are so many roads; none if it names others.
    fn count<X, Y>(self, earlier: &[Row<X, Y>], roads: u32) -> Option<u64>
        ensures { (n : ℕ) → (result ≡ Some n) ↔ Made roads earlier.now (length earlier.now) n self }
    {
        match self {
            Source::Empty => Some(0),
            Source::Extend { row, road } if road < roads => Some(roads_of(earlier, row)? + 1),
            Source::Extend { .. } => None,
            Source::Pair { left, right } => {
                Some(roads_of(earlier, left)? + roads_of(earlier, right)?)
            }
            Source::Taken { row } => roads_of(earlier, row),
        }
    }

    // Whether that many roads follow from the source of a row behind these, where there are so many roads.
    #[tactic(auto, using(crate::proofs::Checks::number_made))]
    fn makes<X, Y>(self, earlier: &[Row<X, Y>], roads: u32, count: u32) -> bool
        ensures { Decides result (Made roads earlier.now (length earlier.now) count self) }
    {
        self.count(earlier, roads) == Some(u64::from(count))
    }
}

// How many roads the row of that index has, if there is one.
fn roads_of<X, Y>(rows: &[Row<X, Y>], index: u32) -> Option<u64>
    ensures value { result ≡ option_map (λ r. r.roads) (slice_get rows.now index) }
    ensures few { IfSome result (λ n. n < 2 ^ 32) }
{
    rows.get(index as usize).map(|row| u64::from(row.roads))
}

// What rows are tested by: the criteria, and how many places and roads there are.
#[derive(Drop)]
struct Check<'c, A: Criterion, B: Criterion> {
    first: &'c A,
    second: &'c B,
    places: u32,
    roads: u32,
}

impl<A: Criterion, B: Criterion> Check<'_, A, B> {
    // Whether the row ends at a place, stays within the reach, and has values that pass the tests for its number of roads.
    fn is_fit(&self, reach: u32, row: &Row<A::Value, B::Value>) -> bool
        ensures { Decides result (Fits (A.Criterion.meaning self.now.first.now) (B.Criterion.meaning self.now.second.now) self.now.places reach row.now) }
    {
        row.end < self.places
            && row.roads <= reach
            && self.first.test(row.first, row.roads)
            && self.second.test(row.second, row.roads)
    }

    // Whether row k of the table may stand there, in a sheet of that reach.
    fn is_lawful(&self, table: &[Row<A::Value, B::Value>], reach: u32, k: usize) -> bool
        requires { k < length table.now }
        ensures { Decides result (LawfulAt (A.Criterion.meaning self.now.first.now) (B.Criterion.meaning self.now.second.now) self.now.places self.now.roads table.now reach k) }
    {
        let row = &table[k];
        self.is_fit(reach, row) && row.source.makes(&table[..k], self.roads, row.roads)
    }

    // Whether every row of the sheet may stand where it does. By index, as a row is tested by what stands before it in the table.
    fn is_sheet_sound(&self, table: &[Row<A::Value, B::Value>], sheet: &Sheet) -> bool
        ensures { Decides result (SheetSound (A.Criterion.meaning self.now.first.now) (B.Criterion.meaning self.now.second.now) self.now.places self.now.roads table.now sheet.now) }
    {
        (sheet.start as usize..sheet.end(table.len())).all(
            |k|
                requires { k < length table.now }
                ensures { Decides result (LawfulAt (A.Criterion.meaning self.entry.now.first.now) (B.Criterion.meaning self.entry.now.second.now) self.entry.now.places self.entry.now.roads table.entry.now sheet.entry.now.reach k) }
            { self.is_lawful(table, sheet.reach, k) },
        )
    }
}

// Whether the table has the used rows, and every row of every sheet may stand where it does.
// The two criteria stay two parameters, and so do the numbers of places and roads, which need not be a network's: a struct of both or
// a network would ask more of callers.
pub fn sound<A: Criterion, B: Criterion>(
    a: &A,
    b: &B,
    places: u32,
    roads: u32,
    sheets: &[Sheet],
    used: u32,
    table: &[Row<A::Value, B::Value>],
) -> bool
    ensures { Decides result (Sound (A.Criterion.meaning a.now) (B.Criterion.meaning b.now) places roads sheets.now used table.now) }
{
    let check = Check {
        first: a,
        second: b,
        places,
        roads,
    };
    has_rows(table, used)
        && sheets
            .iter()
            .all(|sheet| check.is_sheet_sound(table, sheet))
}

// Whether the table has that many rows.
fn has_rows<X, Y>(table: &[Row<X, Y>], used: u32) -> bool
    ensures { Decides result (used ≤ length table.now) }
{
    table.len() >= used as usize
}
