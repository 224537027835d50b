ghost use Rattle.std.specs.Prelude.{IfOk, MatchResult};
ghost use Rattle.book.specs.Reading.{FirstThere, BestRefused};
ghost use Rattle.classical.specs.BestRows.{by_sum, HasLeastSums};

use book::{Book, PlannerFault};
use criteria::{Sum, SumValue};
use rows::Row;

// The row with the least sum, and on a tie the least second sum.
// A function apart from `least_sums_then_peak`: its book is of another type, and its contract says another optimum.
pub fn least_sums<'r>(
    book: &Book<Sum, Sum>,
    rows: &'r [Row<SumValue, SumValue>],
    sheet: u32,
    place: u32,
) -> Result<&'r Row<SumValue, SumValue>, PlannerFault>
    ensures same { MatchResult result (λ x. FirstThere (by_sum book.now.first) (by_sum book.now.second) book.now rows.now sheet place x.now) (λ f. BestRefused (by_sum book.now.first) (by_sum book.now.second) book.now rows.now sheet place f) }
    ensures optimum { IfOk result (λ x. HasLeastSums book.now rows.now sheet place x.now) }
{
    book.best_by_first(rows, sheet, place)
}
