ghost use Rattle.std.specs.Prelude.{IfOk, MatchResult};
ghost use Rattle.book.specs.Reading.{FirstThere, LastThere, BestRefused};
ghost use Rattle.classical.specs.BestRows.{by_sums, by_peak, HasLeastSumsThenPeak, HasLeastPeakThenSums};

use book::{Book, PlannerFault};
use criteria::{Lexical, LexicalValue, Peak, PeakValue, Sum, SumValue};
use rows::Row;

// Two functions, since each says another optimum of another call.

// The row with the least sums, and on a tie the least peak.
pub fn least_sums_then_peak<'r>(
    book: &Book<Lexical<Sum, Sum>, Peak>,
    rows: &'r [Row<LexicalValue<SumValue, SumValue>, PeakValue>],
    sheet: u32,
    place: u32,
) -> Result<&'r Row<LexicalValue<SumValue, SumValue>, PeakValue>, PlannerFault>
    ensures same { MatchResult result (λ x. FirstThere (by_sums book.now.first) (by_peak book.now.second) book.now rows.now sheet place x.now) (λ f. BestRefused (by_sums book.now.first) (by_peak book.now.second) book.now rows.now sheet place f) }
    ensures optimum { IfOk result (λ x. HasLeastSumsThenPeak book.now rows.now sheet place x.now) }
{
    book.best_by_first(rows, sheet, place)
}

// The row with the least peak, and on a tie the least sums.
pub fn least_peak_then_sums<'r>(
    book: &Book<Lexical<Sum, Sum>, Peak>,
    rows: &'r [Row<LexicalValue<SumValue, SumValue>, PeakValue>],
    sheet: u32,
    place: u32,
) -> Result<&'r Row<LexicalValue<SumValue, SumValue>, PeakValue>, PlannerFault>
    ensures same { MatchResult result (λ x. LastThere (by_sums book.now.first) (by_peak book.now.second) book.now rows.now sheet place x.now) (λ f. BestRefused (by_sums book.now.first) (by_peak book.now.second) book.now rows.now sheet place f) }
    ensures optimum { IfOk result (λ x. HasLeastPeakThenSums book.now rows.now sheet place x.now) }
{
    book.best_by_second(rows, sheet, place)
}
