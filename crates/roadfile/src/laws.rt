// What is true of every reading of a road file, as promises of functions that do nothing.
ghost use Rattle.roadfile.specs.Outcome.{OneOutcome};
ghost use Rattle.roadfile.specs.Runs.{ReadingIsFaithful};

// The records that a reader hands out, written one after the other, are the file up to where the reader stands.
pub fn reading_is_faithful()
    ensures { ReadingIsFaithful }
{}

// A file over a road table has one outcome: what is said of `load` leaves no choice.
pub fn one_outcome()
    ensures { OneOutcome }
{}
