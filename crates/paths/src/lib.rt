// Paths over roads and the classical problems with two objectives, in plain numbers.
#![tactic(auto)]

ghost use Rattle.paths.specs.Lexicographic.{UniqueLexmin};
ghost use Rattle.paths.specs.Sets.{MinimalSetsAgree};

// Each function is a theorem: its contract is the statement, and there is nothing to do.

// A problem has one answer: two minimal complete sets of efficient paths have the same pairs of values.
pub fn minimal_sets_agree()
    ensures { MinimalSetsAgree }
{}

// There is one lexicographic minimum at most.
pub fn lexmin_is_unique()
    ensures { UniqueLexmin }
{}
