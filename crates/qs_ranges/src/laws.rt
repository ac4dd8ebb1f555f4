//! Laws on sets of numbers, each the contract of a function.
ghost use Rattle.qs_ranges.specs.Laws.{
  EqualSetsHaveEqualPairs,
  PairsAreLongestRuns,
  CoversIsEachNumber,
  EndIsPastTheLast,
  MissingFromIsLeast,
  RunsRiseAndFallByOne,
};

/// Equal sets have equal pairs.
pub fn equal_sets_have_equal_pairs()
    ensures { EqualSetsHaveEqualPairs }
{}

/// The pairs are the longest runs of members.
pub fn pairs_are_longest_runs()
    ensures { PairsAreLongestRuns }
{}

/// The test `covers` holds exactly where each number of the range is a member.
pub fn covers_is_each_number()
    ensures { CoversIsEachNumber }
{}

/// The end is one more than the largest member.
pub fn end_is_past_the_last()
    ensures { EndIsPastTheLast }
{}

/// The computed first missing number is the least that is not a member.
pub fn missing_from_is_least()
    ensures { MissingFromIsLeast }
{}

/// An insert makes at most one run more, and without its lowest run a set has one fewer.
pub fn runs_rise_and_fall_by_one()
    ensures { RunsRiseAndFallByOne }
{}
