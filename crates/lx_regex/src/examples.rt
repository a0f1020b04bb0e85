//! The worked examples, which hold by computation.
ghost use Rattle.lx_regex.specs.Examples.{tagged_letters, AlternativesUnsetTags, marked_letters, HistoriesKeepAllEvents, grouped_letters, EmptyIterationsAreNotPlain, letter_in_context, ContextsPutTheCursorBack, one_or_two_points, PairsComeBeforeSurrogates, overlapping_letters, PoliciesDiffer, TablesAre, MatchesAre, KernelsAre};
ghost use Rattle.lx_regex.specs.Tree.{Tree};

/// The examples of `specs/Examples.antt` are right.
pub fn examples_hold()
    ensures alternatives { (on_ab on_ba on_nothing : Tree tagged_letters) × AlternativesUnsetTags on_ab on_ba on_nothing }
    ensures histories { (on_xyx : Tree marked_letters) × HistoriesKeepAllEvents on_xyx }
    ensures contexts { (on_abbb : Tree letter_in_context) × ContextsPutTheCursorBack on_abbb }
    ensures pairs { (as_pair as_two : Tree one_or_two_points) × PairsComeBeforeSurrogates as_pair as_two }
    ensures empty_iterations { (on_xy in_two with_empty : Tree grouped_letters) × EmptyIterationsAreNotPlain on_xy in_two with_empty }
    ensures policies { (in_one in_two : Tree overlapping_letters) × PoliciesDiffer in_one in_two }
    ensures tables { TablesAre }
    ensures matches { MatchesAre }
    ensures kernels { KernelsAre }
{}
