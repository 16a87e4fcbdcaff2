//! Laws of the rows at a rule's end, each the contract of a function that does nothing.
ghost use Rattle.stream_end.specs.Laws.{EndSumsAreMatchWeights, EndsStandByMeaning};

/// Rows at a rule's end add up to the match weights of what they mean.
pub fn end_sums_are_match_weights()
    ensures { EndSumsAreMatchWeights }
{}

/// Where heads change, and rows mean what they meant, an end that stood for them still does.
pub fn ends_stand_by_meaning()
    ensures { EndsStandByMeaning }
{}
