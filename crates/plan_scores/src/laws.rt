// Laws of the definitions that the other contracts of this crate cite.
ghost use Rattle.std.specs.Cmp.{IsTotalOrder};
ghost use Rattle.plan_scores.specs.Order.{score_cmp, plan_score_cmp, TellsApart, WorseIsLessFirst, WorseIsLessPlaced};
ghost use Rattle.plan_scores.specs.Best.{FirstBestIsFirst};
ghost use Rattle.plan_scores.specs.Sum.{AddingCanBeUndone, TakingAwayCanBeUndone, SumsJoin, RewardsAddUp, PenaltiesAddUp, BoundsAddUp, WithinFits};

/// Scores stand in one order, by the first level at which two of them differ.
pub fn scores_are_ordered()
    ensures total { IsTotalOrder score_cmp }
    ensures apart { TellsApart score_cmp }
    ensures words { WorseIsLessFirst }
{}

/// Scores of plans stand in one order, by their null variables and then by their scores.
pub fn plan_scores_are_ordered()
    ensures total { IsTotalOrder plan_score_cmp }
    ensures apart { TellsApart plan_score_cmp }
    ensures words { WorseIsLessPlaced }
{}

/// Scores can be added up part by part, added to and taken away from, within bounds that add up.
pub fn scores_add_up()
    ensures undo { AddingCanBeUndone }
    ensures redo { TakingAwayCanBeUndone }
    ensures join { SumsJoin }
    ensures rewards { RewardsAddUp }
    ensures penalties { PenaltiesAddUp }
    ensures bounds { BoundsAddUp }
    ensures fits { WithinFits }
{}

/// The first best of a list is better than each member before it, and no worse than each after it.
pub fn first_best_is_first<T>()
    ensures { FirstBestIsFirst T }
{}
