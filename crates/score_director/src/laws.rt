//! Laws of what networks stand for.
ghost use Rattle.score_director.specs.Fresh.{FreshNetsStandForNothing};

/// A network without records is one of its rules, and stands for a plan without facts.
pub fn fresh_nets_stand_for_nothing()
    ensures { FreshNetsStandForNothing }
{}
