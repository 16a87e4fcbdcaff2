// Laws of the core as a machine.
ghost use Rattle.search_core.specs.Laws.{ChoosesAsInOneThread, EventsAreOfRun, EventsToCutAreOfRun, OrderMakesNoDifference, StepsEndWithWinner};

/// On every list of events that is taken and true of a search, each choice is the winner of its step in the one-thread
/// search.
pub fn chosen_as_in_one_thread<State, Line>()
    ensures { ChoosesAsInOneThread State Line }
{}

/// Neither workers nor the order of their claims and verdicts make a difference to a choice.
pub fn order_makes_no_difference()
    ensures { OrderMakesNoDifference }
{}

/// The events that one thread makes of a step are taken, and end it with its winner.
pub fn steps_end_with_winner()
    ensures { StepsEndWithWinner }
{}

/// The events that one thread makes of a run are taken and true of it, and take the lines that its cuts took.
pub fn events_are_of_run<State, Line>()
    ensures to_cut { EventsToCutAreOfRun State Line }
    ensures to_step { EventsAreOfRun State Line }
{}
