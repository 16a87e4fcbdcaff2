// Laws of the definitions that the contracts of the crates above cite.
ghost use Rattle.plan_search.specs.Laws.{CombinationsAreCounted, CombinationsTakeOneOfEach, CombinationsAreInOrder, PlacesInOrder, StuckHasNoEdit, NoEditWhereNoChoice, PlacesByTheBest, LeavesThePlaced, PlacingsJoin};
ghost use Rattle.plan_search.specs.Quiet.{GrowsByALine, HasOneLeg, LaterLinesGoOn, SolvePrints};
ghost use Rattle.plan_search.specs.TodoLaws.{HarderComesFirst, IdleEditsLeaveThePlan, OrderIsSorted, OrderIsTheOnlyOne, OrderKeepsAll, RestAwaits, ToPlaceWaits, TodoAwaits};

/// Entities in the order of first fit decreasing are the same entities, and their order is the only one.
pub fn harder_entities_come_first()
    ensures harder { HarderComesFirst }
    ensures all { OrderKeepsAll }
    ensures sorted { OrderIsSorted }
    ensures only { OrderIsTheOnlyOne }
{}

/// The combinations are all ways to take one choice of each list, each in its place.
pub fn combinations_are_all()
    ensures counted { CombinationsAreCounted }
    ensures one_of_each { CombinationsTakeOneOfEach }
    ensures in_order { CombinationsAreInOrder }
{}

/// Entities are placed in order, each by its best edit in the plan that the earlier ones leave, up to one that has none.
pub fn placings_place_in_order()
    ensures in_order { PlacesInOrder }
    ensures stuck { StuckHasNoEdit }
    ensures no_edit { NoEditWhereNoChoice }
    ensures by_the_best { PlacesByTheBest }
    ensures leaves { LeavesThePlaced }
    ensures join { PlacingsJoin }
{}

/// Entities are placed once: what is to be placed after an entity is the rest, whatever it was set to.
pub fn placings_leave_the_rest()
    ensures waits { ToPlaceWaits }
    ensures todo { TodoAwaits }
    ensures rest { RestAwaits }
    ensures idle { IdleEditsLeaveThePlan }
{}

/// Without a feed a run has one leg, which grows by its steps, and what is printed grows by their lines.
pub fn quiet_runs_grow()
    ensures one_leg { HasOneLeg }
    ensures by_a_line { GrowsByALine }
    ensures go_on { LaterLinesGoOn }
    ensures prints { SolvePrints }
{}
