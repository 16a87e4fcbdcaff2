// Laws of the definitions that the contracts of the crates above cite.
ghost use Rattle.move_workers.specs.Laws.{FindsAsTheSearch, PlaysAsTheSearch};

/// A worker on the plan of a state finds of a candidate what the search does, and comes to the same plan by it.
pub fn workers_search()
    ensures finds { FindsAsTheSearch }
    ensures plays { PlaysAsTheSearch }
{}
