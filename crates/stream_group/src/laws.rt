//! Laws of the rows of group nodes, each the contract of a function that does nothing.
ghost use Rattle.stream_group.specs.Laws.{GroupRowsMeanGroups};

/// The rows of a group node mean the groups of what its left rows mean.
pub fn group_rows_mean_groups()
    ensures { GroupRowsMeanGroups }
{}
