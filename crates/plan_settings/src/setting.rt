/// Where a step ends before its limits: at the first candidate that is accepted and better than this.
#[derive(Clone, Copy, Debug, PartialEq, Eq)]
pub enum Early {
    /// Nowhere.
    Never,
    /// Better than the best score of the leg so far.
    Best,
    /// Better than the last score.
    Last,
}

/// Which candidates are accepted.
#[derive(Clone, Copy, Debug, PartialEq, Eq)]
pub enum AcceptorKind {
    /// Hill climbing: those at least as good as the last score.
    Hill,
    /// Late acceptance: those at least as good as the last score or a late one.
    Late,
    /// Entity tabu: those that move no entity that a late step moved, or are better than the best score.
    Tabu,
    /// Step counting hill climbing: those at least as good as the last score or a threshold that stands for a while.
    StepCount,
}

/// What makes candidates.
#[derive(Clone, Copy, Debug, PartialEq, Eq)]
pub enum Selector {
    /// One variable of one entity gets a value.
    Change,
    /// Two entities of a class exchange their values.
    Swap,
    /// One variable of a pillar gets a value; a pillar is all entities of a class that share their values.
    PillarChange,
    /// Two pillars of a class exchange their values.
    PillarSwap,
    /// A move maker of the domain.
    Own,
}

/// In which order entities are placed before the search.
#[derive(Clone, Copy, Debug, PartialEq, Eq)]
pub enum Construction {
    /// First fit: in the order of their classes and ids.
    FirstFit,
    /// First fit decreasing: in each class those of greater difficulty first.
    Decreasing,
}

/// The settings, in the order in which they are looked at.
#[derive(Clone, Copy, Debug, PartialEq, Eq)]
pub enum Setting {
    Seed,
    Steps,
    SelectLimit,
    AcceptedLimit,
    PickEarly,
    Acceptor,
    LateSize,
    TabuSize,
    StepCountSize,
    Selectors,
    Construction,
}

impl Setting {
    /// All settings, in their order.
    pub const ALL: [Setting; 11] = [
        Setting::Seed,
        Setting::Steps,
        Setting::SelectLimit,
        Setting::AcceptedLimit,
        Setting::PickEarly,
        Setting::Acceptor,
        Setting::LateSize,
        Setting::TabuSize,
        Setting::StepCountSize,
        Setting::Selectors,
        Setting::Construction,
    ];
}
