// Laws of the rows of streams, on which nodes that keep rows may stand.
ghost use Rattle.plan_rules.specs.Laws.{ChangesJoin, ChangesCancel, ChangesAreExact, SameAreRearranged, NodesKeepSameness, GroupsForgetOrder, MeetingForgetsOrder, LeftRowsLead, RightRecordsLead, TestsTurn, OtherGroupsStay, PlansAreById, PairsAreJoins, RowsAreInOrder, SortingRestoresRows, ScoresAreOfRules};

/// Rows may be kept in any order: nodes make the same of them but for the order, and groups are the very same.
pub fn order_may_be_forgotten()
    ensures rearranged { SameAreRearranged }
    ensures nodes { NodesKeepSameness }
    ensures groups { GroupsForgetOrder }
    ensures meeting { MeetingForgetsOrder }
{}

/// What went and what came may be gathered over many changes. Where no row stands twice and none both went and came, just
/// old rows went and just new ones came.
pub fn changes_add_up()
    ensures join { ChangesJoin }
    ensures cancel { ChangesCancel }
    ensures exact { ChangesAreExact }
{}

/// But for groups, what a node makes of the left rows that went and came leads from its old rows to its new ones, and so
/// does what a join makes of right records. A group whose key no such row has stays.
pub fn changes_lead_through_nodes()
    ensures left { LeftRowsLead }
    ensures right { RightRecordsLead }
    ensures turning { TestsTurn }
    ensures others { OtherGroupsStay }
{}

/// Where the records of each class stand by their ids, the order of a rule's rows comes back by sorting them.
pub fn order_comes_back()
    ensures plans { PlansAreById }
    ensures pairs { PairsAreJoins }
    ensures in_order { RowsAreInOrder }
    ensures sorted { SortingRestoresRows }
{}

/// A score is the sum, over the rules, of what the sum of each rule's match weights makes.
pub fn scores_add_up_by_rule()
    ensures sum { ScoresAreOfRules }
{}
