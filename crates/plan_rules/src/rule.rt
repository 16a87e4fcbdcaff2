ghost use Rattle.std.specs.Prelude.{◌≡◌};
ghost use Rattle.plan_rules.specs.Named.{head_class, head_joiners, node_class, node_joiners};

use crate::fault::ClosureKind;
use plan_facts::{List, Text};
use plan_scores::Level;

/// A closure, by its kind and number.
#[derive(Clone, Copy, Debug, Drop, PartialEq, Eq)]
pub struct Named {
    pub kind: ClosureKind,
    pub number: u16,
}

/// What must hold between a left row and a right record. The first key of a pair is asked of the left row, the second
/// of the row of the right record alone; the test of `Filtering` is asked of the left row with the record appended.
#[derive(Clone, Copy, Drop)]
pub enum Joiner {
    Equal(u16, u16),
    Less(u16, u16),
    LessOrEqual(u16, u16),
    Greater(u16, u16),
    GreaterOrEqual(u16, u16),
    Filtering(u16),
}

/// The key by which the entities of a class are placed: those with the greater key, which are harder, come first. It is
/// asked of the row of an entity's record alone.
#[derive(Clone, Copy, Drop)]
pub struct Harder {
    pub class: u8,
    pub key: u16,
}

/// What a group makes of its rows, by the number of a key where one is named.
#[derive(Clone, Copy, Drop)]
pub enum Collect {
    Count,
    CountDistinct(u16),
    Sum(u16),
    Min(u16),
    Max(u16),
}

/// Where a stream begins, by the number of a class.
#[derive(Drop)]
pub enum Head {
    /// The records without a null variable.
    ForEach(u8),
    /// All records.
    ForEachNulls(u8),
    /// Each pair of different records without a null variable whose joiners hold, the lower id first.
    Pairs(u8, List<Joiner>),
}

/// What a stream does with its rows. A class is named by its number; the `bool` after it says that its records with
/// null variables take part.
#[derive(Drop)]
pub enum Node {
    /// Keeps the rows at which the test holds.
    Filter(u16),
    /// Each row with each record whose joiners hold.
    Join(u8, bool, List<Joiner>),
    /// Keeps a row, once, where some record's joiners hold.
    IfExists(u8, bool, List<Joiner>),
    /// Keeps a row where no record's joiners hold.
    IfNotExists(u8, bool, List<Joiner>),
    /// One row for each key that occurs: the numbers of the one or two keys, then the collected number.
    GroupBy(List<u16>, Collect),
}

/// A rule: a stream ended by a reward or a penalty. The impact of a match is the weight times the match weight, which
/// is the weigher's answer, or 1 where `weigh` names none.
pub struct RuleDef {
    pub name: Text,
    pub level: Level,
    pub reward: bool,
    pub weight: u32,
    pub weigh: Option<u16>,
    pub head: Head,
    pub nodes: List<Node>,
}

// Written out, so that its owners let go of it by one call.
impl Drop for RuleDef {
    fn drop(self) {
        let RuleDef {
            name,
            level: _,
            reward: _,
            weight: _,
            weigh,
            head,
            nodes,
        } = self;
        drop(name);
        drop(weigh);
        drop(head);
        drop(nodes);
    }
}

impl Head {
    /// The class that the stream begins with.
    pub fn class(&self) -> u8
        ensures { result ≡ head_class self.now }
    {
        match self {
            Head::ForEach(class) => *class,
            Head::ForEachNulls(class) => *class,
            Head::Pairs(class, _) => *class,
        }
    }

    /// The joiners of pairs, and none of the others.
    pub fn joiners(&self) -> &[Joiner]
        ensures { result.now ≡ head_joiners self.now }
    {
        match self {
            Head::Pairs(_, joiners) => joiners.as_slice(),
            _ => &[],
        }
    }
}

impl Node {
    /// The class of the right records; none where the node has none.
    pub fn class(&self) -> Option<u8>
        ensures { result ≡ node_class self.now }
    {
        match self {
            Node::Join(class, _, _) => Some(*class),
            Node::IfExists(class, _, _) => Some(*class),
            Node::IfNotExists(class, _, _) => Some(*class),
            _ => None,
        }
    }

    /// The joiners, none where the node has no right records.
    pub fn joiners(&self) -> &[Joiner]
        ensures { result.now ≡ node_joiners self.now }
    {
        match self {
            Node::Join(_, _, joiners) => joiners.as_slice(),
            Node::IfExists(_, _, joiners) => joiners.as_slice(),
            Node::IfNotExists(_, _, joiners) => joiners.as_slice(),
            _ => &[],
        }
    }
}
