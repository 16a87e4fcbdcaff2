ghost use Rattle.std.specs.Prelude.{◌≡◌, ◌<◌, ◌≤◌, ◌++◌, ◌∷◌, [], length, slice_get, option_copied, option_map};
ghost use Rattle.std.specs.Arc.{arc_value};

use crate::row::Part;
use std::sync::Arc;

/// The parts of a row, at most 4, which other rows may have too.
#[derive(Drop)]
pub enum Shared {
    Zero,
    One(Arc<Part>),
    Two(Arc<Part>, Arc<Part>),
    Three(Arc<Part>, Arc<Part>, Arc<Part>),
    Four(Arc<Part>, Arc<Part>, Arc<Part>, Arc<Part>),
}

impl Shared {
    ghost use Rattle.plan_rules.specs.Shared.{parts_in};

    /// How many parts there are.
    pub fn len(&self) -> usize
        ensures count { result ≡ length (parts_in self.now) }
        ensures few { result ≤ 4 }
    {
        match self {
            Shared::Zero => 0,
            Shared::One(_) => 1,
            Shared::Two(_, _) => 2,
            Shared::Three(_, _, _) => 3,
            Shared::Four(_, _, _, _) => 4,
        }
    }

    /// The part at place `n`, from 0; none where there are no more than `n` parts.
    pub fn get(&self, n: usize) -> Option<&Arc<Part>>
        ensures { option_map arc_value (option_copied result) ≡ slice_get (parts_in self.now) n }
    {
        match (self, n) {
            (Shared::One(a), 0) => Some(a),
            (Shared::Two(a, _), 0) => Some(a),
            (Shared::Two(_, b), 1) => Some(b),
            (Shared::Three(a, _, _), 0) => Some(a),
            (Shared::Three(_, b, _), 1) => Some(b),
            (Shared::Three(_, _, c), 2) => Some(c),
            (Shared::Four(a, _, _, _), 0) => Some(a),
            (Shared::Four(_, b, _, _), 1) => Some(b),
            (Shared::Four(_, _, c, _), 2) => Some(c),
            (Shared::Four(_, _, _, d), 3) => Some(d),
            _ => None,
        }
    }

    /// The parts with one more behind them.
    pub fn with(self, part: Arc<Part>) -> Shared
        requires { length (parts_in self) < 4 }
        ensures { parts_in result ≡ parts_in self ++ arc_value part ∷ [] }
    {
        match self {
            Shared::Zero => Shared::One(part),
            Shared::One(a) => Shared::Two(a, part),
            Shared::Two(a, b) => Shared::Three(a, b, part),
            Shared::Three(a, b, c) => Shared::Four(a, b, c, part),
            Shared::Four(_, _, _, _) => unreachable!(),
        }
    }
}
