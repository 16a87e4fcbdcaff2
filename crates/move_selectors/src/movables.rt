ghost use Rattle.std.specs.Prelude.{◌≡◌, ◌<◌, length};
ghost use Rattle.move_selectors.specs.Pillars.{same_values};

use crate::links::Links;
use plan_draws::picked_place;
use plan_facts::Raw;

/// The movable entities of a class, in the order of their ids, with how their pillars hang together.
#[derive(Clone, Copy, Drop)]
pub struct Movables<'a> {
    pub class: u8,
    pub nullables: &'a [bool],
    pub facts: &'a [Raw],
    pub places: &'a [u32],
    pub links: &'a Links,
}

impl<'a> Movables<'a> {
    ghost use Rattle.std.specs.Prelude.{◌≡◌, ◌<◌, length, option_copied};
    ghost use Rattle.plan_draws.specs.Picks.{picked};
    ghost use Rattle.move_selectors.specs.Links.{values_at};
    ghost use Rattle.move_selectors.specs.Movables.{AreThere, entity_in, entities_in};

    /// How many entities there are.
    pub fn len(&self) -> usize
        ensures { result ≡ length (entities_in self.now) }
    {
        self.places.len()
    }

    /// The entity at a place.
    pub fn entity(&self, at: usize) -> &'a Raw
        requires at { at < length self.now.places.now }
        requires there { AreThere self.now }
        ensures { result.now ≡ entity_in self.now at }
    {
        &self.facts[self.places[at] as usize]
    }

    /// The entity that a word picks; none where there is none.
    pub fn picked(&self, word: u32) -> Option<&'a Raw>
        requires { AreThere self.now }
        ensures { option_copied result ≡ picked word (entities_in self.now) }
    {
        let at = picked_place(word, self.places.len())?;
        Some(self.entity(at))
    }

    /// What the entity at a place holds.
    pub fn values(&self, at: usize) -> &'a [Option<u32>]
        requires at { at < length self.now.places.now }
        requires there { AreThere self.now }
        ensures { result.now ≡ values_at (entities_in self.now) at }
    {
        self.entity(at).values.as_slice()
    }
}

/// Whether two lists have the same values in the same variables.
pub fn same_values(one: &[Option<u32>], other: &[Option<u32>]) -> bool
    ensures { result ≡ same_values one.now other.now }
{
    one == other
}
