ghost use Rattle.std.specs.Prelude.{◌≡◌, ◌+◌, ◌^◌, ◌<◌, ◌≤◌, OnOk, All, length};
ghost use Rattle.move_selectors.specs.Pillars.{is_settled};
ghost use Rattle.move_selectors.specs.Links.{AreLinksOf};
ghost use Rattle.move_selectors.specs.Linked.{key_of, AreShort, AreLinked, links_view};
ghost use Rattle.move_selectors.specs.Pool.{at_places};

use plan_facts::{Memory, Raw};
use std::alloc::Global;
use std::collections::HashMap;

/// What an entity holds in its variables, of which there are at most two.
type Key = (Option<u32>, Option<u32>);

/// How the pillars of some entities hang together: the place of each pillar's first member, and for each entity the
/// place of the next member of its pillar.
#[derive(Drop)]
pub struct Links {
    pub heads: Vec<u32>,
    pub next: Vec<u32>,
    // For each pillar the place of its last member.
    last: HashMap<Key, u32>,
}

/// No links.
pub fn no_links(alloc: Global) -> Links {
    Links {
        heads: Vec::new(alloc),
        next: Vec::new(alloc),
        last: HashMap::new(alloc),
    }
}

/// The values of at most two variables as a key.
fn key_of(values: &[Option<u32>]) -> Key
    ensures { result ≡ key_of values.now }
{
    (
        values.get(0).copied().flatten(),
        values.get(1).copied().flatten(),
    )
}

/// Whether no value is missing: each is there, or its variable may stay null.
fn is_settled(nullables: &[bool], values: &[Option<u32>]) -> bool
    ensures { result ≡ is_settled nullables.now values.now }
{
    nullables
        .iter()
        .zip(values)
        .all(|(nullable, value)| *nullable || value.is_some())
}

/// Links one more entity to those before it.
fn link_one(
    links: &mut Links,
    facts: &[Raw],
    places: &[u32],
    nullables: &[bool],
    at: usize,
) -> Result<(), Memory>
    requires at { (at < length places.now) × (length places.now < 2 ^ 32) }
    requires within { All (λ place. place < length facts.now) places.now }
    requires short { AreShort nullables.now (at_places facts.now places.now) }
    requires so_far { AreLinked nullables.now (at_places facts.now places.now) at links.old }
    ensures { OnOk result (AreLinked nullables.now (at_places facts.now places.now) (at + 1) links.new) }
{
    let values = facts[places[at] as usize].values.as_slice();
    links.next.push(places.len() as u32)?;
    if !is_settled(nullables, values) {
        return Ok(());
    }
    match links.last.insert(key_of(values), at as u32)? {
        Some(before) => links.next[before as usize] = at as u32,
        None => links.heads.push(at as u32)?,
    }
    Ok(())
}

/// Finds how the pillars of the entities at these places hang together.
pub fn find_links(
    links: &mut Links,
    facts: &[Raw],
    places: &[u32],
    nullables: &[bool],
) -> Result<(), Memory>
    requires few { length places.now < 2 ^ 32 }
    requires within { All (λ place. place < length facts.now) places.now }
    requires short { AreShort nullables.now (at_places facts.now places.now) }
    ensures { OnOk result (AreLinksOf nullables.now (at_places facts.now places.now) (links_view links.new)) }
{
    links.heads.clear();
    links.next.clear();
    links.last.clear();
    for at in 0..places.len() {
        link_one(links, facts, places, nullables, at)?;
    }
    Ok(())
}
