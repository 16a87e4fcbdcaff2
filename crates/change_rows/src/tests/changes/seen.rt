//! What is seen of a timetable.

use super::made::World;

/// Something that is seen: the ids of a class, the next of them, the fields of a fact, the values of an entity, how
/// many facts were made, how many variables are null that may not stay so, how many names there are, the number of
/// a name, that an entity is pinned, or the weights of the rules.
pub(super) enum Seen {
    Ids(u8, &'static [u32]),
    NextId(u8, u32),
    Fields(u8, u32, &'static [i64]),
    Values(u8, u32, [Option<u32>; 2]),
    Made(u32),
    Unplaced(u32),
    Names(u32),
    Name(&'static str, u32),
    Pinned(u8, u32),
    Weights([u32; 2]),
}

/// The fields of a fact; none where it isn't there.
fn fields(world: &World, class: u8, id: u32) -> &[i64] {
    match world.plan.raw(class, id) {
        Some(raw) => raw.fields.as_slice(),
        None => &[],
    }
}

/// The values of an entity; none where it isn't there.
fn values(world: &World, class: u8, id: u32) -> &[Option<u32>] {
    match world.plan.raw(class, id) {
        Some(raw) => raw.values.as_slice(),
        None => &[],
    }
}

/// Whether this, which is a number or a pin, is seen of the world.
fn is_counted(world: &World, seen: &Seen) -> bool {
    match *seen {
        Seen::NextId(class, id) => world.plan.next_id(class) == id,
        Seen::Made(count) => world.plan.made() == count,
        Seen::Unplaced(count) => world.plan.unplaced() == count,
        Seen::Names(count) => world.names.count() == count,
        Seen::Name(text, number) => world.names.find(text.as_bytes()) == Some(number),
        Seen::Pinned(class, id) => world.plan.pinned(class, id),
        _ => false,
    }
}

/// Whether this is seen of the world.
fn is_seen(world: &World, seen: &Seen) -> bool {
    match *seen {
        Seen::Ids(class, ids) => world.plan.ids(class) == ids,
        Seen::Fields(class, id, numbers) => fields(world, class, id) == numbers,
        Seen::Values(class, id, wanted) => values(world, class, id) == wanted.as_slice(),
        Seen::Weights(weights) => world.weights == weights,
        _ => is_counted(world, seen),
    }
}

/// Whether all of this is seen of the world.
pub(super) fn are_seen(world: &World, all: &[Seen]) -> bool {
    for seen in all {
        if !is_seen(world, seen) {
            return false;
        }
    }
    true
}
