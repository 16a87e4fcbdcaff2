ghost use Rattle.std.specs.Prelude.{◌≡◌, ◌^◌, ◌<◌, IfSome, length, option_copied};
ghost use Rattle.plan_draws.specs.Picks.{picked_place, picked};

use crate::pick;

/// The place below a length that a word picks; none where the length is 0.
#[tactic(auto, unfolding(crate::specs::Picks::picked_place))]
pub fn picked_place(word: u32, len: usize) -> Option<usize>
    requires { len < 2 ^ 32 }
    ensures place { result ≡ picked_place word len }
    ensures below { IfSome result (λ place. place < len) }
{
    if len == 0 {
        None
    } else {
        Some(pick(word, len as u32) as usize)
    }
}

/// The member of a list that a word picks; none of an empty list.
#[tactic(auto, unfolding(crate::specs::Picks::picked))]
pub fn picked<T>(word: u32, items: &[T]) -> Option<&T>
    requires { length items.now < 2 ^ 32 }
    ensures { option_copied result ≡ picked word items.now }
{
    let place = picked_place(word, items.len())?;
    items.get(place)
}
