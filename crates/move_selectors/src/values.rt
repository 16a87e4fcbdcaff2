ghost use Rattle.std.specs.Prelude.{◌≡◌, ◌<◌, length};
ghost use Rattle.plan_facts.specs.Plan.{class_of};
ghost use Rattle.plan_draws.specs.Picks.{picked};
ghost use Rattle.plan_moves.specs.Entities.{choices_of};
ghost use Rattle.move_selectors.specs.Choices.{choice_of};

use plan_draws::picked_place;
use plan_facts::Plan;
use plan_moves::{choice_at, choice_count};

/// A variable of a class, and what it is set to.
#[derive(Clone, Copy, Drop)]
pub struct Choice {
    pub var: u8,
    pub value: Option<u32>,
}

/// What a word picks of the choices of a variable; none where there is no choice.
#[tactic(auto, unfolding(plan_draws::specs::Picks::picked))]
fn picked_value(plan: &Plan, class: u8, var: u8, word: u32) -> Option<Option<u32>>
    requires { var < length (class_of plan.now class).ranges }
    ensures { result ≡ picked word (choices_of plan.now class var) }
{
    let place = picked_place(word, choice_count(plan, class, var))?;
    Some(choice_at(plan, class, var, place))
}

/// The variable of a class that one word picks, with the choice for it that the other picks; none where there is no
/// variable or no choice.
#[tactic(auto, unfolding(crate::specs::Choices::choice_of))]
pub fn picked_choice(plan: &Plan, class: u8, var_word: u32, value_word: u32) -> Option<Choice>
    ensures { result ≡ choice_of plan.now class var_word value_word }
{
    let var = picked_place(var_word, plan.ranges(class).len())? as u8;
    let value = picked_value(plan, class, var, value_word)?;
    Some(Choice { var, value })
}
