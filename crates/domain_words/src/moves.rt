ghost use Rattle.std.specs.Prelude.{◌≡◌, option_copied};
ghost use Rattle.domain_words.specs.Moves.{fact_picked, held, gives};

use plan_draws::picked;
use plan_facts::{Plan, Raw};
use plan_moves::Set;

/// The fact of a class that a word picks, of all in the order of their ids; none where there is none.
#[tactic(auto, using(crate::proofs::Bounds::few_in_class))]
pub fn fact_picked(plan: &Plan, class: u8, word: u32) -> Option<&Raw>
    ensures { option_copied result ≡ fact_picked plan.now class word }
{
    picked(word, plan.facts(class))
}

/// What a variable of a fact holds: the id of a value, or null.
fn held(raw: &Raw, var: u8) -> Option<u32>
    ensures { result ≡ held raw.now var }
{
    raw.values.get(var as usize).copied().flatten()
}

/// The set that gives a variable of one fact what the same variable of another one holds.
pub fn gives(class: u8, var: u8, to: &Raw, from: &Raw) -> Set
    ensures { result ≡ gives class var to.now from.now }
{
    Set {
        class,
        id: to.id,
        var,
        value: held(from, var),
    }
}
