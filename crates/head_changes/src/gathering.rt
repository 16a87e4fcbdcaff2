//! The records that go and come when a plan has turned.
ghost use Rattle.std.specs.Prelude.{◌≡◌, ◌<◌, ◌↔◌, All, IsTrue, OnOk, length};
ghost use Rattle.stream_heads.specs.Standing.{KeepsBase};
ghost use Rattle.head_changes.specs.Changes.{IsNoChange, all_come};
ghost use Rattle.head_changes.specs.Gathered.{Gathers};
ghost use Rattle.head_changes.specs.Takers.{heads_without};
ghost use Rattle.head_changes.specs.Turns.{Enters, IsSame, Leaves, TakesBack, Turns, TurnsByPlan, TurnsClass};

use crate::changes::{ClassChange, clear};
use crate::turn::{enter, is_record, leave, place_of};
use plan_facts::{Memory, Plan, Rec};
use plan_moves::Touch;
use stream_heads::Heads;

/// Whether the record stands at the place, where there are both.
fn is_same(heads: &Heads, place: Option<u64>, rec: &Option<Rec>) -> bool
    ensures { IsTrue result ↔ IsSame heads.now.now place rec.now }
{
    match (place, rec) {
        (Some(place), Some(rec)) => is_record(heads, place, rec),
        _ => false,
    }
}

/// The record at a place goes, if there is one.
fn leave_from(heads: &Heads, change: &mut ClassChange, place: Option<u64>) -> Result<(), Memory>
    ensures ok { OnOk result (Leaves heads.now.now change.old change.new place) }
    ensures come { change.new.all.come.items ≡ change.old.all.come.items }
{
    match place {
        Some(place) => leave(heads, change, place),
        None => Ok(()),
    }
}

/// A record comes, if there is one.
fn enter_if(heads: &mut Heads, change: &mut ClassChange, rec: Option<Rec>) -> Result<(), Memory>
    ensures ok { OnOk result (Enters heads.old.now heads.new.now change.old change.new rec) }
    ensures back { TakesBack heads.old.now heads.new.now change.old.all.come.items change.new.all.come.items }
    ensures base { KeepsBase heads.old heads.new }
{
    match rec {
        Some(rec) => enter(heads, change, rec),
        None => Ok(()),
    }
}

/// The record at a place goes, and another one comes, as far as there are such.
fn turn(
    heads: &mut Heads,
    change: &mut ClassChange,
    place: Option<u64>,
    rec: Option<Rec>,
) -> Result<(), Memory>
    ensures ok { OnOk result (Turns heads.old.now heads.new.now change.old change.new place rec) }
    ensures back { TakesBack heads.old.now heads.new.now change.old.all.come.items change.new.all.come.items }
    ensures base { KeepsBase heads.old heads.new }
{
    leave_from(heads, change, place)?;
    enter_if(heads, change, rec)?;
    Ok(())
}

/// The same for the change of one class.
fn turn_class(
    heads: &mut Heads,
    changes: &mut [ClassChange],
    class: u8,
    place: Option<u64>,
    rec: Option<Rec>,
) -> Result<(), Memory>
    requires { class < length changes.old }
    ensures ok { OnOk result (TurnsClass heads.old.now heads.new.now changes.old changes.new class place rec) }
    ensures back { TakesBack heads.old.now heads.new.now (all_come changes.old) (all_come changes.new) }
    ensures classes { length changes.new ≡ length changes.old }
    ensures base { KeepsBase heads.old heads.new }
{
    let change = &mut changes[class as usize];
    turn(heads, change, place, rec)?;
    Ok(())
}

/// What goes and comes at one key.
fn gather_one(
    heads: &mut Heads,
    plan: &Plan,
    key: &Touch,
    changes: &mut [ClassChange],
) -> Result<(), Memory>
    requires { key.now.class < length changes.old }
    ensures ok { OnOk result (TurnsByPlan heads.old.now heads.new.now changes.old changes.new key.now plan.now) }
    ensures back { TakesBack heads.old.now heads.new.now (all_come changes.old) (all_come changes.new) }
    ensures classes { length changes.new ≡ length changes.old }
    ensures base { KeepsBase heads.old heads.new }
{
    let place = place_of(heads, *key);
    let rec = heads.resolved(plan, key.class, key.id)?;
    if is_same(heads, place, &rec) {
        return Ok(());
    }
    turn_class(heads, changes, key.class, place, rec)?;
    Ok(())
}

/// What goes and comes at each of these keys, where nothing went and came before.
fn gather_each(
    heads: &mut Heads,
    plan: &Plan,
    keys: &[Touch],
    changes: &mut [ClassChange],
) -> Result<(), Memory>
    requires classes { All (λ (key : Touch). key.class < length changes.old) keys.now }
    requires none { All IsNoChange changes.old }
    ensures gathered { OnOk result (Gathers heads.old.now heads.new.now changes.new keys.now plan.now) }
    ensures back { heads_without (all_come changes.new) heads.new.now ≡ heads.old.now }
    ensures classes { length changes.new ≡ length changes.old }
    ensures base { KeepsBase heads.old heads.new }
{
    for key in keys {
        gather_one(heads, plan, key, changes)?;
    }
    Ok(())
}

/// Gathers what a plan's change is for the records, where the plan has turned at these keys alone: the record
/// that the heads hold at a key goes, and the plan's record comes under a new place, if there are such and they
/// aren't the same one. Those that went stay in the heads till [`let_gone_go`](crate::let_gone_go); what came is
/// taken back by [`let_come_go`](crate::let_come_go), after `Memory` too. What the changes held before is forgotten.
pub fn gather(
    heads: &mut Heads,
    plan: &Plan,
    keys: &[Touch],
    changes: &mut [ClassChange],
) -> Result<(), Memory>
    requires { All (λ (key : Touch). key.class < length changes.old) keys.now }
    ensures gathered { OnOk result (Gathers heads.old.now heads.new.now changes.new keys.now plan.now) }
    ensures back { heads_without (all_come changes.new) heads.new.now ≡ heads.old.now }
    ensures classes { length changes.new ≡ length changes.old }
    ensures base { KeepsBase heads.old heads.new }
{
    clear(changes);
    gather_each(heads, plan, keys, changes)?;
    Ok(())
}
