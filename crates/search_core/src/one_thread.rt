ghost use Rattle.std.specs.Prelude.{◌≡◌, IfOk, OnOk};
ghost use Rattle.std.specs.Result.{ForErr};
ghost use Rattle.search_core.specs.Keeps.{GoesOn, HasNoFault, HasRoomFor};
ghost use Rattle.search_core.specs.OneThread.{DecidesAt, JudgesAt, RepliesAsDesk, StandsDecided, StandsWithFound};

use crate::event::{CoreFault, Event, Reply};
use crate::machine::Core;
use plan_facts::Memory;
use plan_search::Found;

/// The reply to an event that only want of memory can keep from being taken.
fn taken(answer: Result<Reply, CoreFault>) -> Result<Reply, Memory>
    requires { ForErr answer (λ fault. fault ≡ CoreFault.Memory) }
    ensures { IfOk result (λ reply. answer ≡ Ok reply) }
{
    match answer {
        Ok(reply) => Ok(reply),
        Err(CoreFault::Memory) => Err(Memory),
        Err(_) => unreachable!(),
    }
}

/// Takes an event that has no fault, so that only want of memory can keep it from being taken.
pub fn take(core: &mut Core, event: Event) -> Result<Reply, Memory>
    requires room { HasRoomFor core.old event }
    requires no_fault { HasNoFault core.old event }
    ensures { IfOk result (λ reply. GoesOn core.old event reply core.new) }
{
    let reply = taken(core.on(event))?;
    Ok(reply)
}

/// Tells the core what one thread, which judges the numbers of a step in order, found of the next one.
pub fn record_found(
    core: &mut Core,
    step: u32,
    number: u32,
    found: Option<Found>,
) -> Result<(), Memory>
    requires { JudgesAt core.old step number }
    ensures { OnOk result (StandsWithFound core.old step number found core.new) }
{
    let _ = step;
    core.note_found(number, found)?;
    Ok(())
}

/// Lets the core decide a step of which all asked numbers are judged: it chooses, or asks more.
pub fn decide(core: &mut Core, step: u32) -> Result<Reply, Memory>
    requires { DecidesAt core.old step }
    ensures reply { IfOk result (RepliesAsDesk core.old step) }
    ensures stands { OnOk result (StandsDecided core.old step core.new) }
{
    let reply = take(core, Event::Choose { step })?;
    Ok(reply)
}
