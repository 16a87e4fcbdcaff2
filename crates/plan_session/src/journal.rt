ghost use Rattle.std.specs.Prelude.{◌≡◌, ◌++◌, OnOk};
ghost use Rattle.plan_ports.specs.Outside.{LaterSink};
ghost use Rattle.plan_session.specs.DueReplay.{journal_line};
ghost use Rattle.plan_session.specs.Ending.{Ended, Says};

use crate::outside::say;
use crate::status::Status;
use itoa::Buffer;
use plan_facts::Memory;
use plan_ports::Sink;
use std::alloc::Global;

/// Appends the line that says for which of its lines a journal is refused.
fn push_refusal(line: u32, text: &mut Vec<u8>) -> Result<(), Memory>
    ensures { OnOk result (text.new.items ≡ text.old.items ++ journal_line line) }
{
    text.extend_from_slice(b"refused journal ")?;
    text.extend_from_slice(Buffer::new().format(line).as_bytes())?;
    text.push(b'\n')?;
    Ok(())
}

/// Writes the line that says for which of its lines a journal is refused; 0 where it is too long.
pub fn refuse_journal<K: Sink>(alloc: Global, line: u32, out: &mut K) -> Status
    ensures ended { let is_due = Says Status.Journal (journal_line line) in
        Ended is_due (K.state out.old) (K.state out.new) result }
    ensures later { LaterSink (K.state out.old) (K.state out.new) }
{
    let mut text = Vec::new(alloc);
    match push_refusal(line, &mut text) {
        Ok(()) => say(out, Status::Journal, &text),
        Err(_) => Status::Memory,
    }
}
