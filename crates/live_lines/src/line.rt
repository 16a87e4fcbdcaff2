//! The lines that say what became of the lines of a feed.

ghost use Rattle.std.specs.Prelude.{◌≡◌, ◌≢◌, IfOk, OnOk};
ghost use Rattle.live_lines.specs.Taking.{applied_line, fault_of};

use plan_changes::{ChangeFault, LineFault, Ready};
use plan_facts::Memory;
use plan_reports::Line;

/// The fault of a line that is no change.
pub fn fault_of(fault: LineFault) -> ChangeFault
    ensures { result ≡ fault_of fault }
{
    match fault {
        LineFault::Syntax(spot) => ChangeFault::Syntax(spot),
        LineFault::LongLine => ChangeFault::LongLine,
    }
}

/// The line that says that a change was made: the number of its line in the feed, the boundary, and its rule or its fact.
pub fn applied_line(ready: &Ready, number: u32, boundary: u32) -> Line
    ensures { result ≡ applied_line number boundary ready.now }
{
    match ready.rule() {
        Some(rule) => Line::AppliedRule {
            line: number,
            boundary,
            rule,
        },
        None => Line::Applied {
            line: number,
            boundary,
            class: ready.class(),
            id: ready.id(),
        },
    }
}

/// The line that says that a change was refused: the number of its line in the feed, the boundary, and its fault, of which
/// want of memory is none.
pub fn refused_line(fault: ChangeFault, number: u32, boundary: u32) -> Result<Line, Memory>
    ensures fault { OnOk result (fault ≢ ChangeFault.Memory) }
    ensures line { IfOk result (λ told. told ≡ Line.Refused number boundary fault) }
{
    match fault {
        ChangeFault::Memory => Err(Memory),
        _ => Ok(Line::Refused {
            line: number,
            boundary,
            fault,
        }),
    }
}
