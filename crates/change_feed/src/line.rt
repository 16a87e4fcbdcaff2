ghost use Rattle.std.specs.Prelude.{◌≡◌, IfOk};
ghost use Rattle.serde_json.specs.View.{view};
ghost use Rattle.change_feed.specs.Bodies.{deed_body, value_body, body_of};

use crate::change::change_of;
use crate::deeds::deed_of;
use crate::flaws::deed_flaw;
use json_values::{ReadFault, read_value};
use plan_changes::{Body, Deed, LineFault, Spot};
use plan_facts::Memory;
use serde_json::Value;
use std::alloc::Global;

/// A line of the deed: the first thing that is wrong with it, or else the change.
fn deed_body(alloc: Global, deed: Deed, line: &Value) -> Result<Body, Memory>
    ensures { IfOk result (λ body. body ≡ deed_body deed (view line.now)) }
{
    match deed_flaw(deed, line) {
        Some(spot) => Ok(Body::Bad(LineFault::Syntax(spot))),
        None => Ok(Body::Do(change_of(alloc, deed, line)?)),
    }
}

/// A line that is JSON.
fn value_body(alloc: Global, line: &Value) -> Result<Body, Memory>
    ensures { IfOk result (λ body. body ≡ value_body (view line.now)) }
{
    if !line.is_object() {
        return Ok(Body::Bad(LineFault::Syntax(Spot::Object)));
    }
    match deed_of(line) {
        Some(deed) => deed_body(alloc, deed, line),
        None => Ok(Body::Bad(LineFault::Syntax(Spot::Do))),
    }
}

/// What a line that isn't too long is: a change, or the first fault of the line. It isn't JSON; it is no object; its member `do`
/// is missing or none of the five; then by the deed: no text for `class`, no id from 1 to 10^9 for `id`, no object of whole
/// numbers and texts for `fields`, no object of nulls and ids for `values`, no text for `rule`, no whole number from 0 to
/// 1,000,000 for `weight`, each where the deed has the member; last, a member that the deed hasn't.
pub fn body_of(alloc: Global, line: &[u8]) -> Result<Body, Memory>
    ensures { IfOk result (λ body. body ≡ body_of line.now) }
{
    match read_value(alloc, line) {
        Ok(value) => value_body(alloc, &value),
        Err(ReadFault::Json) => Ok(Body::Bad(LineFault::Syntax(Spot::Json))),
        Err(ReadFault::Memory) => Err(Memory),
    }
}
