ghost use Rattle.std.specs.Prelude.{◌≡◌, IfOk};
ghost use Rattle.serde_json.specs.View.{view};
ghost use Rattle.change_feed.specs.Changes.{change_of};

use crate::items::{fields_of, values_of};
use crate::members::{number_in, text_in};
use plan_changes::{Change, Deed, WEIGHT_LIMIT};
use plan_facts::{ID_LIMIT, Memory, Text};
use serde_json::Value;
use std::alloc::Global;

/// The change that a line of the deed is, where nothing is wrong with it.
pub fn change_of(alloc: Global, deed: Deed, line: &Value) -> Result<Change, Memory>
    ensures { IfOk result (λ change. change ≡ change_of deed (view line.now)) }
{
    let class = Text::from_slice(alloc, text_in(line, b"class"))?;
    let rule = Text::from_slice(alloc, text_in(line, b"rule"))?;
    let fields = fields_of(alloc, line)?;
    let values = values_of(alloc, line)?;
    Ok(Change {
        deed,
        class,
        id: number_in(line, b"id", 1, ID_LIMIT),
        fields,
        values,
        rule,
        weight: number_in(line, b"weight", 0, WEIGHT_LIMIT),
    })
}
