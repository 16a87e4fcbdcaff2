ghost use Rattle.std.specs.Prelude.{◌≡◌, ◌==◌};
ghost use Rattle.std.specs.List.{list_any};
ghost use Rattle.std.specs.Result.{result_err};
ghost use Rattle.plan_rules.specs.Faults.{harders_fault, has_entities, is_bad_harder};
ghost use Rattle.plan_rules.specs.Harder.{harder_key};

use crate::fault::{ClosureKind, RuleFault};
use crate::missing::is_handed_in;
use crate::places::Numbers;
use crate::rule::{Harder, Named};
use plan_facts::Schema;

/// The first fault of harder keys over the schema and these closures.
pub fn check_harder(schema: &Schema, numbers: &Numbers, harders: &[Harder]) -> Result<(), RuleFault>
    ensures { result_err result ≡ harders_fault schema.now numbers.now harders.now }
{
    for place in 0..harders.len() {
        let harder = harders[place];
        if is_bad_harder(schema, numbers, &harders[..place], harder) {
            return Err(RuleFault::BadHarder {
                class: harder.class,
            });
        }
    }
    Ok(())
}

/// Whether the class has no entities or is that of an earlier harder key, or the key wasn't handed in.
fn is_bad_harder(schema: &Schema, numbers: &Numbers, earlier: &[Harder], harder: Harder) -> bool
    ensures { result ≡ is_bad_harder schema.now numbers.now earlier.now harder }
{
    let key = Named {
        kind: ClosureKind::Key,
        number: harder.key,
    };
    !has_entities(schema, harder.class)
        || is_taken(earlier, harder.class)
        || !is_handed_in(numbers, key)
}

/// Whether one of these is of the class.
fn is_taken(earlier: &[Harder], class: u8) -> bool
    ensures { result ≡ list_any (λ other. other.class == class) earlier.now }
{
    earlier.iter().any(|other| other.class == class)
}

/// Whether the class is there and has planning variables.
fn has_entities(schema: &Schema, class: u8) -> bool
    ensures { result ≡ has_entities schema.now class }
{
    match schema.class(class) {
        Some(class) => class.vars.len() > 0,
        None => false,
    }
}

/// The number of the class's harder key; none where no member names the class.
pub fn harder_key(harders: &[Harder], class: u8) -> Option<u16>
    ensures { result ≡ harder_key harders.now class }
{
    for harder in harders {
        if harder.class == class {
            return Some(harder.key);
        }
    }
    None
}
