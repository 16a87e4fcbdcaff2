ghost use Rattle.std.specs.Prelude.{◌≡◌, ◌≤◌, ◌<◌, ℕ, Bool, List, length, zip};
ghost use Rattle.std.specs.Result.{result_err};
ghost use Rattle.plan_facts.specs.Plan.{is_value_among};
ghost use Rattle.plan_facts.specs.PlanFaults.{fields_fault, values_fault, is_field_number};

use crate::fault::PlanFault;

/// The greatest number that a field holds, and with a minus sign the least.
pub const FIELD_LIMIT: i64 = 1_000_000_000;

/// How many facts may ever be made.
pub const FACT_LIMIT: u32 = 100_000;

/// The greatest id that a record may be given.
pub const ID_LIMIT: u32 = 1_000_000_000;

/// Knows which facts are live.
pub trait LiveFacts {
    ghost live: { Self → ℕ → ℕ → Bool };

    /// Whether the class has a live fact with this id.
    fn is_live(&self, class: u8, id: u32) -> bool
        ensures { result ≡ live self.now class id };
}

/// Whether a field may hold this number.
pub fn is_field_number(number: i64) -> bool
    ensures { result ≡ is_field_number number }
{
    -FIELD_LIMIT <= number && number <= FIELD_LIMIT
}

/// The first fault of a record's fields, of which there must be `count`.
pub fn check_fields(class: u8, id: u32, count: usize, fields: &[i64]) -> Result<(), PlanFault>
    requires { count ≤ 16 }
    ensures { result_err result ≡ fields_fault class id count fields.now }
{
    if fields.len() != count {
        return Err(PlanFault::FieldCount { class, id });
    }
    for place in 0..fields.len() {
        if !is_field_number(fields[place]) {
            let field = place as u8;
            return Err(PlanFault::FieldRange { class, id, field });
        }
    }
    Ok(())
}

/// Whether a variable may hold this value.
fn is_value<L: LiveFacts>(facts: &L, range: u8, value: Option<u32>) -> bool
    ensures { result ≡ is_value_among (L.live facts.now) range value }
{
    match value {
        Some(id) => facts.is_live(range, id),
        None => true,
    }
}

/// The first fault of a record's values, whose variables have these value classes.
pub fn check_values<L: LiveFacts>(
    facts: &L,
    class: u8,
    id: u32,
    ranges: &[u8],
    values: &[Option<u32>],
) -> Result<(), PlanFault>
    requires { length ranges.now ≤ 2 }
    ensures { result_err result ≡ values_fault (L.live facts.now) class id ranges.now values.now }
{
    for place in 0..ranges.len().min(values.len()) {
        if !is_value(facts, ranges[place], values[place]) {
            let var = place as u8;
            return Err(PlanFault::BadValue { class, id, var });
        }
    }
    if values.len() != ranges.len() {
        let var = ranges.len() as u8;
        return Err(PlanFault::BadValue { class, id, var });
    }
    Ok(())
}
