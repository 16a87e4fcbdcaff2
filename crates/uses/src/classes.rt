ghost use Rattle.std.specs.Prelude.{◌≡◌, IfOk};
ghost use Rattle.uses.specs.Classes.{party_class, restaurant_classes, table_class};

use domain_words::{Variable, class};
use plan_facts::{ClassDef, Kind, List, Memory, Schema};
use std::alloc::Global;

/// The number of each class: its place among them.
pub(crate) const TABLE: u8 = 0;

pub(crate) const PARTY: u8 = 1;

/// The classes of a restaurant: tables, and parties that get one.
pub fn schema(alloc: Global) -> Result<Schema, Memory>
    ensures { IfOk result (λ schema. schema ≡ restaurant_classes) }
{
    match Schema::build(classes(alloc)?) {
        Ok(schema) => Ok(schema),
        Err(_) => unreachable!(),
    }
}

/// The classes in order.
fn classes(alloc: Global) -> Result<List<ClassDef>, Memory>
    ensures { IfOk result (λ classes. classes ≡ restaurant_classes) }
{
    let mut classes = List::new(alloc);
    classes.push(table(alloc)?)?;
    classes.push(party(alloc)?)?;
    Ok(classes)
}

/// A table: how many seats it has.
fn table(alloc: Global) -> Result<ClassDef, Memory>
    ensures { IfOk result (λ class. class ≡ table_class) }
{
    class(alloc, "table", &[("seats", Kind::Number)], &[])
}

/// A party: its host, how many guests come, and the table that is planned for them.
fn party(alloc: Global) -> Result<ClassDef, Memory>
    ensures { IfOk result (λ class. class ≡ party_class) }
{
    let fields = [("host", Kind::Name), ("guests", Kind::Number)];
    let table = Variable {
        name: "table",
        values: TABLE,
        nullable: false,
    };
    class(alloc, "party", &fields, &[table])
}
