ghost use Rattle.std.specs.Prelude.{◌≡◌, IfOk};
ghost use Rattle.plan_changes.specs.Change.{is_name_before, is_after_fields, is_after_values};

use plan_facts::{List, Memory, Text};
use std::alloc::Global;
use std::marker::Model;

/// The greatest weight of a rule.
pub const WEIGHT_LIMIT: u32 = 1_000_000;

/// What a change gives a field: a whole number, or a name by its text.
#[derive(Debug, Drop)]
pub enum Item {
    Num(i64),
    Name(Text),
}

/// A field by its name, and what it is to hold.
#[derive(Debug, Drop)]
pub struct FieldItem {
    pub name: Text,
    pub item: Item,
}

/// A variable by its name, and null or the id of the value that it is to hold.
#[derive(Debug, Drop)]
pub struct ValueItem {
    pub name: Text,
    pub value: Option<u32>,
}

/// What a change does: it makes a fact, takes one out, sets fields of one, sets variables of one, or gives a rule another
/// weight.
#[derive(Clone, Copy, Debug, Drop, PartialEq, Eq)]
pub enum Deed {
    Add,
    Remove,
    Alter,
    Assign,
    Weight,
}

/// A change of a plan. The class is named where a fact is meant, with its id where it is there already (else 0); fields and
/// values stand in the byte order of their names, each name once. The rule is named and the weight given where a rule's
/// weight is meant, else they are empty and 0; the weight is at most a million.
#[derive(Drop)]
pub struct Change {
    pub deed: Deed,
    pub class: Text,
    pub id: u32,
    pub fields: List<FieldItem>,
    pub values: List<ValueItem>,
    pub rule: Text,
    pub weight: u32,
}

impl Model for Change {
    ghost use Rattle.plan_changes.specs.Change.{ChangeView, IsChange, view_of};

    ghost Value = { ChangeView };

    ghost view = { λ c. view_of c.deed c.class c.id c.fields c.values c.rule c.weight };

    ghost invariant = { λ c. IsChange c.fields c.values c.weight };
}

/// Whether one name comes before another in the order of bytes.
fn is_name_before(one: &Text, other: &Text) -> bool
    ensures { result ≡ is_name_before one.now other.now }
{
    one.as_slice().cmp(other.as_slice()).is_lt()
}

/// Whether a name comes after the last one of these items, or there is none.
fn is_after_fields(items: &[FieldItem], name: &Text) -> bool
    ensures { result ≡ is_after_fields items.now name.now }
{
    match items.last() {
        Some(last) => is_name_before(&last.name, name),
        None => true,
    }
}

/// Whether a name comes after the last one of these items, or there is none.
fn is_after_values(items: &[ValueItem], name: &Text) -> bool
    ensures { result ≡ is_after_values items.now name.now }
{
    match items.last() {
        Some(last) => is_name_before(&last.name, name),
        None => true,
    }
}

impl Change {
    ghost use Rattle.std.specs.Prelude.{◌≡◌, ◌++◌, ◌∷◌, [], IfOk, OnErr, if◌then◌else◌};
    ghost use Rattle.plan_changes.specs.Change.{view_of, is_after_fields, is_after_values, with_field, with_value};

    /// A change that has nothing but its deed.
    pub fn new(alloc: Global, deed: Deed) -> Change
        ensures { result ≡ view_of deed [] 0 [] [] [] 0 }
    {
        Change {
            deed,
            class: Text::new(alloc),
            id: 0,
            fields: List::new(alloc),
            values: List::new(alloc),
            rule: Text::new(alloc),
            weight: 0,
        }
    }

    /// Adds what a field gets, behind the others; false, with nothing added, exactly where its name doesn't come after theirs.
    pub fn give_field(&mut self, item: FieldItem) -> Result<bool, Memory>
        ensures given { IfOk result (λ given. given ≡ is_after_fields self.old.fields item.name) }
        ensures now { IfOk result (λ given. self.new ≡ (if given then with_field self.old item else self.old)) }
        ensures err { OnErr result (self.new ≡ self.old) }
    {
        if is_after_fields(self.fields.as_slice(), &item.name) {
            self.fields.push(item)?;
            Ok(true)
        } else {
            Ok(false)
        }
    }

    /// Adds what a variable gets, behind the others; false, with nothing added, exactly where its name doesn't come after
    /// theirs.
    pub fn give_value(&mut self, item: ValueItem) -> Result<bool, Memory>
        ensures given { IfOk result (λ given. given ≡ is_after_values self.old.values item.name) }
        ensures now { IfOk result (λ given. self.new ≡ (if given then with_value self.old item else self.old)) }
        ensures err { OnErr result (self.new ≡ self.old) }
    {
        if is_after_values(self.values.as_slice(), &item.name) {
            self.values.push(item)?;
            Ok(true)
        } else {
            Ok(false)
        }
    }
}

impl Item {
    /// A copy of the item.
    pub fn copy(&self, alloc: Global) -> Result<Item, Memory>
        ensures { IfOk result (λ copy. copy ≡ self.now) }
    {
        match self {
            Item::Num(number) => Ok(Item::Num(*number)),
            Item::Name(text) => Ok(Item::Name(text.copy(alloc)?)),
        }
    }
}
