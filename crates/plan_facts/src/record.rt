ghost use Rattle.std.specs.Prelude.{◌≡◌, ◌↔◌, IfOk, IsTrue};

use crate::list::List;
use crate::memory::Memory;
use crate::text::Text;
use std::alloc::Global;

/// What a field holds: a whole number, or the number of a name.
#[derive(Clone, Copy, Debug, Drop, PartialEq, Eq)]
pub enum Kind {
    Number,
    Name,
}

/// A field of a class.
#[derive(Drop)]
pub struct FieldDef {
    pub name: Text,
    pub kind: Kind,
}

/// A planning variable of a class; its range is the facts of the class with number `values`. A nullable one may stay
/// null and then counts as initialised.
#[derive(Drop)]
pub struct VarDef {
    pub name: Text,
    pub values: u8,
    pub nullable: bool,
}

/// A class of facts; one with planning variables is an entity class.
#[derive(Drop)]
pub struct ClassDef {
    pub name: Text,
    pub fields: List<FieldDef>,
    pub vars: List<VarDef>,
}

/// A fact as the value of a planning variable: its id and fields.
#[derive(Drop)]
pub struct Value {
    pub id: u32,
    pub fields: List<i64>,
}

/// A resolved record: a fact with, for each of its variables, null or the whole value.
#[derive(Drop)]
pub struct Rec {
    pub class: u8,
    pub id: u32,
    pub fields: List<i64>,
    pub planned: List<Option<Value>>,
}

/// A record as it is kept: for each variable null or the id of its value. The solver leaves a pinned one as it is.
#[derive(Drop)]
pub struct Raw {
    pub id: u32,
    pub fields: List<i64>,
    pub values: List<Option<u32>>,
    pub pinned: bool,
}

/// A copy of a list of values.
pub fn copy_planned(
    alloc: Global,
    from: &List<Option<Value>>,
) -> Result<List<Option<Value>>, Memory>
    ensures { IfOk result (λ to. to ≡ from.now) }
{
    let mut to = List::new(alloc);
    for value in from.as_slice() {
        let value = match value {
            Some(value) => Some(value.copy(alloc)?),
            None => None,
        };
        to.push(value)?;
    }
    Ok(to)
}

/// Whether two lists of numbers are the same.
pub fn same_numbers(one: &List<i64>, other: &List<i64>) -> bool
    ensures { IsTrue result ↔ (one.now ≡ other.now) }
{
    one.as_slice() == other.as_slice()
}

/// Whether two values, or nulls, are the same.
fn same_value(one: &Option<Value>, other: &Option<Value>) -> bool
    ensures { IsTrue result ↔ (one.now ≡ other.now) }
{
    match (one, other) {
        (Some(one), Some(other)) => one.same(other),
        (None, None) => true,
        _ => false,
    }
}

/// Whether two lists of values are the same.
pub fn same_planned(one: &List<Option<Value>>, other: &List<Option<Value>>) -> bool
    ensures { IsTrue result ↔ (one.now ≡ other.now) }
{
    let one = one.as_slice();
    let other = other.as_slice();
    if one.len() != other.len() {
        return false;
    }
    for place in 0..one.len() {
        if !same_value(&one[place], &other[place]) {
            return false;
        }
    }
    true
}

impl Value {
    /// A copy of the value.
    pub fn copy(&self, alloc: Global) -> Result<Value, Memory>
        ensures { IfOk result (λ copy. copy ≡ self.now) }
    {
        Ok(Value {
            id: self.id,
            fields: self.fields.copy(alloc)?,
        })
    }

    /// Whether the two have one id and the same fields.
    pub fn same(&self, other: &Value) -> bool
        ensures { IsTrue result ↔ (self.now ≡ other.now) }
    {
        self.id == other.id && same_numbers(&self.fields, &other.fields)
    }
}

impl Rec {
    /// A copy of the record.
    pub fn copy(&self, alloc: Global) -> Result<Rec, Memory>
        ensures { IfOk result (λ copy. copy ≡ self.now) }
    {
        Ok(Rec {
            class: self.class,
            id: self.id,
            fields: self.fields.copy(alloc)?,
            planned: copy_planned(alloc, &self.planned)?,
        })
    }

    /// Whether the two are the same in every part.
    pub fn same(&self, other: &Rec) -> bool
        ensures { IsTrue result ↔ (self.now ≡ other.now) }
    {
        self.class == other.class
            && self.id == other.id
            && same_numbers(&self.fields, &other.fields)
            && same_planned(&self.planned, &other.planned)
    }
}

impl Raw {
    /// A copy of the record.
    pub fn copy(&self, alloc: Global) -> Result<Raw, Memory>
        ensures { IfOk result (λ copy. copy ≡ self.now) }
    {
        Ok(Raw {
            id: self.id,
            fields: self.fields.copy(alloc)?,
            values: self.values.copy(alloc)?,
            pinned: self.pinned,
        })
    }
}
