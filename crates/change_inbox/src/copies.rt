//! Copies of what a feed posts.

ghost use Rattle.std.specs.Prelude.{◌≡◌, IfOk};

use crate::entry::Kept;
use plan_changes::{Body, Change, FieldItem, Post, ValueItem};
use plan_facts::{List, Memory};
use std::alloc::Global;

/// A copy of what fields are given.
fn copy_of_fields(alloc: Global, items: &[FieldItem]) -> Result<List<FieldItem>, Memory>
    ensures { IfOk result (λ copy. copy ≡ items.now) }
{
    let mut copy = List::new(alloc);
    for given in items {
        copy.push(FieldItem {
            name: given.name.copy(alloc)?,
            item: given.item.copy(alloc)?,
        })?;
    }
    Ok(copy)
}

/// A copy of what variables are given.
fn copy_of_values(alloc: Global, items: &[ValueItem]) -> Result<List<ValueItem>, Memory>
    ensures { IfOk result (λ copy. copy ≡ items.now) }
{
    let mut copy = List::new(alloc);
    for given in items {
        copy.push(ValueItem {
            name: given.name.copy(alloc)?,
            value: given.value,
        })?;
    }
    Ok(copy)
}

/// A copy of the change.
fn copy_of_change(alloc: Global, change: &Change) -> Result<Change, Memory>
    ensures { IfOk result (λ copy. copy ≡ change.now) }
{
    let class = change.class.copy(alloc)?;
    let fields = copy_of_fields(alloc, change.fields.as_slice())?;
    let values = copy_of_values(alloc, change.values.as_slice())?;
    let rule = change.rule.copy(alloc)?;
    Ok(Change {
        deed: change.deed,
        class,
        id: change.id,
        fields,
        values,
        rule,
        weight: change.weight,
    })
}

/// A copy of the body.
fn copy_of_body(alloc: Global, body: &Body) -> Result<Body, Memory>
    ensures { IfOk result (λ copy. copy ≡ body.now) }
{
    match body {
        Body::Do(change) => Ok(Body::Do(copy_of_change(alloc, change)?)),
        Body::Bad(fault) => Ok(Body::Bad(*fault)),
        Body::Stop(cause) => Ok(Body::Stop(*cause)),
    }
}

impl Kept for Post {
    fn copy(&self, alloc: Global) -> Result<Post, Memory> {
        Ok(Post {
            line: self.line,
            body: copy_of_body(alloc, &self.body)?,
        })
    }
}
