ghost use Rattle.std.specs.Prelude.{◌≡◌, IfOk, OnOk, map};
ghost use Rattle.plan_rules.specs.Groups.{group_key, key_entered};
ghost use Rattle.plan_recalc.specs.Groups.{keys_entered};
ghost use Rattle.plan_recalc.specs.HandedIn.{AreKeysHandedIn};

use plan_facts::{List, Memory};
use plan_rules::{Book, Kept, Row, Rules, Steps};
use std::alloc::Global;
use std::cmp::Ordering;
use std::sync::ledger::Ledger;

/// The number of each key of the row.
fn group_key<B: Book, L: Ledger>(
    alloc: Global,
    rules: &Rules<B>,
    keys: &[u16],
    row: &Row,
    steps: &mut Steps<L>,
) -> Result<List<i64>, Memory>
    requires keeps { ⟦<Rules<B> as Kept>⟧.keeps rules.now }
    requires there { AreKeysHandedIn rules.now.numbers keys.now }
    ensures { IfOk result (λ numbers. numbers ≡ group_key B.meaning keys.now row.now) }
{
    let mut numbers = List::new(alloc);
    for key in keys {
        numbers.push(rules.key_of(*key, row, steps))?;
    }
    Ok(numbers)
}

/// The group key of each row.
pub fn group_keys<B: Book, L: Ledger>(
    alloc: Global,
    rules: &Rules<B>,
    keys: &[u16],
    rows: &[Row],
    steps: &mut Steps<L>,
) -> Result<List<List<i64>>, Memory>
    requires keeps { ⟦<Rules<B> as Kept>⟧.keeps rules.now }
    requires there { AreKeysHandedIn rules.now.numbers keys.now }
    ensures { IfOk result (λ row_keys. row_keys ≡ map (group_key B.meaning keys.now) rows.now) }
{
    let mut row_keys = List::new(alloc);
    for row in rows {
        row_keys.push(group_key(alloc, rules, keys, row, steps)?)?;
    }
    Ok(row_keys)
}

/// The keys, each once, increasing.
pub fn different_keys(alloc: Global, row_keys: &[List<i64>]) -> Result<Vec<List<i64>>, Memory>
    ensures { IfOk result (λ keys. keys.items ≡ keys_entered row_keys.now) }
{
    let mut keys = Vec::new(alloc);
    let mut place = row_keys.len();
    while place > 0 {
        place -= 1;
        enter_key(&mut keys, row_keys[place].copy(alloc)?)?;
    }
    Ok(keys)
}

/// Enters a key in its order, where it isn't there yet.
fn enter_key(keys: &mut Vec<List<i64>>, key: List<i64>) -> Result<(), Memory>
    ensures { OnOk result (keys.new.items ≡ key_entered key keys.old.items) }
{
    for place in 0..keys.len() {
        match key.as_slice().cmp(keys[place].as_slice()) {
            Ordering::Less => {
                keys.insert(place, key)?;
                return Ok(());
            }
            Ordering::Equal => return Ok(()),
            Ordering::Greater => {}
        }
    }
    keys.push(key)?;
    Ok(())
}
