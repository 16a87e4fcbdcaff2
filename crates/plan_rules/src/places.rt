ghost use Rattle.std.specs.Prelude.{◌≡◌, ◌==◌, ◌≤◌, ◌<◌, ℕ, Some, length, OnOk, OnErr, Err, if◌then◌else◌};
ghost use Rattle.plan_rules.specs.Places.{place_of};

use crate::fault::{ClosureKind, RuleFault};
use plan_facts::List;
use std::alloc::Global;
use std::marker::Model;

/// The numbers of the closures that were handed in, kind by kind.
pub struct Numbers {
    pub tests: Places,
    pub keys: Places,
    pub weighs: Places,
}

// Written out, so that its owners let go of it by one call.
impl Drop for Numbers {
    fn drop(self) {
        let Numbers {
            tests,
            keys,
            weighs,
        } = self;
        drop(tests);
        drop(keys);
        drop(weighs);
    }
}

/// The numbers of the closures of one kind, each once, in the order in which they were handed in.
pub struct Places {
    numbers: List<u16>,
    // at each number the place at which it stands
    table: List<Option<usize>>,
}

// Written out, so that its owners let go of it by one call.
impl Drop for Places {
    fn drop(self) {
        let Places { numbers, table } = self;
        drop(numbers);
        drop(table);
    }
}

impl Model for Places {
    ghost use Rattle.std.specs.Prelude.{List, ℕ};
    ghost use Rattle.plan_rules.specs.Places.{ArePlaces};

    ghost Value = { List ℕ };

    ghost view = { λ s. s.numbers };

    ghost invariant = { λ s. ArePlaces s.numbers s.table };
}

impl Places {
    ghost use Rattle.std.specs.Prelude.{◌≡◌, ◌==◌, ◌∷◌, ◌++◌, [], ℕ, None, OnOk, IfOk, IfErr, position};
    ghost use Rattle.plan_facts.specs.Refusal.{IsRefusal};
    ghost use Rattle.plan_rules.specs.Faults.{number_fault, double_closure};

    /// The numbers with their places, or the first one that stands earlier too.
    pub(crate) fn of(alloc: Global, kind: ClosureKind, numbers: &[u16]) -> Result<Places, RuleFault>
        ensures ok { IfOk result (λ places. places ≡ numbers.now) }
        ensures distinct { OnOk result (double_closure kind numbers.now ≡ None) }
        ensures err { IfErr result (IsRefusal RuleFault.Memory (double_closure kind numbers.now)) }
    {
        let mut places = Places::new(alloc);
        for number in numbers {
            places.enter(kind, *number)?;
        }
        Ok(places)
    }

    fn new(alloc: Global) -> Places
        ensures { result ≡ [] }
    {
        Places {
            numbers: List::new(alloc),
            table: List::new(alloc),
        }
    }

    /// The place of the number, from 0; none where it isn't there.
    pub fn place(&self, number: u16) -> Option<usize>
        ensures { result ≡ position (λ n. n == number) self.now }
    {
        match self.table.get(number as usize) {
            Some(place) => *place,
            None => None,
        }
    }

    /// Appends a number. It is refused where it is there already.
    fn enter(&mut self, kind: ClosureKind, number: u16) -> Result<(), RuleFault>
        ensures ok { OnOk result (self.new ≡ self.old ++ number ∷ []) }
        ensures new { OnOk result (number_fault kind self.old number ≡ None) }
        ensures err { IfErr result (IsRefusal RuleFault.Memory (number_fault kind self.old number)) }
    {
        if self.place(number).is_some() {
            return Err(RuleFault::DoubleClosure { kind, number });
        }
        let place = self.numbers.len();
        grow(&mut self.table, number as usize + 1)?;
        self.numbers.push(number)?;
        put(&mut self.table, number as usize, place);
        Ok(())
    }
}

/// Lengthens the table to `len` entries, the new ones empty.
fn grow(table: &mut List<Option<usize>>, len: usize) -> Result<(), RuleFault>
    ensures kept { (n : ℕ) → place_of table.new n ≡ place_of table.old n }
    ensures ok { OnOk result (len ≤ length table.new) }
    ensures err { OnErr result (result ≡ Err RuleFault.Memory) }
{
    for _ in table.len()..len {
        table.push(None)?;
    }
    Ok(())
}

/// Writes down the place of a number.
fn put(table: &mut List<Option<usize>>, number: usize, place: usize)
    requires { number < length table.old }
    ensures { (n : ℕ) → place_of table.new n ≡ (if number == n then Some place else place_of table.old n) }
{
    table.as_mut_slice()[number] = Some(place);
}
