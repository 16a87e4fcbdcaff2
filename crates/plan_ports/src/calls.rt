// The calls of a source, a sink or a shelf in memory, and which of them fail.
ghost use Rattle.std.specs.Prelude.{◌≡◌, ◌==◌};
ghost use Rattle.std.specs.List.{list_any};
ghost use Rattle.plan_ports.specs.InMemory.{CallsView, fresh_calls, fails_next, after_call, after_fault};

use std::marker::Model;

#[derive(Drop)]
pub struct Calls {
    fail: Vec<u32>,
    made: u64,
    faults: u64,
}

impl Model for Calls {
    ghost Value = { CallsView };

    ghost view = { λ c. record { fail = c.fail.items; made = c.made; faults = c.faults } };
}

impl Calls {
    pub fn new(fail: Vec<u32>) -> Calls
        ensures { result ≡ fresh_calls fail.items }
    {
        Calls {
            fail,
            made: 0,
            faults: 0,
        }
    }

    // How many faults were counted.
    pub fn faults(&self) -> u64
        ensures { result ≡ self.now.faults }
    {
        self.faults
    }

    // Counts a call, and says whether it fails.
    pub fn next_fails(&mut self) -> bool
        ensures answer { result ≡ fails_next self.old }
        ensures after { self.new ≡ after_call self.old }
    {
        let fails = is_listed(&self.fail, self.made);
        self.made = self.made.saturating_add(1);
        if fails {
            self.faults = self.faults.saturating_add(1);
        }
        fails
    }

    // Counts a fault.
    pub fn note_fault(&mut self)
        ensures { self.new ≡ after_fault self.old }
    {
        self.faults = self.faults.saturating_add(1);
    }
}

// Whether the list has this number.
fn is_listed(numbers: &[u32], number: u64) -> bool
    ensures { result ≡ list_any (λ n. n == number) numbers.now }
{
    numbers.iter().any(|n| u64::from(*n) == number)
}
