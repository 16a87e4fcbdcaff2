ghost use Rattle.std.specs.Prelude.{◌≡◌, ◌+◌, ◌<◌, ◌≤◌, ◌||◌, ℕ, [], ◌∷◌, ◌++◌, IfSome, IfNone, OnOk, OnErr, nat_eq};
ghost use Rattle.tuple_store.specs.Log.{is_noted};

use crate::bits::{clear_bit, has_bit, set_bit, widen};
use std::alloc::{AllocError, Global};
use std::marker::Model;

/// The numbers that a trial touched, each once, with room for all numbers below a bound.
#[derive(Drop)]
pub struct Log {
    numbers: Vec<usize>,
    noted: Vec<u64>,
    room: usize,
}

impl Model for Log {
    ghost use Rattle.std.specs.Prelude.{vec_capacity, vec_len};
    ghost use Rattle.tuple_store.specs.Log.{LogView, IsLog};

    ghost Value = { LogView };

    ghost view = { λ s. record { numbers = s.numbers.items; room = s.room } };

    ghost invariant = { λ s. IsLog s.numbers.items (vec_len s.numbers) (vec_capacity s.numbers) s.noted.items s.room };
}

impl Log {
    /// No numbers, and room for none.
    pub fn new(alloc: Global) -> Log
        ensures { result ≡ record { numbers = []; room = 0 } }
    {
        Log {
            numbers: Vec::new(alloc),
            noted: Vec::new(alloc),
            room: 0,
        }
    }

    /// Makes room for all numbers up to `n`.
    pub fn make_room(&mut self, n: usize) -> Result<(), AllocError>
        ensures numbers { self.new.numbers ≡ self.old.numbers }
        ensures room { OnOk result (n < self.new.room) }
        ensures grows { self.old.room ≤ self.new.room }
        ensures err { OnErr result (self.new ≡ self.old) }
    {
        if n < self.room {
            return Ok(());
        }
        let Some(room) = n.checked_add(1) else {
            return Err(AllocError);
        };
        let missing = room - self.numbers.len();
        self.numbers.reserve(missing)?;
        widen(&mut self.noted, n)?;
        self.room = room;
        Ok(())
    }

    /// Notes a number that has room.
    pub fn note(&mut self, n: usize)
        requires { n < self.old.room }
        ensures noted { (q : ℕ) → is_noted self.new.numbers q ≡ (nat_eq q n || is_noted self.old.numbers q) }
        ensures room { self.new.room ≡ self.old.room }
    {
        if !has_bit(self.noted.as_slice(), n) {
            self.numbers.push_reserved(n);
            set_bit(&mut self.noted, n);
        }
    }

    /// Takes the last number out.
    pub fn pop(&mut self) -> Option<usize>
        ensures some { IfSome result (λ n. self.old.numbers ≡ self.new.numbers ++ n ∷ []) }
        ensures none { IfNone result (self.old.numbers ≡ []) }
        ensures same { IfNone result (self.new ≡ self.old) }
        ensures room { self.new.room ≡ self.old.room }
    {
        let n = self.numbers.pop()?;
        clear_bit(&mut self.noted, n);
        Some(n)
    }
}
