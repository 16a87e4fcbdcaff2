ghost use Rattle.std.specs.Prelude.{◌≡◌, ℕ, ◌<◌, ◌≤◌, true, [], None, Some, IfSome, IfNone, IfOk, OnErr, is_some, option_copied};
ghost use Rattle.slab.specs.Slab.{get, Updates};
ghost use Rattle.tuple_store.specs.Numbers.{is_above};
ghost use Rattle.tuple_store.specs.Rows.{is_now, live_at, mark_in, remarked};

use crate::bits::{clear_bit, first_bit, set_bit, widen};
use crate::held::{Held, Mark};
use slab::Slab;
use std::alloc::{AllocError, Global};
use std::marker::Model;

/// Marked rows in slots, of which empty ones are used again, with a bit for each number in the contents.
#[derive(Drop)]
pub struct Rows<T> {
    slots: Slab<Held<T>>,
    live: Vec<u64>,
}

impl<T> Model for Rows<T> {
    ghost use Rattle.std.specs.Prelude.{List, Option};
    ghost use Rattle.tuple_store.specs.declared.held.Held.{Held};
    ghost use Rattle.slab.specs.Slab.{Slab as Slots};

    ghost Value = { Slots (Held T) };

    ghost use Rattle.tuple_store.specs.Live.{HasBits};

    ghost view = { λ s. s.slots };

    ghost invariant = { λ s. HasBits s.slots.slots s.live.items };
}

impl<T: Drop> Rows<T> {
    /// No rows.
    pub fn new(alloc: Global) -> Rows<T>
        ensures { result.slots ≡ [] }
    {
        Rows {
            slots: Slab::new(alloc),
            live: Vec::new(alloc),
        }
    }

    /// The number that the next row gets.
    pub fn vacant(&self) -> usize
        ensures { result ≡ self.now.vacant_key }
    {
        self.slots.vacant_key()
    }

    /// Puts a row of the contents into the next slot.
    pub fn insert(&mut self, held: Held<T>) -> Result<usize, AllocError>
        requires { is_now held.mark ≡ true }
        ensures key { IfOk result (λ n. n ≡ self.old.vacant_key) }
        ensures vacant { IfOk result (λ n. get self.old n ≡ None) }
        ensures updates { IfOk result (λ n. Updates self.old self.new n (Some held)) }
        ensures err { OnErr result (self.new.slots ≡ self.old.slots) }
    {
        let n = self.slots.vacant_key();
        self.slots.reserve(1)?;
        widen(&mut self.live, n)?;
        let n = self.slots.insert_reserved(held);
        set_bit(&mut self.live, n);
        Ok(n)
    }

    /// The marked row in a slot.
    pub fn get(&self, n: usize) -> Option<&Held<T>>
        ensures { option_copied result ≡ get self.now n }
    {
        self.slots.get(n)
    }

    /// The mark of the row in a slot.
    pub fn mark_of(&self, n: usize) -> Option<Mark>
        ensures { result ≡ mark_in (get self.now n) }
    {
        match self.slots.get(n) {
            Some(held) => Some(held.mark),
            None => None,
        }
    }

    /// Empties a slot.
    pub fn remove(&mut self, n: usize)
        requires { is_some (get self.old n) ≡ true }
        ensures { Updates self.old self.new n None }
    {
        let _ = self.slots.remove(n);
        clear_bit(&mut self.live, n);
    }

    /// Marks the row in a slot anew.
    pub fn mark(&mut self, n: usize, mark: Mark)
        requires { is_some (get self.old n) ≡ true }
        ensures { Updates self.old self.new n (remarked mark (get self.old n)) }
    {
        let held = &mut self.slots[n];
        held.mark = mark;
        match mark {
            Mark::Killed => clear_bit(&mut self.live, n),
            Mark::Kept | Mark::Added => set_bit(&mut self.live, n),
        }
    }

    /// The least number in the contents above `after`, or the least one of all.
    pub fn first_above(&self, after: Option<u64>) -> Option<u64>
        ensures above { IfSome result (λ n. is_above after n ≡ true) }
        ensures live { IfSome result (λ n. is_some (live_at self.now n) ≡ true) }
        ensures least { IfSome result (λ n. (q : ℕ) → is_above after q ≡ true → q < n → live_at self.now q ≡ None) }
        ensures none { IfNone result ((q : ℕ) → is_above after q ≡ true → live_at self.now q ≡ None) }
    {
        let live = self.live.as_slice();
        let from = match after {
            Some(n) => (n as usize).checked_add(1)?,
            None => 0,
        };
        Some(first_bit(live, from)? as u64)
    }
}
