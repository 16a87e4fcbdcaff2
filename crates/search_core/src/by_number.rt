ghost use Rattle.std.specs.Prelude.{◌≡◌, ◌≤◌, ◌<◌, ◌^◌, OnOk, OnErr, option_copied, vec_len};
ghost use Rattle.search_core.specs.ByNumber.{AreSame, GetsValue, place_in};

use plan_facts::Memory;
use plan_settings::SIZE_LIMIT;
use std::alloc::Global;
use std::collections::HashMap;
use std::marker::Model;

/// Values kept by number, at most one under each. The numbers that a step can ask have a place each, from 0 on, as far as they are
/// used; others are sought by hash.
#[derive(Drop)]
pub struct ByNumber<T> {
    places: Vec<Option<T>>,
    others: HashMap<u32, T>,
}

impl<T> Model for ByNumber<T> {
    ghost use Rattle.search_core.specs.ByNumber.{Held};

    ghost Value = { Held T };

    ghost view = { λ kept. record { places = kept.places.items; others = kept.others.entries } };
}

/// Makes places for so many numbers, which nothing is kept under so far.
fn make_places<T: Drop>(places: &mut Vec<Option<T>>, count: usize) -> Result<(), Memory>
    ensures same { AreSame (place_in places.new.items) (place_in places.old.items) }
    ensures room { OnOk result (count ≤ vec_len places.new) }
{
    'places: while places.len() < count {
        places.push(None)?;
    }
    Ok(())
}

/// Puts a value in a number's place. At want of memory all stays as it was.
fn put_in_place<T: Drop>(places: &mut Vec<Option<T>>, number: usize, value: T) -> Result<(), Memory>
    requires { number < 2 ^ 32 }
    ensures ok { OnOk result (GetsValue (place_in places.old.items) number value (place_in places.new.items)) }
    ensures err { OnErr result (AreSame (place_in places.new.items) (place_in places.old.items)) }
{
    make_places(places, number + 1)?;
    places[number] = Some(value);
    Ok(())
}

/// The value in a number's place, if there is one.
fn value_in_place<T>(places: &[Option<T>], number: usize) -> Option<&T>
    ensures { option_copied result ≡ place_in places.now number }
{
    match places.get(number) {
        Some(place) => place.as_ref(),
        None => None,
    }
}

impl<T: Drop> ByNumber<T> {
    ghost use Rattle.std.specs.Prelude.{◌≡◌, OnOk, OnErr, option_copied};
    ghost use Rattle.search_core.specs.ByNumber.{AreSame, GetsValue, nothing, value_at};

    /// Nothing is kept yet.
    pub fn new(alloc: Global) -> ByNumber<T>
        ensures { AreSame (value_at result) nothing }
    {
        ByNumber {
            places: Vec::new(alloc),
            others: HashMap::new(alloc),
        }
    }

    /// What is kept under a number.
    pub fn get(&self, number: u32) -> Option<&T>
        ensures { option_copied result ≡ value_at self.now number }
    {
        if number < SIZE_LIMIT {
            value_in_place(&self.places, number as usize)
        } else {
            self.others.get(&number)
        }
    }

    /// Keeps a value under a number, in place of what was kept there. At want of memory all stays as it was.
    pub fn put(&mut self, number: u32, value: T) -> Result<(), Memory>
        ensures ok { OnOk result (GetsValue (value_at self.old) number value (value_at self.new)) }
        ensures err { OnErr result (AreSame (value_at self.new) (value_at self.old)) }
    {
        if number < SIZE_LIMIT {
            put_in_place(&mut self.places, number as usize, value)?;
            return Ok(());
        }
        self.others.insert(number, value)?;
        Ok(())
    }

    /// Keeps nothing any more.
    pub fn clear(&mut self)
        ensures { AreSame (value_at self.new) nothing }
    {
        self.places.clear();
        self.others.clear();
    }
}
