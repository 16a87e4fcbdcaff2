//! A plain map of lists, beside which an index is measured.
use crate::index::key_of;
use plan_facts::Memory;
use std::alloc::Global;
use std::collections::HashMap;
use stream_index::Key;

/// Places under keys, with no orders and no trials.
#[derive(Drop)]
pub struct Plain {
    lists: HashMap<Key, Vec<u64>>,
    alloc: Global,
}

impl Plain {
    pub fn new(alloc: Global) -> Plain {
        Plain {
            lists: HashMap::new(alloc),
            alloc,
        }
    }

    fn put(&mut self, number: i64, place: u64) -> Result<(), Memory> {
        let key = Key::of(&[number]);
        if let Some(list) = self.lists.get_mut(&key) {
            list.push(place)?;
            return Ok(());
        }
        let mut list = Vec::new(self.alloc);
        list.push(place)?;
        self.lists.insert(key, list)?;
        Ok(())
    }

    fn kill(&mut self, number: i64, place: u64) {
        let key = Key::of(&[number]);
        let Some(list) = self.lists.get_mut(&key) else {
            return;
        };
        if let Some(at) = list.iter().position(|other| *other == place) {
            list.swap_remove(at);
        }
    }

    fn list(&self, number: i64) -> &[u64] {
        match self.lists.get(&Key::of(&[number])) {
            Some(list) => list.as_slice(),
            None => &[],
        }
    }
}

pub fn fill(plain: &mut Plain, size: u64) -> Result<(), Memory> {
    for place in 0..size {
        plain.put(key_of(place, size), place)?;
    }
    Ok(())
}

pub fn renew(plain: &mut Plain, size: u64) -> Result<(), Memory> {
    for round in 0..size {
        let key = key_of(round, size);
        plain.put(key, size)?;
        plain.kill(key, size);
    }
    Ok(())
}

/// The moves of a trial of three, and those that take them back.
pub fn try_out(plain: &mut Plain, size: u64) -> Result<(), Memory> {
    for round in 0..size {
        let key = key_of(round, size);
        for _ in 0..3 {
            plain.put(key, size)?;
            plain.kill(key, size);
        }
    }
    Ok(())
}

pub fn read(plain: &Plain, size: u64, count: u64) -> u64 {
    let mut sum = 0u64;
    for round in 0..count {
        for place in plain.list(key_of(round, size)) {
            sum = sum.wrapping_add(*place);
        }
    }
    sum
}
