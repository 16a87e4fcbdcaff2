//! Drives a store and an index at two sizes, an index beside a plain map of lists, and single nodes of a network, and
//! prints counts of what they hold and find; with the word `times` also how long the calls took, to standard error,
//! after a million trials.
#![tactic(auto)]

mod beside;
mod clocked;
mod index;
mod kept;
mod look;
mod nodes;
mod plain;
mod school;
mod school_rules;
mod store;

use std::{env, io};

fn main(rt: HostRuntime) -> io::Result<()> {
    let mut times = false;
    for word in env::args(&rt)? {
        if word.as_str() == "times" {
            times = true;
        }
    }
    let rounds = if times { 1000000 } else { 10000 };
    for size in [1000, 100000] {
        store::drive(&rt, rt.alloc(), times, size, rounds)?;
        index::drive(&rt, rt.alloc(), times, size, rounds)?;
        beside::drive(&rt, rt.alloc(), times, size)?;
    }
    nodes::drive(&rt, rt.alloc(), times)
}
