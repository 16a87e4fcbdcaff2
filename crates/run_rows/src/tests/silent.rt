//! The book of rules that ask no closure, and runs in domains of such rules.
ghost use Rattle.std.specs.Prelude.{All};

use super::harness::{Asked, first_undue, run_each};
use plan_facts::Memory;
use plan_json::Domain;
use plan_rules::{Book, Kept, Rules};
use std::alloc::Global;
use std::sync::Wait;
use std::thread::Threads;

/// Its rules ask none.
#[derive(Drop)]
pub(super) struct Silent;

impl Book for Silent {
    ghost use Rattle.std.specs.Prelude.{pos, false};

    ghost meaning = { record { test_of = λ _ _. false; key_of = λ _ _. pos 0; weight_of = λ _ _. 0 } };
}

/// The number of the first of these runs in these domains that doesn't write and end as is due.
pub(super) fn first_wrong_among<T: Threads + Wait + Sync>(
    threads: &T,
    alloc: Global,
    asked: &[Asked],
    domains: &[Domain<Silent>],
) -> Result<Option<usize>, Memory>
    requires keeps { All (λ domain. ⟦<Rules<Silent> as Kept>⟧.keeps domain.rules) domains.now }
{
    let outcomes = run_each(threads, alloc, asked, domains)?;
    Ok(first_undue(&outcomes))
}
