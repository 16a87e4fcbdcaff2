//! The two ends of a trial.
ghost use Rattle.std.specs.Prelude.{◌≡◌, ◌≢◌, ℕ, [], true, false, is_some};
ghost use Rattle.slab.specs.Slab.{get};
ghost use Rattle.tuple_store.specs.Log.{is_noted};
ghost use Rattle.tuple_store.specs.Rows.{is_now, is_base, is_settled, rows_of};

use crate::held::Mark;
use crate::log::Log;
use crate::rows::Rows;

/// Brings a slot back to what it was when the trial began.
pub fn restore<T: Drop>(rows: &mut Rows<T>, n: usize)
    ensures base { rows_of is_base rows.new.slots ≡ rows_of is_base rows.old.slots }
    ensures settled { is_settled (get rows.new n) ≡ true }
    ensures others { (q : ℕ) → q ≢ n → get rows.new q ≡ get rows.old q }
    ensures fewer { (q : ℕ) → is_some (get rows.new q) ≡ true → is_some (get rows.old q) ≡ true }
{
    match rows.mark_of(n) {
        Some(Mark::Added) => rows.remove(n),
        Some(Mark::Killed) => rows.mark(n, Mark::Kept),
        _ => {}
    }
}

/// Keeps what a slot holds now for good.
pub fn settle<T: Drop>(rows: &mut Rows<T>, n: usize)
    ensures now { rows_of is_now rows.new.slots ≡ rows_of is_now rows.old.slots }
    ensures settled { is_settled (get rows.new n) ≡ true }
    ensures others { (q : ℕ) → q ≢ n → get rows.new q ≡ get rows.old q }
    ensures fewer { (q : ℕ) → is_some (get rows.new q) ≡ true → is_some (get rows.old q) ≡ true }
{
    match rows.mark_of(n) {
        Some(Mark::Added) => rows.mark(n, Mark::Kept),
        Some(Mark::Killed) => rows.remove(n),
        _ => {}
    }
}

/// Brings all noted slots back to what they were when the trial began.
pub fn restore_all<T: Drop>(rows: &mut Rows<T>, log: &mut Log)
    requires { (q : ℕ) → is_settled (get rows.old q) ≡ false → is_noted log.old.numbers q ≡ true }
    ensures base { rows_of is_base rows.new.slots ≡ rows_of is_base rows.old.slots }
    ensures settled { (q : ℕ) → is_settled (get rows.new q) ≡ true }
    ensures fewer { (q : ℕ) → is_some (get rows.new q) ≡ true → is_some (get rows.old q) ≡ true }
    ensures log { log.new.numbers ≡ [] }
    ensures room { log.new.room ≡ log.old.room }
{
    while let Some(n) = log.pop() {
        restore(rows, n);
    }
}

/// Keeps what all noted slots hold now for good.
pub fn settle_all<T: Drop>(rows: &mut Rows<T>, log: &mut Log)
    requires { (q : ℕ) → is_settled (get rows.old q) ≡ false → is_noted log.old.numbers q ≡ true }
    ensures now { rows_of is_now rows.new.slots ≡ rows_of is_now rows.old.slots }
    ensures settled { (q : ℕ) → is_settled (get rows.new q) ≡ true }
    ensures fewer { (q : ℕ) → is_some (get rows.new q) ≡ true → is_some (get rows.old q) ≡ true }
    ensures log { log.new.numbers ≡ [] }
    ensures room { log.new.room ≡ log.old.room }
{
    while let Some(n) = log.pop() {
        settle(rows, n);
    }
}
