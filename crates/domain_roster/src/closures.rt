ghost use Rattle.std.specs.Prelude.{◌≡◌, ◌≤◌};
ghost use Rattle.plan_rules.specs.Meaning.{IsKeyNumber};
ghost use Rattle.domain_words.specs.Numbers.{both, weight_cap};
ghost use Rattle.domain_roster.specs.Closures.{roster_test, roster_key, roster_weight, roster_number};
ghost use Rattle.domain_roster.specs.Closures.{leaves_short_rest};

use crate::names::{
    BEGINS_EARLY, BY_ASKED_DAY, BY_ASKING_EMPLOYEE, BY_DAY, BY_DAYS_TOO_MANY, BY_DURATION,
    BY_EMPLOYEE, BY_END, BY_FIRST_NUMBER, BY_MINUTES, BY_MINUTES_TOO_MANY, BY_NEXT_DAY,
    BY_SHIFTS_TOO_MANY, BY_START, BY_WORKER, DAYS_ARE_TOO_MANY, ENDS_LATE, HAS_NO_WORKER,
    MINUTES_ARE_TOO_MANY, REST_IS_SHORT, SHIFTS_ARE_TOO_MANY, SKILLS_DIFFER,
};
use crate::shifts::{
    DAY_MINUTES, asked_day_at, asking_employee_at, day_at, duration_at, employee_at, end_at,
    is_open_at, max_at, minutes_at, next_day_at, skill_at, start_at, worker_at, worker_skill_at,
};
use domain_words::{are_different, excess_weight, is_above, key_or_zero, number_at};
use plan_rules::Row;

/// The least rest, in minutes, between the shifts of two days.
const REST: i64 = 600;

/// On how many days one may work.
const DAYS: i64 = 5;

/// How many minutes one may work.
const MINUTES: i64 = 2400;

/// The minute before which a day begins early.
const EARLY: i64 = 360;

/// The minute after which a day ends late.
const LATE: i64 = 1320;

/// The answer of the test with this number at the row: false where there is no such test, or where the row isn't of its
/// form.
pub fn test_value(number: u16, row: &Row) -> bool
    ensures { result ≡ roster_test number row.now }
{
    match number {
        SKILLS_DIFFER => are_different(skill_at(row, 0), worker_skill_at(row, 0)),
        REST_IS_SHORT => leaves_short_rest(end_at(row, 0), start_at(row, 1)),
        SHIFTS_ARE_TOO_MANY => is_above(number_at(row, 1), max_at(row, 2)),
        DAYS_ARE_TOO_MANY => is_above(number_at(row, 1), Some(DAYS)),
        MINUTES_ARE_TOO_MANY => is_above(number_at(row, 1), Some(MINUTES)),
        BEGINS_EARLY => is_above(Some(EARLY), number_at(row, 2)),
        ENDS_LATE => is_above(number_at(row, 2), Some(LATE)),
        HAS_NO_WORKER => is_open_at(row, 0),
        _ => false,
    }
}

/// Whether fewer than 600 minutes lie between a minute of one day and one of the next.
fn leaves_short_rest(from: Option<i64>, up_to: Option<i64>) -> bool
    ensures { result ≡ both leaves_short_rest from up_to }
{
    match (from, up_to) {
        (Some(from), Some(up_to)) => from.saturating_sub(up_to) > i64::from(DAY_MINUTES) - REST,
        _ => false,
    }
}

/// The answer of the key with this number at the row, from -10^9 to 10^9: 0 where there is no such key, or where the row
/// isn't of its form.
pub fn key_value(number: u16, row: &Row) -> i64
    ensures value { result ≡ roster_key number row.now }
    ensures range { IsKeyNumber result }
{
    key_or_zero(number_of_key(number, row))
}

/// The number that a key reads.
fn number_of_key(number: u16, row: &Row) -> Option<i64>
    ensures { result ≡ roster_number number row.now }
{
    match number {
        BY_WORKER => worker_at(row, 0),
        BY_DAY => day_at(row, 0),
        BY_NEXT_DAY => next_day_at(row, 0),
        BY_START => start_at(row, 0),
        BY_END => end_at(row, 0),
        BY_EMPLOYEE => employee_at(row, 0),
        BY_ASKING_EMPLOYEE => asking_employee_at(row, 0),
        BY_ASKED_DAY => asked_day_at(row, 0),
        BY_MINUTES => Some(i64::from(minutes_at(row, 0))),
        BY_FIRST_NUMBER => number_at(row, 0),
        BY_DURATION => Some(i64::from(duration_at(row, 0))),
        _ => None,
    }
}

/// The answer of the weigher with this number at the row, at most 10,000: 0 where there is no such weigher, or where the
/// row isn't of its form.
pub fn weight_value(number: u16, row: &Row) -> u32
    ensures value { result ≡ roster_weight number row.now }
    ensures range { result ≤ weight_cap }
{
    match number {
        BY_SHIFTS_TOO_MANY => excess_weight(number_at(row, 1), max_at(row, 2)),
        BY_DAYS_TOO_MANY => excess_weight(number_at(row, 1), Some(DAYS)),
        BY_MINUTES_TOO_MANY => excess_weight(number_at(row, 1), Some(MINUTES)),
        _ => 0,
    }
}
