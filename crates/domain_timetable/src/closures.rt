ghost use Rattle.std.specs.Prelude.{◌≡◌, ◌≤◌};
ghost use Rattle.plan_rules.specs.Meaning.{IsKeyNumber};
ghost use Rattle.domain_words.specs.Numbers.{weight_cap};
ghost use Rattle.domain_timetable.specs.Closures.{timetable_test, timetable_key, timetable_weight, timetable_number};

use crate::lessons::{
    away_day_at, away_teacher_at, capacity_at, day_at, end_at, given_size_at, group_at, room_at,
    size_at, slot_at, start_at, subject_at, teacher_at,
};
use crate::names::{
    BY_AWAY_DAY, BY_AWAY_TEACHER, BY_DAY, BY_GROUP, BY_LESSONS_TOO_MANY, BY_MISSING_SEATS, BY_ROOM,
    BY_SIZE, BY_SLOT, BY_SUBJECT, BY_TEACHER, DAY_IS_TOO_FULL, FOLLOWS_SOON, ROOM_IS_TOO_SMALL,
    ROOMS_DIFFER,
};
use domain_words::{are_different, excess_weight, is_above, is_soon_after, key_or_zero, number_at};
use plan_rules::Row;

/// The greatest gap, in minutes, after which a lesson follows another one soon.
const SOON: u16 = 30;

/// How many lessons a group may have on one day.
const LESSONS_OF_A_DAY: i64 = 6;

/// The answer of the test with this number at the row: false where there is no such test, or where the row isn't of its
/// form.
pub fn test_value(number: u16, row: &Row) -> bool
    ensures { result ≡ timetable_test number row.now }
{
    match number {
        ROOM_IS_TOO_SMALL => is_above(size_at(row, 0), capacity_at(row, 0)),
        ROOMS_DIFFER => are_different(room_at(row, 0), room_at(row, 1)),
        FOLLOWS_SOON => is_soon_after(SOON, end_at(row, 0), start_at(row, 1)),
        DAY_IS_TOO_FULL => is_above(number_at(row, 2), Some(LESSONS_OF_A_DAY)),
        _ => false,
    }
}

/// The answer of the key with this number at the row, from -10^9 to 10^9: 0 where there is no such key, or where the row
/// isn't of its form.
pub fn key_value(number: u16, row: &Row) -> i64
    ensures value { result ≡ timetable_key number row.now }
    ensures range { IsKeyNumber result }
{
    key_or_zero(number_of_key(number, row))
}

/// The number that a key reads.
fn number_of_key(number: u16, row: &Row) -> Option<i64>
    ensures { result ≡ timetable_number number row.now }
{
    match number {
        BY_SLOT => slot_at(row, 0),
        BY_ROOM => room_at(row, 0),
        BY_TEACHER => teacher_at(row, 0),
        BY_GROUP => group_at(row, 0),
        BY_DAY => day_at(row, 0),
        BY_SUBJECT => subject_at(row, 0),
        BY_AWAY_TEACHER => away_teacher_at(row, 0),
        BY_AWAY_DAY => away_day_at(row, 0),
        BY_SIZE => given_size_at(row, 0),
        _ => None,
    }
}

/// The answer of the weigher with this number at the row, at most 10,000: 0 where there is no such weigher, or where the
/// row isn't of its form.
pub fn weight_value(number: u16, row: &Row) -> u32
    ensures value { result ≡ timetable_weight number row.now }
    ensures range { result ≤ weight_cap }
{
    match number {
        BY_MISSING_SEATS => excess_weight(size_at(row, 0), capacity_at(row, 0)),
        BY_LESSONS_TOO_MANY => excess_weight(number_at(row, 2), Some(LESSONS_OF_A_DAY)),
        _ => 0,
    }
}
