ghost use Rattle.std.specs.Prelude.{◌≡◌};
ghost use Rattle.domain_roster.specs.Shifts.{day_at, next_day_at, start_at, end_at, minutes_at, duration_at};
ghost use Rattle.domain_roster.specs.Shifts.{skill_at, worker_at, worker_skill_at, is_open_at, employee_at, max_at};
ghost use Rattle.domain_roster.specs.Shifts.{asking_employee_at, asked_day_at};

use crate::names::{EMPLOYEE, LEAVE, SHIFT, WISH};
use domain_words::{
    clipped_excess, field_at, given_field_at, held_field_at, held_id_at, id_at, is_null_at,
};
use plan_facts::FIELD_LIMIT;
use plan_rules::Row;

/// The minutes of a day: how many a shift lasts at most.
pub const DAY_MINUTES: u16 = 1440;

/// The fields of an employee.
const SKILL_OF_EMPLOYEE: usize = 0;

const MAX: usize = 1;

/// The fields of a shift.
const DAY: usize = 0;

const START: usize = 1;

const END: usize = 2;

const SKILL: usize = 3;

/// The variable of a shift.
const WORKER: usize = 0;

/// The fields of a leave or wish.
const ASKING_EMPLOYEE: usize = 0;

const ASKED_DAY: usize = 1;

/// The greatest day.
const GREATEST_DAY: i64 = FIELD_LIMIT;

/// How many minutes the shift at a place of the row lasts, from 0 to 1440; 0 where there is no shift with a worker.
pub fn minutes_at(row: &Row, place: usize) -> u32
    ensures { result ≡ minutes_at row.now place }
{
    clipped_excess(
        u32::from(DAY_MINUTES),
        end_at(row, place),
        start_at(row, place),
    )
}

/// How many minutes the shift at a place lasts, be there a worker or not; 0 where there is no shift.
pub fn duration_at(row: &Row, place: usize) -> u32
    ensures { result ≡ duration_at row.now place }
{
    let start = given_field_at(row, place, SHIFT, START);
    let end = given_field_at(row, place, SHIFT, END);
    clipped_excess(u32::from(DAY_MINUTES), end, start)
}

/// The day of the shift at a place of the row, from 0; none where there is no shift with a worker.
pub fn day_at(row: &Row, place: usize) -> Option<i64>
    ensures { result ≡ day_at row.now place }
{
    field_at(row, place, SHIFT, DAY)
}

/// The day after it, or 10^9 where that is less.
pub fn next_day_at(row: &Row, place: usize) -> Option<i64>
    ensures { result ≡ next_day_at row.now place }
{
    Some(day_at(row, place)?.min(GREATEST_DAY - 1) + 1)
}

/// The minute at which the shift starts.
pub fn start_at(row: &Row, place: usize) -> Option<i64>
    ensures { result ≡ start_at row.now place }
{
    field_at(row, place, SHIFT, START)
}

/// The minute at which the shift ends.
pub fn end_at(row: &Row, place: usize) -> Option<i64>
    ensures { result ≡ end_at row.now place }
{
    field_at(row, place, SHIFT, END)
}

/// The skill that the shift asks for.
pub fn skill_at(row: &Row, place: usize) -> Option<i64>
    ensures { result ≡ skill_at row.now place }
{
    field_at(row, place, SHIFT, SKILL)
}

/// The id of the worker of the shift at a place.
pub fn worker_at(row: &Row, place: usize) -> Option<i64>
    ensures { result ≡ worker_at row.now place }
{
    held_id_at(row, place, SHIFT, WORKER)
}

/// The skill of that worker.
pub fn worker_skill_at(row: &Row, place: usize) -> Option<i64>
    ensures { result ≡ worker_skill_at row.now place }
{
    held_field_at(row, place, SHIFT, WORKER, SKILL_OF_EMPLOYEE)
}

/// Whether the shift at a place has no worker.
pub fn is_open_at(row: &Row, place: usize) -> bool
    ensures { result ≡ is_open_at row.now place }
{
    is_null_at(row, place, SHIFT, WORKER)
}

/// The id of the employee at a place.
pub fn employee_at(row: &Row, place: usize) -> Option<i64>
    ensures { result ≡ employee_at row.now place }
{
    id_at(row, place, EMPLOYEE)
}

/// How many shifts that employee may have.
pub fn max_at(row: &Row, place: usize) -> Option<i64>
    ensures { result ≡ max_at row.now place }
{
    field_at(row, place, EMPLOYEE, MAX)
}

/// The employee that the leave or wish at a place names.
pub fn asking_employee_at(row: &Row, place: usize) -> Option<i64>
    ensures { result ≡ asking_employee_at row.now place }
{
    field_at(row, place, LEAVE, ASKING_EMPLOYEE).or(field_at(row, place, WISH, ASKING_EMPLOYEE))
}

/// The day of the leave or wish at a place.
pub fn asked_day_at(row: &Row, place: usize) -> Option<i64>
    ensures { result ≡ asked_day_at row.now place }
{
    field_at(row, place, LEAVE, ASKED_DAY).or(field_at(row, place, WISH, ASKED_DAY))
}
