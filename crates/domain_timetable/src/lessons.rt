ghost use Rattle.std.specs.Prelude.{◌≡◌};
ghost use Rattle.domain_timetable.specs.Lessons.{subject_at, teacher_at, group_at, size_at, given_size_at, slot_at};
ghost use Rattle.domain_timetable.specs.Lessons.{day_at, start_at, end_at, room_at, capacity_at};
ghost use Rattle.domain_timetable.specs.Lessons.{away_teacher_at, away_day_at};

use crate::names::{BLOCK, LESSON};
use domain_words::{field_at, given_field_at, held_field_at, held_id_at};
use plan_rules::Row;

/// The fields of a timeslot.
const DAY: usize = 0;

const START: usize = 1;

const END: usize = 2;

/// The field of a room.
const CAPACITY: usize = 0;

/// The fields of a lesson.
const SUBJECT: usize = 0;

const TEACHER: usize = 1;

const GROUP: usize = 2;

const SIZE: usize = 3;

/// The variables of a lesson: its slot, and its room.
const SLOT: usize = 0;

const PLACE: usize = 1;

/// The fields of a block.
const AWAY_TEACHER: usize = 0;

const AWAY_DAY: usize = 1;

/// The subject of the lesson at a place of the row, from 0; none where there is no lesson with a slot and a room.
pub fn subject_at(row: &Row, place: usize) -> Option<i64>
    ensures { result ≡ subject_at row.now place }
{
    field_at(row, place, LESSON, SUBJECT)
}

/// The teacher of the lesson at a place.
pub fn teacher_at(row: &Row, place: usize) -> Option<i64>
    ensures { result ≡ teacher_at row.now place }
{
    field_at(row, place, LESSON, TEACHER)
}

/// The group of the lesson at a place.
pub fn group_at(row: &Row, place: usize) -> Option<i64>
    ensures { result ≡ group_at row.now place }
{
    field_at(row, place, LESSON, GROUP)
}

/// How many take part in the lesson at a place.
pub fn size_at(row: &Row, place: usize) -> Option<i64>
    ensures { result ≡ size_at row.now place }
{
    field_at(row, place, LESSON, SIZE)
}

/// How many take part in the lesson at a place, be it placed or not.
pub fn given_size_at(row: &Row, place: usize) -> Option<i64>
    ensures { result ≡ given_size_at row.now place }
{
    given_field_at(row, place, LESSON, SIZE)
}

/// The id of the slot of the lesson at a place.
pub fn slot_at(row: &Row, place: usize) -> Option<i64>
    ensures { result ≡ slot_at row.now place }
{
    held_id_at(row, place, LESSON, SLOT)
}

/// The day of that slot.
pub fn day_at(row: &Row, place: usize) -> Option<i64>
    ensures { result ≡ day_at row.now place }
{
    held_field_at(row, place, LESSON, SLOT, DAY)
}

/// The minute at which that slot starts.
pub fn start_at(row: &Row, place: usize) -> Option<i64>
    ensures { result ≡ start_at row.now place }
{
    held_field_at(row, place, LESSON, SLOT, START)
}

/// The minute at which that slot ends.
pub fn end_at(row: &Row, place: usize) -> Option<i64>
    ensures { result ≡ end_at row.now place }
{
    held_field_at(row, place, LESSON, SLOT, END)
}

/// The id of the room of the lesson at a place.
pub fn room_at(row: &Row, place: usize) -> Option<i64>
    ensures { result ≡ room_at row.now place }
{
    held_id_at(row, place, LESSON, PLACE)
}

/// How many that room holds.
pub fn capacity_at(row: &Row, place: usize) -> Option<i64>
    ensures { result ≡ capacity_at row.now place }
{
    held_field_at(row, place, LESSON, PLACE, CAPACITY)
}

/// The teacher of the block at a place.
pub fn away_teacher_at(row: &Row, place: usize) -> Option<i64>
    ensures { result ≡ away_teacher_at row.now place }
{
    field_at(row, place, BLOCK, AWAY_TEACHER)
}

/// The day of the block at a place.
pub fn away_day_at(row: &Row, place: usize) -> Option<i64>
    ensures { result ≡ away_day_at row.now place }
{
    field_at(row, place, BLOCK, AWAY_DAY)
}
