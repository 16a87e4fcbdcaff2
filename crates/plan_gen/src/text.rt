ghost use Rattle.std.specs.Prelude.{◌≡◌, ℕ, ◌+◌, ◌-◌, ◌*◌, ◌/◌, ◌%◌, ◌^◌, ◌<◌, ◌≤◌, ◌++◌, OnOk, OnErr, map, decimal};
ghost use Rattle.std.specs.List.{join_with_byte};
ghost use Rattle.plan_gen.specs.Extends.{Extends};
ghost use Rattle.plan_gen.specs.Problem.{timeslots, rooms, lessons};
ghost use Rattle.plan_gen.specs.Text.{comma, separator, timeslot_text, room_text, lesson_text, facts_text, problem_text};

use crate::Memory;
use crate::draw::Generator;
use crate::facts::{Lesson, Room, Timeslot, next_lesson, room_at, timeslot_at};
use itoa::Buffer;

/// Appends the problem of a number and a size, from 1 to 10,000: compact JSON, with no line feed.
pub fn problem_text(number: u32, size: u32, out: &mut Vec<u8>) -> Result<(), Memory>
    requires { (1 ≤ size) × (size ≤ 10000) }
    ensures ok { OnOk result (out.new.items ≡ out.old.items ++ problem_text number size) }
    ensures err { OnErr result (out.new.items ≡ out.old.items) }
{
    let before = out.len();
    match write_problem(number, size, out) {
        Ok(()) => Ok(()),
        Err(memory) => {
            out.truncate(before);
            Err(memory)
        }
    }
}

fn write_problem(number: u32, size: u32, out: &mut Vec<u8>) -> Result<(), Memory>
    requires { (1 ≤ size) × (size ≤ 10000) }
    ensures ok { OnOk result (out.new.items ≡ out.old.items ++ problem_text number size) }
    ensures front { Extends out.old.items out.new.items }
{
    out.extend_from_slice(b"{\"domain\":\"timetable\",\"facts\":")?;
    write_facts(number, size, out)?;
    write(b",\"format\":1,\"settings\":{\"seed\":", number, out)?;
    write(b",\"steps\":", 5 * size, out)?;
    out.extend_from_slice(b"}}")?;
    Ok(())
}

fn write_facts(number: u32, size: u32, out: &mut Vec<u8>) -> Result<(), Memory>
    requires { (1 ≤ size) × (size ≤ 10000) }
    ensures ok { OnOk result (out.new.items ≡ out.old.items ++ facts_text number size) }
    ensures front { Extends out.old.items out.new.items }
{
    out.extend_from_slice(b"{\"lesson\":[")?;
    write_lessons(number, size, out)?;
    out.extend_from_slice(b"],\"room\":[")?;
    write_rooms(size, out)?;
    out.extend_from_slice(b"],\"timeslot\":[")?;
    write_timeslots(size, out)?;
    out.extend_from_slice(b"]}")?;
    Ok(())
}

fn write_lessons(number: u32, size: u32, out: &mut Vec<u8>) -> Result<(), Memory>
    requires { (1 ≤ size) × (size ≤ 10000) }
    ensures ok { OnOk result (out.new.items
        ≡ out.old.items ++ join_with_byte comma (map lesson_text (lessons number size))) }
    ensures front { Extends out.old.items out.new.items }
{
    let mut generator = Generator::new(number);
    for place in 0..size {
        let lesson = next_lesson(&mut generator, size, place);
        separate(place, out)?;
        write_lesson(&lesson, out)?;
    }
    Ok(())
}

fn write_rooms(size: u32, out: &mut Vec<u8>) -> Result<(), Memory>
    requires { size ≤ 10000 }
    ensures ok { OnOk result (out.new.items
        ≡ out.old.items ++ join_with_byte comma (map room_text (rooms size))) }
    ensures front { Extends out.old.items out.new.items }
{
    for place in 0..size.div_ceil(20).min(20) {
        separate(place, out)?;
        write_room(&room_at(place), out)?;
    }
    Ok(())
}

fn write_timeslots(size: u32, out: &mut Vec<u8>) -> Result<(), Memory>
    ensures ok { OnOk result (out.new.items
        ≡ out.old.items ++ join_with_byte comma (map timeslot_text (timeslots size))) }
    ensures front { Extends out.old.items out.new.items }
{
    for place in 0..size.min(40) {
        separate(place, out)?;
        write_timeslot(&timeslot_at(place), out)?;
    }
    Ok(())
}

fn write_lesson(lesson: &Lesson, out: &mut Vec<u8>) -> Result<(), Memory>
    ensures ok { OnOk result (out.new.items ≡ out.old.items ++ lesson_text lesson.now) }
    ensures front { Extends out.old.items out.new.items }
{
    write(b"{\"group\":\"G", lesson.group, out)?;
    write(b"\",\"id\":", lesson.id, out)?;
    write(b",\"size\":", lesson.size, out)?;
    write(b",\"subject\":\"S", lesson.subject, out)?;
    write(b"\",\"teacher\":\"T", lesson.teacher, out)?;
    out.extend_from_slice(b"\"}")?;
    Ok(())
}

fn write_room(room: &Room, out: &mut Vec<u8>) -> Result<(), Memory>
    ensures ok { OnOk result (out.new.items ≡ out.old.items ++ room_text room.now) }
    ensures front { Extends out.old.items out.new.items }
{
    write(b"{\"capacity\":", room.capacity, out)?;
    write(b",\"id\":", room.id, out)?;
    out.extend_from_slice(b"}")?;
    Ok(())
}

fn write_timeslot(timeslot: &Timeslot, out: &mut Vec<u8>) -> Result<(), Memory>
    ensures ok { OnOk result (out.new.items ≡ out.old.items ++ timeslot_text timeslot.now) }
    ensures front { Extends out.old.items out.new.items }
{
    write(b"{\"day\":", timeslot.day, out)?;
    write(b",\"end\":", timeslot.end, out)?;
    write(b",\"id\":", timeslot.id, out)?;
    write(b",\"start\":", timeslot.start, out)?;
    out.extend_from_slice(b"}")?;
    Ok(())
}

// A comma before each item but the first.
fn separate(place: u32, out: &mut Vec<u8>) -> Result<(), Memory>
    ensures ok { OnOk result (out.new.items ≡ out.old.items ++ separator place) }
    ensures front { Extends out.old.items out.new.items }
{
    if place > 0 {
        out.push(b',')?;
    }
    Ok(())
}

// A piece of text, and a number after it.
fn write(piece: &[u8], number: u32, out: &mut Vec<u8>) -> Result<(), Memory>
    ensures ok { OnOk result (out.new.items ≡ out.old.items ++ piece.now ++ decimal number) }
    ensures front { Extends out.old.items out.new.items }
{
    out.extend_from_slice(piece)?;
    out.extend_from_slice(Buffer::new().format(number).as_bytes())?;
    Ok(())
}
