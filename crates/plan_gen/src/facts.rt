ghost use Rattle.std.specs.Prelude.{◌≡◌, ℕ, ◌+◌, ◌-◌, ◌*◌, ◌/◌, ◌%◌, ◌^◌, ◌<◌, ◌≤◌};
ghost use Rattle.plan_gen.specs.Draw.{state_after};
ghost use Rattle.plan_gen.specs.Problem.{timeslot, room, lesson};

use crate::draw::Generator;

/// An hour of a day, in minutes.
#[derive(Clone, Copy)]
pub struct Timeslot {
    pub id: u32,
    pub day: u32,
    pub start: u32,
    pub end: u32,
}

#[derive(Clone, Copy)]
pub struct Room {
    pub id: u32,
    pub capacity: u32,
}

/// The names of a lesson are numbered.
#[derive(Clone, Copy)]
pub struct Lesson {
    pub id: u32,
    pub subject: u32,
    pub teacher: u32,
    pub group: u32,
    pub size: u32,
}

pub fn timeslot_at(place: u32) -> Timeslot
    requires { place < 10000 }
    ensures { result ≡ timeslot place }
{
    let start = 480 + 60 * (place % 8);
    Timeslot {
        id: place + 1,
        day: place / 8 + 1,
        start,
        end: start + 60,
    }
}

pub fn room_at(place: u32) -> Room
    requires { place < 10000 }
    ensures { result ≡ room place }
{
    Room {
        id: place + 1,
        capacity: 30,
    }
}

/// The next lesson of a problem of this size.
pub fn next_lesson(generator: &mut Generator, size: u32, place: u32) -> Lesson
    requires size { (1 ≤ size) × (size ≤ 10000) }
    requires place { place < size }
    ensures { (number : ℕ) → generator.old.state ≡ state_after number (4 * place)
        → (generator.new.state ≡ state_after number (4 * (place + 1))) × (result ≡ lesson number size place) }
{
    let subject = generator.below(8);
    let teacher = generator.below((size + 9) / 10);
    let group = generator.below((size + 19) / 20);
    Lesson {
        id: place + 1,
        subject,
        teacher,
        group,
        size: 15 + generator.below(16),
    }
}
