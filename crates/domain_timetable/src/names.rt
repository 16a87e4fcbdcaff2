ghost use Rattle.std.specs.Prelude.{◌≡◌};
ghost use Rattle.domain_words.specs.Handed.{numbers_in};
ghost use Rattle.domain_timetable.specs.Names.{timetable_numbers};

use domain_words::ClosureNumbers;

/// The numbers of all tests, keys and weighers, in order.
pub fn numbers() -> ClosureNumbers
    ensures { numbers_in result ≡ timetable_numbers }
{
    ClosureNumbers {
        tests: &TESTS,
        keys: &KEYS,
        weighers: &WEIGHERS,
    }
}

/// All tests.
const TESTS: [u16; 4] = [
    ROOM_IS_TOO_SMALL,
    ROOMS_DIFFER,
    FOLLOWS_SOON,
    DAY_IS_TOO_FULL,
];

/// All keys.
const KEYS: [u16; 9] = [
    BY_SLOT,
    BY_ROOM,
    BY_TEACHER,
    BY_GROUP,
    BY_DAY,
    BY_SUBJECT,
    BY_AWAY_TEACHER,
    BY_AWAY_DAY,
    BY_SIZE,
];

/// All weighers.
const WEIGHERS: [u16; 2] = [BY_MISSING_SEATS, BY_LESSONS_TOO_MANY];

/// The classes.
pub(crate) const TIMESLOT: u8 = 0;

pub(crate) const ROOM: u8 = 1;

pub(crate) const LESSON: u8 = 2;

pub(crate) const BLOCK: u8 = 3;

/// The keys of a lesson that is placed.
pub(crate) const BY_SLOT: u16 = 0;

pub(crate) const BY_ROOM: u16 = 1;

pub(crate) const BY_TEACHER: u16 = 2;

pub(crate) const BY_GROUP: u16 = 3;

pub(crate) const BY_DAY: u16 = 4;

pub(crate) const BY_SUBJECT: u16 = 5;

/// The key of a lesson, be it placed or not.
pub(crate) const BY_SIZE: u16 = 8;

/// The keys of a block.
pub(crate) const BY_AWAY_TEACHER: u16 = 6;

pub(crate) const BY_AWAY_DAY: u16 = 7;

/// The tests.
pub(crate) const ROOM_IS_TOO_SMALL: u16 = 0;

pub(crate) const ROOMS_DIFFER: u16 = 1;

pub(crate) const FOLLOWS_SOON: u16 = 2;

pub(crate) const DAY_IS_TOO_FULL: u16 = 3;

/// The weighers.
pub(crate) const BY_MISSING_SEATS: u16 = 0;

pub(crate) const BY_LESSONS_TOO_MANY: u16 = 1;
