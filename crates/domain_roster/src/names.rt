ghost use Rattle.std.specs.Prelude.{◌≡◌};
ghost use Rattle.domain_words.specs.Handed.{numbers_in};
ghost use Rattle.domain_roster.specs.Names.{roster_numbers};

use domain_words::ClosureNumbers;

/// The numbers of all tests, keys and weighers, in order.
pub fn numbers() -> ClosureNumbers
    ensures { numbers_in result ≡ roster_numbers }
{
    ClosureNumbers {
        tests: &TESTS,
        keys: &KEYS,
        weighers: &WEIGHERS,
    }
}

/// All tests.
const TESTS: [u16; 8] = [
    SKILLS_DIFFER,
    REST_IS_SHORT,
    SHIFTS_ARE_TOO_MANY,
    DAYS_ARE_TOO_MANY,
    MINUTES_ARE_TOO_MANY,
    BEGINS_EARLY,
    ENDS_LATE,
    HAS_NO_WORKER,
];

/// All keys.
const KEYS: [u16; 11] = [
    BY_WORKER,
    BY_DAY,
    BY_NEXT_DAY,
    BY_START,
    BY_END,
    BY_EMPLOYEE,
    BY_ASKING_EMPLOYEE,
    BY_ASKED_DAY,
    BY_MINUTES,
    BY_FIRST_NUMBER,
    BY_DURATION,
];

/// All weighers.
const WEIGHERS: [u16; 3] = [BY_SHIFTS_TOO_MANY, BY_DAYS_TOO_MANY, BY_MINUTES_TOO_MANY];

/// The classes.
pub(crate) const EMPLOYEE: u8 = 0;

pub(crate) const SHIFT: u8 = 1;

pub(crate) const LEAVE: u8 = 2;

pub(crate) const WISH: u8 = 3;

/// The keys of a shift that has a worker.
pub(crate) const BY_WORKER: u16 = 16;

pub(crate) const BY_DAY: u16 = 17;

pub(crate) const BY_NEXT_DAY: u16 = 18;

pub(crate) const BY_START: u16 = 19;

pub(crate) const BY_END: u16 = 20;

pub(crate) const BY_MINUTES: u16 = 24;

/// The key of a shift, be there a worker or not.
pub(crate) const BY_DURATION: u16 = 26;

/// The key of an employee.
pub(crate) const BY_EMPLOYEE: u16 = 21;

/// The keys of a leave or wish.
pub(crate) const BY_ASKING_EMPLOYEE: u16 = 22;

pub(crate) const BY_ASKED_DAY: u16 = 23;

/// The key of a row that begins with a number.
pub(crate) const BY_FIRST_NUMBER: u16 = 25;

/// The tests.
pub(crate) const SKILLS_DIFFER: u16 = 16;

pub(crate) const REST_IS_SHORT: u16 = 17;

pub(crate) const SHIFTS_ARE_TOO_MANY: u16 = 18;

pub(crate) const DAYS_ARE_TOO_MANY: u16 = 19;

pub(crate) const MINUTES_ARE_TOO_MANY: u16 = 20;

pub(crate) const BEGINS_EARLY: u16 = 21;

pub(crate) const ENDS_LATE: u16 = 22;

pub(crate) const HAS_NO_WORKER: u16 = 23;

/// The weighers.
pub(crate) const BY_SHIFTS_TOO_MANY: u16 = 16;

pub(crate) const BY_DAYS_TOO_MANY: u16 = 17;

pub(crate) const BY_MINUTES_TOO_MANY: u16 = 18;
