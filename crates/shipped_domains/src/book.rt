ghost use Rattle.std.specs.Prelude.{◌≡◌, ◌≤◌};
ghost use Rattle.plan_rules.specs.Meaning.{IsKeyNumber};
ghost use Rattle.domain_words.specs.Numbers.{weight_cap};
ghost use Rattle.shipped_domains.specs.Meaning.{shipped_test, shipped_key, shipped_weight};

use plan_rules::{Book, Row};

/// The book of the shipped domains.
#[derive(Drop)]
pub struct Shipped;

impl Book for Shipped {
    ghost use Rattle.shipped_domains.specs.Meaning.{shipped_meaning};

    ghost meaning = { shipped_meaning };
}

/// The first number of a closure of the roster; those below it are the timetable's.
const FIRST_OF_ROSTER: u16 = 16;

/// The answer of the test with this number at the row.
pub fn shipped_test(number: u16, row: &Row) -> bool
    ensures { result ≡ shipped_test number row.now }
{
    if number < FIRST_OF_ROSTER {
        domain_timetable::test_value(number, row)
    } else {
        domain_roster::test_value(number, row)
    }
}

/// The answer of the key with this number at the row, from -10^9 to 10^9.
pub fn shipped_key(number: u16, row: &Row) -> i64
    ensures value { result ≡ shipped_key number row.now }
    ensures range { IsKeyNumber result }
{
    if number < FIRST_OF_ROSTER {
        domain_timetable::key_value(number, row)
    } else {
        domain_roster::key_value(number, row)
    }
}

/// The answer of the weigher with this number at the row, at most 10,000.
pub fn shipped_weight(number: u16, row: &Row) -> u32
    ensures value { result ≡ shipped_weight number row.now }
    ensures range { result ≤ weight_cap }
{
    if number < FIRST_OF_ROSTER {
        domain_timetable::weight_value(number, row)
    } else {
        domain_roster::weight_value(number, row)
    }
}
