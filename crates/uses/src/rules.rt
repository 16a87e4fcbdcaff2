ghost use Rattle.std.specs.Prelude.{◌≡◌, ◌≤◌, IfOk};
ghost use Rattle.plan_rules.specs.Meaning.{IsKeyNumber};
ghost use Rattle.uses.specs.Rules.{guests_at, guests_standing, lacks_seats, most_standing, restaurant_rules};
ghost use Rattle.uses.specs.Rules.{seats_at, shared, standing, table_of};

use crate::classes::PARTY;
use domain_words::{
    excess_weight, field_at, held_field_at, held_id_at, is_above, key_or_zero, one_node, pairs,
    penalty, same_key, weighed_penalty,
};
use plan_facts::{List, Memory};
use plan_rules::{Book, Head, Node, Row, RuleDef};
use plan_scores::Level;
use std::alloc::Global;

/// The book of the restaurant: what each closure means, by its kind and number.
#[derive(Drop)]
pub struct Restaurant;

impl Book for Restaurant {
    ghost use Rattle.uses.specs.Rules.{restaurant_meaning};

    ghost meaning = { restaurant_meaning };
}

/// The numbers of the closures, each kind by itself.
pub const TEST_LACKS_SEATS: u16 = 0;

pub const KEY_TABLE: u16 = 0;

pub const WEIGH_STANDING: u16 = 0;

/// The most guests that are counted of a party that stand.
pub const MOST_STANDING: u32 = 10_000;

/// The field of a party that says how many guests come.
const GUESTS: usize = 1;

/// The field of a table that says how many seats it has.
const SEATS: usize = 0;

/// The variable of a party that holds its table.
const TABLE_HELD: usize = 0;

/// How many guests the party that begins the row has; none where no party does, or one without a table.
fn guests_at(row: &Row) -> Option<i64>
    ensures { result ≡ guests_at row.now }
{
    field_at(row, 0, PARTY, GUESTS)
}

/// How many seats its table has.
fn seats_at(row: &Row) -> Option<i64>
    ensures { result ≡ seats_at row.now }
{
    held_field_at(row, 0, PARTY, TABLE_HELD, SEATS)
}

/// A test: more guests come than the party's table has seats.
pub fn lacks_seats(row: &Row) -> bool
    ensures { result ≡ lacks_seats row.now }
{
    is_above(guests_at(row), seats_at(row))
}

/// A key: the id of the party's table, from -10^9 to 10^9.
pub fn table_of(row: &Row) -> i64
    ensures value { result ≡ table_of row.now }
    ensures range { IsKeyNumber result }
{
    key_or_zero(held_id_at(row, 0, PARTY, TABLE_HELD))
}

/// A weigher: how many guests of the party have no seat, at most [`MOST_STANDING`].
pub fn guests_standing(row: &Row) -> u32
    ensures value { result ≡ guests_standing row.now }
    ensures range { result ≤ most_standing }
{
    excess_weight(guests_at(row), seats_at(row))
}

/// The rules, in the order in which they are printed.
pub fn defs(alloc: Global) -> Result<List<RuleDef>, Memory>
    ensures { IfOk result (λ defs. defs ≡ restaurant_rules) }
{
    let mut defs = List::new(alloc);
    defs.push(shared(alloc)?)?;
    defs.push(standing(alloc)?)?;
    Ok(defs)
}

/// Two parties at one table.
fn shared(alloc: Global) -> Result<RuleDef, Memory>
    ensures { IfOk result (λ rule. rule ≡ shared) }
{
    let both = pairs(alloc, PARTY, &[same_key(KEY_TABLE)])?;
    penalty(alloc, "shared", Level::Hard, both, List::new(alloc))
}

/// A party with more guests than its table has seats, once for each guest who stands.
fn standing(alloc: Global) -> Result<RuleDef, Memory>
    ensures { IfOk result (λ rule. rule ≡ standing) }
{
    let crowded = one_node(alloc, Node::Filter(TEST_LACKS_SEATS))?;
    let each = Head::ForEach(PARTY);
    weighed_penalty(
        alloc,
        "standing",
        Level::Soft,
        WEIGH_STANDING,
        each,
        crowded,
    )
}
