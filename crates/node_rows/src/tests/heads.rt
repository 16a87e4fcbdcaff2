//! Records under places, and rows of places, as they come and go in trials.
ghost use Rattle.std.specs.Prelude.{◌≡◌, ◌≤◌, false, length, OnOk};
ghost use Rattle.stream_heads.specs.Last.{IsReadBy};

use plan_facts::{List, Memory, Rec};
use plan_rules::{Part, Row};
use std::alloc::Global;
use std::test::Fail;
use stream_heads::{Cell, Cells, Heads, Indexed, LastRow, Member, Side};
use stream_index::Key;

/// A record of class 0 without fields.
fn record(alloc: Global, id: u32) -> Rec {
    Rec {
        class: 0,
        id,
        fields: List::new(alloc),
        planned: List::new(alloc),
    }
}

/// The id of the record at a place, if it is live.
fn id_at(heads: &Heads, place: u64) -> Option<u32> {
    match heads.head(place)?.part(0) {
        Some(Part::Fact(rec)) => Some(rec.id),
        _ => None,
    }
}

/// Whether no record of the class has this id.
fn has_none(heads: &Heads, id: u32) -> bool {
    heads.at(0, id).is_empty()
}

/// Kills the record at a place, if it is live. Whether it was.
fn kill_live(heads: &mut Heads, place: u64) -> bool
    ensures { heads.new.is_open ≡ heads.old.is_open }
{
    if heads.head(place).is_none() {
        return false;
    }
    heads.kill(place);
    true
}

/// Adds a record, kills it and the one at a place, and adds another. Whether both were live, and the place is free.
fn changes_records(alloc: Global, heads: &mut Heads, place: u64) -> Result<bool, Memory>
    ensures { heads.new.is_open ≡ heads.old.is_open }
{
    let other = heads.add(record(alloc, 2))?;
    let were_live = kill_live(heads, other) && kill_live(heads, place);
    heads.add(record(alloc, 3))?;
    Ok(were_live && id_at(heads, place).is_none() && heads.id_at(place) == 0)
}

/// Whether just the record of id 1 stands, at this place.
fn stands_alone(heads: &Heads, place: u64) -> bool {
    heads.at(0, 1) == [place].as_slice()
        && matches!(id_at(heads, place), Some(1))
        && heads.id_at(place) == 1
        && has_none(heads, 2)
        && has_none(heads, 3)
}

/// Whether records stand after a trial where they did before it.
fn takes_all_back(alloc: Global, heads: &mut Heads) -> Result<bool, Memory>
    requires { heads.old.is_open ≡ false }
{
    let place = heads.add(record(alloc, 1))?;
    heads.begin();
    let within = changes_records(alloc, heads, place)?;
    heads.rollback();
    Ok(within && stands_alone(heads, place))
}

#[test]
fn a_rolled_back_trial_leaves_the_places_of_heads(rt: HostRuntime) -> Result<(), Fail> {
    let alloc = rt.alloc();
    let mut heads = Heads::new(alloc);
    assert!(rt; takes_all_back(alloc, &mut heads)?);
    Ok(())
}

/// Whether a part is the record of this id.
fn is_record(part: Option<&Part>, id: u32) -> bool {
    matches!(part, Some(Part::Fact(rec)) if rec.id == id)
}

/// Whether a row is the record of id 9, the number -3 and the record of id 7, and isn't the row of a head.
fn are_three(heads: &Heads, row: &Row) -> bool {
    row.len() == 3
        && is_record(row.part(0), 9)
        && matches!(row.part(1), Some(Part::Num(-3)))
        && is_record(row.part(2), 7)
        && heads.find(row).is_none()
}

/// Whether the row of two records, and a number between them, is read.
fn reads_three(heads: &Heads, one: u64, two: u64) -> Result<bool, Memory> {
    let cells = Cells::of(&[Cell::Place(two), Cell::Num(-3)]).with(Cell::Place(one));
    let row = heads.row(&cells)?;
    Ok(are_three(heads, &row))
}

/// Whether the row of a record alone is read, and found at its place.
fn reads_one(heads: &Heads, place: u64) -> Result<bool, Memory> {
    let lone = heads.row(&Cells::of(&[Cell::Place(place)]))?;
    Ok(heads.find(&lone) == Some(place))
}

/// Whether a row is a number and, behind it, another one.
fn are_numbers(row: &Row, first: i64, second: i64) -> bool {
    row.len() == 2
        && matches!(row.part(0), Some(Part::Num(n)) if *n == first)
        && matches!(row.part(1), Some(Part::Num(n)) if *n == second)
}

/// Whether a row is the records of two ids.
fn are_records(row: &Row, first: u32, second: u32) -> bool {
    row.len() == 2 && is_record(row.part(0), first) && is_record(row.part(1), second)
}

/// Whether the row of the records at two places is read, which have these ids.
fn reads_pair(
    last: &mut LastRow,
    heads: &Heads,
    places: (u64, u64),
    ids: (u32, u32),
) -> Result<bool, Memory>
    requires { IsReadBy heads.now.now last.old }
    ensures { IsReadBy heads.now.now last.new }
{
    let cells = [Cell::Place(places.0), Cell::Place(places.1)];
    last.read(heads, &Cells::of(&cells))?;
    Ok(are_records(&last.row, ids.0, ids.1))
}

/// Whether a row of two records is read, and then others in which one of them is another one.
fn reads_pairs(last: &mut LastRow, heads: &Heads, one: u64, two: u64) -> Result<bool, Memory>
    requires { IsReadBy heads.now.now last.old }
    ensures { IsReadBy heads.now.now last.new }
{
    let are_both = reads_pair(last, heads, (one, two), (7, 9))?;
    let are_first = reads_pair(last, heads, (one, one), (7, 7))?;
    Ok(are_both && are_first && reads_pair(last, heads, (two, one), (9, 7))?)
}

/// Whether two numbers are read, then two others, and then one more behind them.
fn reads_numbers(last: &mut LastRow, heads: &Heads) -> Result<bool, Memory>
    requires { IsReadBy heads.now.now last.old }
    ensures { IsReadBy heads.now.now last.new }
{
    last.read(heads, &Cells::of(&[Cell::Num(4), Cell::Num(-1)]))?;
    let are_first = are_numbers(&last.row, 4, -1);
    let others = Cells::of(&[Cell::Num(7), Cell::Num(0)]);
    last.read(heads, &others)?;
    let are_others = are_numbers(&last.row, 7, 0);
    last.read(heads, &others.with(Cell::Num(5)))?;
    let are_three = last.row.len() == 3 && matches!(last.row.part(2), Some(Part::Num(5)));
    Ok(are_first && are_others && are_three)
}

/// Whether rows are read one after the other, and pairs again after numbers and once all is forgotten.
fn reads_all(last: &mut LastRow, heads: &Heads, one: u64, two: u64) -> Result<bool, Memory>
    requires { IsReadBy heads.now.now last.old }
{
    let pairs = reads_pairs(last, heads, one, two)?;
    let numbers = reads_numbers(last, heads)?;
    let again = reads_pairs(last, heads, one, two)?;
    last.forget();
    Ok(pairs && numbers && again && reads_pairs(last, heads, one, two)?)
}

/// Whether rows are read one after the other into a new one.
fn reads_on(alloc: Global, heads: &Heads, one: u64, two: u64) -> Result<bool, Memory> {
    let mut last = LastRow::new(alloc);
    reads_all(&mut last, heads, one, two)
}

/// Whether rows of two records are read, and of numbers.
fn reads_rows(alloc: Global, heads: &mut Heads) -> Result<bool, Memory> {
    let one = heads.add(record(alloc, 7))?;
    let two = heads.add(record(alloc, 9))?;
    Ok(reads_three(heads, one, two)? && reads_one(heads, one)? && reads_on(alloc, heads, one, two)?)
}

#[test]
fn rows_are_read_through_the_heads(rt: HostRuntime) -> Result<(), Fail> {
    let alloc = rt.alloc();
    let mut heads = Heads::new(alloc);
    assert!(rt; reads_rows(alloc, &mut heads)?);
    Ok(())
}

/// Three rows.
#[derive(Clone, Copy)]
struct Rows {
    one: Cells,
    two: Cells,
    three: Cells,
}

/// Whether just those of the three rows are kept that should be.
fn has_just(kept: &Indexed<Cells>, rows: &Rows, one: bool, two: bool, three: bool) -> bool {
    kept.has(&rows.one) == one && kept.has(&rows.two) == two && kept.has(&rows.three) == three
}

/// Whether two rows come, and a trial that changes them is taken back.
fn comes_and_goes(kept: &mut Indexed<Cells>, rows: &Rows) -> Result<bool, Memory>
    requires { kept.old.is_open ≡ false }
    ensures { OnOk result (kept.new.is_open ≡ false) }
{
    kept.come_all(&[rows.one, rows.two])?;
    kept.begin();
    kept.leave_all(&[rows.one]);
    kept.come_all(&[rows.three])?;
    let within = has_just(kept, rows, false, true, true);
    kept.rollback();
    Ok(within && has_just(kept, rows, true, true, false))
}

/// Whether a row that goes in a trial stays away once it is kept.
fn goes_for_good(kept: &mut Indexed<Cells>, rows: &Rows) -> bool
    requires { kept.old.is_open ≡ false }
{
    kept.begin();
    kept.leave_all(&[rows.two]);
    kept.commit();
    has_just(kept, rows, true, false, false)
}

/// Whether rows come and go, in a trial and for good.
fn keeps_rows(kept: &mut Indexed<Cells>) -> Result<bool, Memory>
    requires { kept.old.is_open ≡ false }
{
    let rows = Rows {
        one: Cells::of(&[Cell::Place(1), Cell::Place(2)]),
        two: Cells::of(&[Cell::Place(2), Cell::Place(1)]),
        three: Cells::of(&[Cell::Place(2), Cell::Num(1)]),
    };
    let comes = comes_and_goes(kept, &rows)?;
    Ok(comes && goes_for_good(kept, &rows))
}

#[test]
fn indexed_rows_come_and_go(rt: HostRuntime) -> Result<(), Fail> {
    let mut kept = Indexed::new(rt.alloc());
    assert!(rt; keeps_rows(&mut kept)?);
    Ok(())
}

/// How many members of a side have these first numbers.
fn count_under(side: &Side, numbers: &[i64]) -> usize
    requires { length numbers.now ≤ 4 }
{
    side.under(&Key::of(numbers)).len()
}

/// Whether both members are found by the first of their numbers, and one alone by both of its.
fn has_both(side: &Side) -> bool {
    count_under(side, &[5]) == 2 && count_under(side, &[5, 8]) == 2 && count_under(side, &[9]) == 0
}

/// Whether the second row alone is there, with its numbers.
fn has_second(side: &Side, one: &Cells, two: &Cells) -> bool {
    count_under(side, &[5]) == 1
        && side.find(one).is_none()
        && matches!(side.find(two), Some(member) if member.numbers == Key::of(&[5, 8]))
}

/// Whether one row comes, and a trial in which another comes and the first one goes is taken back.
fn side_turns(side: &mut Side, one: &Cells, two: &Cells) -> Result<bool, Memory>
    requires { side.old.rows.is_open ≡ false }
    ensures { OnOk result (side.new.rows.is_open ≡ false) }
{
    side.come(Member {
        cells: *one,
        numbers: Key::of(&[5, 9]),
    })?;
    side.begin();
    side.come_all(&[Member {
        cells: *two,
        numbers: Key::of(&[5, 8]),
    }])?;
    let both = has_both(side);
    side.leave_all(&[*one]);
    let second = has_second(side, one, two);
    side.rollback();
    Ok(both && second && side.find(one).is_some() && side.find(two).is_none())
}

/// Whether a row that goes in a trial stays away once it is kept.
fn side_empties(side: &mut Side, one: &Cells) -> bool
    requires { side.old.rows.is_open ≡ false }
{
    side.begin();
    side.leave(one);
    side.commit();
    count_under(side, &[5]) == 0
}

/// Whether rows come to a side and go, in a trial and for good.
fn keeps_members(side: &mut Side) -> Result<bool, Memory>
    requires { side.old.rows.is_open ≡ false }
{
    let one = Cells::of(&[Cell::Place(1)]);
    let two = Cells::of(&[Cell::Place(2)]);
    let turns = side_turns(side, &one, &two)?;
    Ok(turns && side_empties(side, &one))
}

#[test]
fn rows_of_a_side_are_found_by_the_first_of_their_numbers(rt: HostRuntime) -> Result<(), Fail> {
    let mut side = Side::new(rt.alloc(), 1);
    assert!(rt; keeps_members(&mut side)?);
    Ok(())
}
