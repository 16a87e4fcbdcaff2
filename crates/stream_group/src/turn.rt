//! What the changed rows of each key make of its group.
ghost use Rattle.std.specs.Prelude.{◌≡◌, ◌≤◌, ◌++◌, ◌∷◌, [], OnOk, true, IsSortedBy, length, map, take};
ghost use Rattle.std.specs.FinMap as map;
ghost use Rattle.std.specs.List.{filter_map};
ghost use Rattle.stream_heads.specs.Sides.{members_of};
ghost use Rattle.stream_group.specs.Collected.{counts_different};
ghost use Rattle.stream_group.specs.Keyed.{IsRun, changed, is_before, number_in, numbers_coming, numbers_staying};
ghost use Rattle.stream_group.specs.Tally.{TalliesMore};
ghost use Rattle.stream_group.specs.Turns.{MakesLater, MakesUnder, TurnsAll, TurnsKey, group_cells, rows_of_key, unless_same};

use crate::change::{Change, first, goes, number_after, run_len};
use crate::count::count_run;
use crate::grouping::Grouping;
use crate::made::add_places;
use crate::tally::Tally;
use crate::words::{Words, note_places};
use plan_facts::Memory;
use plan_rules::Collect;
use stream_heads::{Cell, Cells, CellsDelta, Member, Side};
use stream_index::Key;

/// The row of a group: its key's numbers, of which there are at most two, then the collected one.
fn group_cells(key: &[i64], number: i64) -> Cells
    requires { length key.now ≤ 2 }
    ensures { result ≡ group_cells key.now number }
{
    match key {
        [one] => Cells::of(&[Cell::Num(*one), Cell::Num(number)]),
        [one, other] => Cells::of(&[Cell::Num(*one), Cell::Num(*other), Cell::Num(number)]),
        _ => Cells::of(&[Cell::Num(number)]),
    }
}

/// Appends the row of a group, if something was made of its rows.
#[inline(always)]
fn push_group(key: &[i64], made: Option<i64>, into: &mut Vec<Cells>) -> Result<(), Memory>
    requires { length key.now ≤ 2 }
    ensures { OnOk result (into.new.items ≡ into.old.items ++ rows_of_key key.now made) }
{
    if let Some(number) = made {
        into.push(group_cells(key, number))?;
    }
    Ok(())
}

/// The old row of a group goes and the new one comes, unless it is the same.
fn push_turn(
    key: &[i64],
    before: Option<i64>,
    after: Option<i64>,
    out: &mut CellsDelta,
) -> Result<(), Memory>
    requires { length key.now ≤ 2 }
    ensures gone { OnOk result (out.new.gone.items ≡ out.old.gone.items
        ++ unless_same before after (rows_of_key key.now before)) }
    ensures come { OnOk result (out.new.come.items ≡ out.old.come.items
        ++ unless_same before after (rows_of_key key.now after)) }
{
    if before == after {
        return Ok(());
    }
    push_group(key, before, &mut out.gone)?;
    push_group(key, after, &mut out.come)?;
    Ok(())
}

/// Takes the collected number of the row at a place: before the changes of a run, and after them if it stays.
fn tally_place(
    members: &Side,
    place: u64,
    run: &[Change],
    width: usize,
    before: &mut Tally,
    after: &mut Tally,
) -> Result<(), Memory>
    ensures before { let there = filter_map (map.get members.now.rows.now) (place ∷ []) in
        OnOk result (TalliesMore before.old before.new (map (number_in width) there)) }
    ensures after { let there = filter_map (map.get members.now.rows.now) (place ∷ []) in
        OnOk result (TalliesMore after.old after.new (numbers_staying width run.now there)) }
    ensures collect_before { before.new.collect ≡ before.old.collect }
    ensures collect_after { after.new.collect ≡ after.old.collect }
{
    let Some(member) = members.live(place) else {
        return Ok(());
    };
    let number = number_after(&member.numbers, width);
    before.add(number)?;
    if !goes(run, member) {
        after.add(number)?;
    }
    Ok(())
}

/// Takes the collected numbers of the rows at these places: before the changes of a run, and after them of those that
/// stay.
fn tally_places(
    members: &Side,
    places: &[u64],
    run: &[Change],
    width: usize,
    before: &mut Tally,
    after: &mut Tally,
) -> Result<(), Memory>
    ensures before { let there = filter_map (map.get members.now.rows.now) places.now in
        OnOk result (TalliesMore before.old before.new (map (number_in width) there)) }
    ensures after { let there = filter_map (map.get members.now.rows.now) places.now in
        OnOk result (TalliesMore after.old after.new (numbers_staying width run.now there)) }
    ensures collect_before { before.new.collect ≡ before.old.collect }
    ensures collect_after { after.new.collect ≡ after.old.collect }
{
    for place in places {
        tally_place(members, *place, run, width, before, after)?;
    }
    Ok(())
}

/// The same, where different numbers count. As long as these are from 0 to 63, words of them are kept in hand.
fn tally_different(
    members: &Side,
    places: &[u64],
    run: &[Change],
    width: usize,
    before: &mut Tally,
    after: &mut Tally,
) -> Result<(), Memory>
    requires same { after.old.collect ≡ before.old.collect }
    requires different { counts_different before.old.collect ≡ true }
    ensures before { let there = filter_map (map.get members.now.rows.now) places.now in
        OnOk result (TalliesMore before.old before.new (map (number_in width) there)) }
    ensures after { let there = filter_map (map.get members.now.rows.now) places.now in
        OnOk result (TalliesMore after.old after.new (numbers_staying width run.now there)) }
    ensures collect_before { before.new.collect ≡ before.old.collect }
    ensures collect_after { after.new.collect ≡ after.old.collect }
{
    let words = Words {
        before: before.word(),
        after: after.word(),
    };
    let Some(words) = note_places(members, places, run, width, words) else {
        return tally_places(members, places, run, width, before, after);
    };
    before.set_word(words.before);
    after.set_word(words.after);
    Ok(())
}

/// The same, where both tallies have one collector. What is made of rows of which each counts is kept in hand.
fn tally_there(
    members: &Side,
    places: &[u64],
    run: &[Change],
    width: usize,
    before: &mut Tally,
    after: &mut Tally,
) -> Result<(), Memory>
    requires { after.old.collect ≡ before.old.collect }
    ensures before { let there = filter_map (map.get members.now.rows.now) places.now in
        OnOk result (TalliesMore before.old before.new (map (number_in width) there)) }
    ensures after { let there = filter_map (map.get members.now.rows.now) places.now in
        OnOk result (TalliesMore after.old after.new (numbers_staying width run.now there)) }
    ensures collect_before { before.new.collect ≡ before.old.collect }
    ensures collect_after { after.new.collect ≡ after.old.collect }
{
    if before.counts_different() {
        return tally_different(members, places, run, width, before, after);
    }
    add_places(members, places, run, width, before, after);
    Ok(())
}

/// Takes the collected number of a row that comes.
fn tally_change(change: &Change, width: usize, tally: &mut Tally) -> Result<(), Memory>
    ensures tallies { OnOk result (TalliesMore tally.old tally.new (numbers_coming width (change.now ∷ []))) }
    ensures collect { tally.new.collect ≡ tally.old.collect }
{
    if change.comes {
        tally.add(number_after(&change.member.numbers, width))?;
    }
    Ok(())
}

/// Takes the collected numbers of the rows that come.
fn tally_come(run: &[Change], width: usize, tally: &mut Tally) -> Result<(), Memory>
    ensures tallies { OnOk result (TalliesMore tally.old tally.new (numbers_coming width run.now)) }
    ensures collect { tally.new.collect ≡ tally.old.collect }
{
    for change in run {
        tally_change(change, width, tally)?;
    }
    Ok(())
}

/// Tallies the rows under a key before the changes of a run are done, and those after. Each row is looked at once.
fn visit_run(
    by: &Grouping,
    members: &Side,
    key: &Key,
    run: &[Change],
    before: &mut Tally,
    after: &mut Tally,
) -> Result<(), Memory>
    requires width { members.now.width ≡ length by.now.keys }
    requires run { IsRun (length by.now.keys) key.now run.now }
    ensures before { let kept = members_of members.now in
        OnOk result (MakesUnder by.now kept (take (length by.now.keys) key.now) before.new.made) }
    ensures after { let later = changed run.now (members_of members.now) in
        OnOk result (MakesUnder by.now later (take (length by.now.keys) key.now) after.new.made) }
{
    let width = by.keys.len();
    before.restart(by.collect);
    after.restart(by.collect);
    tally_there(members, members.under(key), run, width, before, after)?;
    tally_come(run, width, after)?;
    Ok(())
}

/// Tallies the rows under a key before the changes of a run are done, and those after, where the rows that go are there.
/// Each row is looked at once, and none where they are counted.
fn tally_run(
    by: &Grouping,
    members: &Side,
    key: &Key,
    run: &[Change],
    before: &mut Tally,
    after: &mut Tally,
) -> Result<(), Memory>
    requires width { members.now.width ≡ length by.now.keys }
    requires run { IsRun (length by.now.keys) key.now run.now }
    ensures before { let kept = members_of members.now in
        OnOk result (MakesUnder by.now kept (take (length by.now.keys) key.now) before.new.made) }
    ensures after { let kept = members_of members.now in
        OnOk result (MakesLater by.now kept run.now (take (length by.now.keys) key.now) after.new.made) }
{
    match by.collect {
        Collect::Count => {
            count_run(members, key, run, before, after);
            Ok(())
        }
        _ => visit_run(by, members, key, run, before, after),
    }
}

/// What the changes of a run, which all have one key, make of its group.
fn turn(
    by: &Grouping,
    members: &Side,
    key: &Key,
    run: &[Change],
    before: &mut Tally,
    after: &mut Tally,
    out: &mut CellsDelta,
) -> Result<(), Memory>
    requires width { members.now.width ≡ length by.now.keys }
    requires few { length by.now.keys ≤ 2 }
    requires run { IsRun (length by.now.keys) key.now run.now }
    ensures { let kept = members_of members.now in
        OnOk result (TurnsKey by.now kept run.now (take (length by.now.keys) key.now) out.old out.new) }
{
    tally_run(by, members, key, run, before, after)?;
    push_turn(first(key, by.keys.len()), before.made, after.made, out)?;
    Ok(())
}

/// What changes, which stand in the order of their keys, make of their groups.
pub fn turn_all(
    by: &Grouping,
    members: &Side,
    changes: &[Change],
    before: &mut Tally,
    after: &mut Tally,
    out: &mut CellsDelta,
) -> Result<(), Memory>
    requires width { members.now.width ≡ length by.now.keys }
    requires few { length by.now.keys ≤ 2 }
    requires sorted { IsSortedBy (is_before (length by.now.keys)) changes.now }
    ensures { OnOk result (TurnsAll by.now (members_of members.now) changes.now out.old out.new) }
{
    let width = by.keys.len();
    let mut rest = changes;
    while let Some(change) = rest.first() {
        let key = change.member.numbers;
        let len = run_len(rest, first(&key, width), width);
        turn(by, members, &key, &rest[..len], before, after, out)?;
        rest = &rest[len..];
    }
    Ok(())
}
