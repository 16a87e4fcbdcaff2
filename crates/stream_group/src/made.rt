//! What is made of the rows at some places, where each of their numbers counts.
ghost use Rattle.std.specs.Prelude.{◌≡◌, ◌∷◌, [], false, map};
ghost use Rattle.std.specs.FinMap as finmap;
ghost use Rattle.std.specs.List.{filter_map};
ghost use Rattle.stream_group.specs.Collected.{MakesMore, counts_different};
ghost use Rattle.stream_group.specs.Keyed.{number_in, numbers_staying};
ghost use Rattle.stream_group.specs.Tally.{TalliesMore};

use crate::change::{Change, goes, number_after};
use crate::tally::{Tally, with_more};
use plan_rules::Collect;
use stream_heads::Side;

/// What was made of rows before the changes of a run, and of those that stay after them.
#[derive(Clone, Copy)]
struct Made {
    before: Option<i64>,
    after: Option<i64>,
}

/// What is made of one number more, which counts.
fn made_more(collect: Collect, made: Option<i64>, number: i64) -> Option<i64>
    requires { counts_different collect ≡ false }
    ensures { MakesMore collect made result (number ∷ []) }
{
    Some(with_more(collect, made, number, true))
}

/// What is made of the row at a place besides: before the changes of a run, and after them if it stays.
fn add_place(
    members: &Side,
    place: u64,
    run: &[Change],
    width: usize,
    collect: Collect,
    made: Made,
) -> Made
    requires { counts_different collect ≡ false }
    ensures before { let there = filter_map (finmap.get members.now.rows.now) (place ∷ []) in
        MakesMore collect made.before result.before (map (number_in width) there) }
    ensures after { let there = filter_map (finmap.get members.now.rows.now) (place ∷ []) in
        MakesMore collect made.after result.after (numbers_staying width run.now there) }
{
    let Some(member) = members.live(place) else {
        return made;
    };
    let number = number_after(&member.numbers, width);
    let before = made_more(collect, made.before, number);
    if goes(run, member) {
        return Made {
            before,
            after: made.after,
        };
    }
    Made {
        before,
        after: made_more(collect, made.after, number),
    }
}

/// Takes the collected numbers of the rows at these places: before the changes of a run, and after them of those that
/// stay. What is made of them is kept in hand till the end.
pub fn add_places(
    members: &Side,
    places: &[u64],
    run: &[Change],
    width: usize,
    before: &mut Tally,
    after: &mut Tally,
)
    requires same { after.old.collect ≡ before.old.collect }
    requires each { counts_different before.old.collect ≡ false }
    ensures before { let there = filter_map (finmap.get members.now.rows.now) places.now in
        TalliesMore before.old before.new (map (number_in width) there) }
    ensures after { let there = filter_map (finmap.get members.now.rows.now) places.now in
        TalliesMore after.old after.new (numbers_staying width run.now there) }
    ensures collect_before { before.new.collect ≡ before.old.collect }
    ensures collect_after { after.new.collect ≡ after.old.collect }
{
    let collect = before.collect;
    let mut made = Made {
        before: before.made,
        after: after.made,
    };
    for place in places {
        made = add_place(members, *place, run, width, collect, made);
    }
    before.made = made.before;
    after.made = made.after;
}
