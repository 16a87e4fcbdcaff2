//! How many different numbers the rows at some places have, where all of these are from 0 to 63.
ghost use Rattle.std.specs.Prelude.{◌≡◌, ◌∷◌, [], IfSome, map, true};
ghost use Rattle.std.specs.FinMap as finmap;
ghost use Rattle.std.specs.List.{filter_map};
ghost use Rattle.stream_group.specs.Collected.{different_more};
ghost use Rattle.stream_group.specs.Keyed.{number_in, numbers_staying};
ghost use Rattle.stream_group.specs.Noted.{is_small};
ghost use Rattle.stream_group.specs.Words.{WordTakes};

use crate::change::{Change, goes, number_after};
use crate::noted::is_small;
use stream_heads::Side;

/// Numbers from 0 to 63 as the bits of a word, and how many different ones they are; nothing of none.
#[derive(Clone, Copy)]
pub struct Word {
    pub bits: u64,
    pub made: Option<i64>,
}

/// The numbers of rows before the changes of a run, and of those that stay after them.
#[derive(Clone, Copy)]
pub struct Words {
    pub before: Word,
    pub after: Word,
}

/// How many different numbers there are with one more.
fn different_more(made: Option<i64>, is_new: bool) -> i64
    ensures { result ≡ different_more made is_new }
{
    match made {
        None => 1,
        Some(made) => { if is_new { made.saturating_add(1) } else { made } }
    }
}

/// A word with a number besides.
fn word_more(word: Word, number: i64) -> Word
    requires { is_small number ≡ true }
    ensures { WordTakes word result (number ∷ []) }
{
    let bit = 1 << (number as u32);
    let is_new = word.bits & bit == 0;
    Word {
        bits: word.bits | bit,
        made: Some(different_more(word.made, is_new)),
    }
}

/// The words with the number of the row at a place besides: before the changes of a run, and after them if it stays.
/// There are none if the number isn't from 0 to 63.
fn note_place(
    members: &Side,
    place: u64,
    run: &[Change],
    width: usize,
    words: Words,
) -> Option<Words>
    ensures before { let there = filter_map (finmap.get members.now.rows.now) (place ∷ []) in
        IfSome result (λ more. WordTakes words.before more.before (map (number_in width) there)) }
    ensures after { let there = filter_map (finmap.get members.now.rows.now) (place ∷ []) in
        IfSome result (λ more. WordTakes words.after more.after (numbers_staying width run.now there)) }
{
    let Some(member) = members.live(place) else {
        return Some(words);
    };
    let number = number_after(&member.numbers, width);
    if !is_small(number) {
        return None;
    }
    let before = word_more(words.before, number);
    if goes(run, member) {
        return Some(Words {
            before,
            after: words.after,
        });
    }
    Some(Words {
        before,
        after: word_more(words.after, number),
    })
}

/// The words with the numbers of the rows at these places besides: before the changes of a run, and after them of those
/// that stay. There are none if a number isn't from 0 to 63.
pub fn note_places(
    members: &Side,
    places: &[u64],
    run: &[Change],
    width: usize,
    words: Words,
) -> Option<Words>
    ensures before { let there = filter_map (finmap.get members.now.rows.now) places.now in
        IfSome result (λ more. WordTakes words.before more.before (map (number_in width) there)) }
    ensures after { let there = filter_map (finmap.get members.now.rows.now) places.now in
        IfSome result (λ more. WordTakes words.after more.after (numbers_staying width run.now there)) }
{
    let mut so_far = words;
    for place in places {
        so_far = note_place(members, *place, run, width, so_far)?;
    }
    Some(so_far)
}
