ghost use Rattle.std.specs.Prelude.{◌≡◌};
ghost use Rattle.std.specs.Thread.{IsSync};

use crate::entry_numbers;
use change_inbox::{Entry, Inbox, Journal, Kept, Memory, PostAnswer, Seat};
use std::alloc::Global;
use std::sync::Wait;
use std::test::Fail;
use std::thread::{Threads, join};

/// A body for tests.
#[derive(Clone, Copy, Debug, PartialEq, Eq)]
struct Word(u32);

impl Kept for Word {
    fn copy(&self, _alloc: Global) -> Result<Word, Memory> {
        Ok(*self)
    }
}

// An entry as four numbers: its kind, its seat, and what it carries.
fn numbers(entry: Option<&Entry<Word>>) -> [u32; 4] {
    let Some(entry) = entry else {
        return [0; 4];
    };
    let (kind, seat, number) = entry_numbers(entry);
    let word = match entry {
        Entry::Post { body, .. } => body.0,
        _ => 0,
    };
    [kind, seat, number, word]
}

// What became of a post, as two numbers: 0 and its number where it is stored, 1 and the word where the journal is full,
// 2 and the word where it is shut.
fn answer(answer: PostAnswer<Word>) -> [u32; 2] {
    match answer {
        PostAnswer::Stored(number) => [0, number],
        PostAnswer::Full(body) => [1, body.0],
        PostAnswer::Shut(body) => [2, body.0],
    }
}

// Posts a word.
fn post_word<W: Wait>(rt: &W, inbox: &Inbox<Word>, seat: &mut Seat<Word>, word: u32) -> [u32; 2]
    requires { seat.old.inbox ≡ inbox.now }
    ensures { (seat.new.inbox ≡ inbox.now) × (seat.new.number ≡ seat.old.number) }
{
    answer(inbox.post(rt, seat, Word(word)))
}

// The first place at which the journal has another entry than that; none where it has these entries and no others.
fn wrong_entry(journal: &Journal<Word>, wanted: &[[u32; 4]]) -> Option<usize> {
    for (place, entry) in wanted.iter().enumerate() {
        if numbers(journal.entry(place)) != *entry {
            return Some(place);
        }
    }
    None
}

const POST_CUT_SHUT: &[[u32; 4]] = &[[1, 0, 0, 7], [2, 1, 0, 0], [3, 1, 0, 0], [0, 0, 0, 0]];

#[test]
fn a_journal_of_one_post(rt: HostRuntime) -> Result<(), Fail> {
    let (inbox, mut seats) = Inbox::<Word>::open(rt.alloc(), 2, 1, 2)?;
    let (Some(mut q), Some(mut p)) = (seats.pop(), seats.pop()) else {
        panic!(rt; "there are two seats")
    };
    assert!(rt; post_word(&rt, &inbox, &mut p, 7) == [0, 0]);
    assert!(rt; inbox.cut(&rt, &mut q, 0) == 1);
    assert!(rt; post_word(&rt, &inbox, &mut p, 8) == [1, 8]);
    assert!(rt; inbox.post_at(&rt, &mut p, 0) == Ok(Some(Word(7))));
    assert!(rt; inbox.post_at(&rt, &mut p, 1) == Ok(None));
    inbox.shut(&rt, &mut q);
    assert!(rt; post_word(&rt, &inbox, &mut p, 9) == [2, 9]);
    inbox.meet(&mut q, &mut p);
    seats.push(p)?;
    seats.push(q)?;
    let journal = inbox.close(seats);
    assert!(rt; journal.len() == 3);
    assert!(rt; !journal.is_empty());
    assert!(rt; wrong_entry(&journal, POST_CUT_SHUT) == None);
    Ok(())
}

#[test]
fn two_seats_close_without_a_list(rt: HostRuntime) -> Result<(), Fail> {
    let (inbox, mut seats) = Inbox::<Word>::open(rt.alloc(), 2, 1, 1)?;
    let (Some(mut q), Some(mut p)) = (seats.pop(), seats.pop()) else {
        panic!(rt; "there are two seats")
    };
    assert!(rt; post_word(&rt, &inbox, &mut p, 7) == [0, 0]);
    assert!(rt; inbox.cut(&rt, &mut q, 0) == 1);
    inbox.shut(&rt, &mut q);
    let journal = inbox.close_both(p, q);
    assert!(rt; wrong_entry(&journal, POST_CUT_SHUT) == None);
    Ok(())
}

// Posts each word twice, 500 posts in all.
fn post_all<W: Wait>(rt: &W, inbox: &Inbox<Word>, mut seat: Seat<Word>) -> Seat<Word>
    requires { seat.inbox ≡ inbox.now }
    ensures { (result.inbox ≡ inbox.now) × (result.number ≡ seat.number) }
{
    for n in 0..500 {
        let _ = inbox.post(rt, &mut seat, Word(n / 2));
    }
    seat
}

// Two seats post, each in a thread.
fn post_by_two<R: Threads + Wait + Sync>(
    rt: &R,
    inbox: &Inbox<Word>,
    first: Seat<Word>,
    second: Seat<Word>,
) -> (Seat<Word>, Seat<Word>)
    requires { (first.inbox ≡ inbox.now) × (second.inbox ≡ inbox.now) }
    ensures first { (result.0.inbox ≡ inbox.now) × (result.0.number ≡ first.number) }
    ensures second { (result.1.inbox ≡ inbox.now) × (result.1.number ≡ second.number) }
{
    join(
        rt,
        move || -> Seat<Word>
            requires { first.inbox ≡ inbox.now }
            ensures { (result.inbox ≡ inbox.entry.now) × (result.number ≡ first.number) }
        { post_all(rt, inbox, first) },
        move || -> Seat<Word>
            requires { second.inbox ≡ inbox.now }
            ensures { (result.inbox ≡ inbox.entry.now) × (result.number ≡ second.number) }
        { post_all(rt, inbox, second) },
    )
}

// Three seats post, each in a thread.
fn post_by_three<R: Threads + Wait + Sync>(
    rt: &R,
    inbox: &Inbox<Word>,
    first: Seat<Word>,
    second: Seat<Word>,
    third: Seat<Word>,
) -> (Seat<Word>, (Seat<Word>, Seat<Word>))
    requires first { first.inbox ≡ inbox.now }
    requires others { (second.inbox ≡ inbox.now) × (third.inbox ≡ inbox.now) }
    ensures first { result.0.inbox ≡ inbox.now }
    ensures second { result.1.0.inbox ≡ inbox.now }
    ensures third { (result.1.1.inbox ≡ inbox.now) × (result.1.1.number ≡ third.number) }
{
    join(
        rt,
        move || -> Seat<Word>
            requires { first.inbox ≡ inbox.now }
            ensures { result.inbox ≡ inbox.entry.now }
        { post_all(rt, inbox, first) },
        move || -> (Seat<Word>, Seat<Word>)
            requires { IsSync R.row × (second.inbox ≡ inbox.now) × (third.inbox ≡ inbox.now) }
            ensures { (result.0.inbox ≡ inbox.entry.now) × (result.1.inbox ≡ inbox.entry.now) × (result.1.number ≡ third.number) }
        { post_by_two(rt, inbox, second, third) },
    )
}

// How many posts of the seat stand in the journal, in their order.
fn posts_in_order(journal: &Journal<Word>, seat: u32) -> u32 {
    let mut next = 0u32;
    for place in 0..journal.len() {
        if numbers(journal.entry(place)) == [1, seat, next, next / 2] {
            next = next.saturating_add(1);
        }
    }
    next
}

#[test]
fn three_threads_post_each_word_once_and_in_order(rt: HostRuntime) -> Result<(), Fail> {
    let (inbox, mut seats) = Inbox::<Word>::open(rt.alloc(), 3, 1500, 1)?;
    let (Some(c), Some(b), Some(a)) = (seats.pop(), seats.pop(), seats.pop()) else {
        panic!(rt; "there are three seats")
    };
    let (a, (mut b, c)) = post_by_three(&rt, &inbox, a, b, c);
    assert!(rt; matches!(inbox.post_at(&rt, &mut b, 1499), Ok(Some(_))));
    assert!(rt; post_word(&rt, &inbox, &mut b, 0) == [1, 0]);
    seats.push(a)?;
    seats.push(b)?;
    seats.push(c)?;
    let journal = inbox.close(seats);
    assert!(rt; journal.len() == 1500);
    for seat in 0..3 {
        assert!(rt; posts_in_order(&journal, seat) == 500, "of seat {seat}");
    }
    Ok(())
}

/// A body that cannot be copied, for want of memory.
#[derive(Debug, PartialEq, Eq, Drop)]
struct Heavy;

impl Kept for Heavy {
    fn copy(&self, _alloc: Global) -> Result<Heavy, Memory> {
        Err(Memory)
    }
}

#[test]
fn a_post_that_cannot_be_copied_stays_in_the_journal(rt: HostRuntime) -> Result<(), Fail> {
    let (inbox, mut seats) = Inbox::<Heavy>::open(rt.alloc(), 1, 1, 0)?;
    let Some(mut seat) = seats.pop() else {
        panic!(rt; "there is a seat")
    };
    assert!(rt; matches!(inbox.post(&rt, &mut seat, Heavy), PostAnswer::Stored(0)));
    assert!(rt; inbox.post_at(&rt, &mut seat, 0) == Err(Memory));
    assert!(rt; inbox.post_at(&rt, &mut seat, 1) == Ok(None));
    seats.push(seat)?;
    assert!(rt; inbox.close(seats).len() == 1);
    Ok(())
}
