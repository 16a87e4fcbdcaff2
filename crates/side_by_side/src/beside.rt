// The calling thread begins all the others: a thread that one begins right after its own start may be kept on that one's
// processor, though others are idle.
ghost use Rattle.std.specs.Fork.{AcceptsAt, AcceptsEach, ChangesAt, ChangesEach};
ghost use Rattle.std.specs.Thread.{IsSend, IsSync};
ghost use Rattle.side_by_side.specs.Places.{AcceptsFrom, ChangesFrom};

use std::thread::{Threads, join_mut};

/// Calls `f(i, &mut s[i])` at each place, each in a thread of its own where one can be made, and `own` in the thread that calls,
/// which begins all the others. The stack grows with the number of places.
pub fn each_beside<R: Threads + Sync, T: Send, F: Fn(usize, &mut T) + Sync, G: FnMut()>(
    rt: &R,
    s: &mut [T],
    f: &F,
    own: &mut G,
)
    requires each { AcceptsEach F.Fn f.now s.old }
    requires own { G.pre own.old }
    ensures each { ChangesEach F.Fn f.now s.old s.new }
    ensures own { G.step own.old result own.new }
{
    each_from(rt, f, 0, s, own);
}

/// The same of a slice that stands from this place on.
#[cycle(beside)]
fn each_from<R: Threads + Sync, T: Send, F: Fn(usize, &mut T) + Sync, G: FnMut()>(
    rt: &R,
    f: &F,
    place: usize,
    s: &mut [T],
    own: &mut G,
)
    requires each { AcceptsFrom F.Fn f.now place s.old }
    requires own { G.pre own.old }
    ensures each { ChangesFrom F.Fn f.now place s.old s.new }
    ensures own { G.step own.old result own.new }
{
    match s.split_first_mut() {
        Some((first, rest)) => first_and_rest(rt, f, place, first, place + 1, rest, own),
        None => own(),
    }
}

/// The first in a thread of its own, and the rest beside it.
#[cycle(beside)]
fn first_and_rest<R: Threads + Sync, T: Send, F: Fn(usize, &mut T) + Sync, G: FnMut()>(
    rt: &R,
    f: &F,
    place: usize,
    first: &mut T,
    next: usize,
    rest: &mut [T],
    own: &mut G,
)
    requires first { AcceptsAt F.Fn f.now place first.old }
    requires rest { AcceptsFrom F.Fn f.now next rest.old }
    requires own { G.pre own.old }
    ensures first { ChangesAt F.Fn f.now place first.old first.new }
    ensures rest { ChangesFrom F.Fn f.now next rest.old rest.new }
    ensures own { G.step own.old result own.new }
{
    let mut one = ||
        requires { AcceptsAt F.Fn f.now place first.now }
        ensures { ChangesAt F.Fn f.entry.now place first.entry.now first.exit.now }
    { call_at(f, place, first) };
    let mut others = ||
        requires { IsSync R.row × IsSync F.row × IsSend T.row × AcceptsFrom F.Fn f.now next rest.now × G.pre own.now }
        ensures rest { ChangesFrom F.Fn f.entry.now next rest.entry.now rest.exit.now }
        ensures own { G.step own.entry.now result own.exit.now }
    { each_from(rt, f, next, rest, own) };
    join_mut(rt, &mut one, &mut others);
}

/// A call at one place.
fn call_at<T, F: Fn(usize, &mut T)>(f: &F, place: usize, it: &mut T)
    requires { AcceptsAt F.Fn f.now place it.old }
    ensures { ChangesAt F.Fn f.now place it.old it.new }
{
    f(place, it);
}
