//! The seat of a run that cuts.

use crate::copying::copy_posts;
use change_inbox::{Inbox, Kept, Memory, Seat};
use plan_facts::List;
use std::alloc::Global;
use std::marker::Model;
use std::sync::Wait;

/// The seat that cuts a journal and takes the posts that came, each once. It posts nothing. Its meaning is the seat.
#[derive(Drop)]
pub struct Cutter<T> {
    alloc: Global,
    seat: Seat<T>,
    taken: u32,
}

impl<T> Model for Cutter<T> {
    ghost use Rattle.change_inbox.specs.Seats.{SeatView};
    ghost use Rattle.live_posts.specs.Cuts.{IsCutter};

    ghost Value = { SeatView T };

    ghost view = { λ c. c.seat };

    ghost invariant = { λ c. IsCutter c.seat c.taken };
}

impl<T: Kept> Cutter<T> {
    ghost use Rattle.std.specs.Prelude.{◌≡◌, ℕ, ◌+◌, ◌<◌, ◌∷◌, ◌++◌, [], List, length, IfOk};
    ghost use mathlib.Core.List.{IsPrefix};
    ghost use Rattle.change_inbox.specs.Books.{cut, shut};
    ghost use Rattle.change_inbox.specs.Entries.{posts_in, shuts_in};
    ghost use Rattle.change_inbox.specs.Seats.{own_of};
    ghost use Rattle.live_posts.specs.Cuts.{posts_taken, take_at, taken_by};

    /// The cutter of a seat that has done nothing.
    pub fn new(alloc: Global, seat: Seat<T>) -> Cutter<T>
        requires { own_of seat ≡ [] }
        ensures { result ≡ seat }
    {
        Cutter {
            alloc,
            seat,
            taken: 0,
        }
    }

    /// The seat again.
    pub fn into_seat(self) -> Seat<T>
        ensures same { result ≡ self }
        ensures posts_nothing { length (posts_in (own_of self)) ≡ 0 }
    {
        let Cutter {
            alloc: _,
            seat,
            taken: _,
        } = self;
        seat
    }

    /// Cuts at a boundary, and gives copies of the posts that came since the cut before it, in order. The cut stands at want of
    /// memory too. It may wait.
    pub fn cut<W: Wait>(
        &mut self,
        rt: &W,
        inbox: &Inbox<T>,
        boundary: u32,
    ) -> Result<List<T>, Memory>
        requires own { self.old.inbox ≡ inbox.now }
        requires last { self.old.number + 1 ≡ inbox.now.limits.seats }
        requires room { length (taken_by self.old) < inbox.now.limits.cuts }
        ensures took { (posts : List T) × (taken_by self.new ≡ taken_by self.old ++ take_at boundary posts ∷ [])
            × IfOk result (λ copies. copies ≡ posts) }
        ensures all { IsPrefix (posts_in self.old.seen) (posts_taken (taken_by self.new)) }
        ensures own { own_of self.new ≡ own_of self.old ++ cut self.old.number boundary ∷ [] }
        ensures seat { (self.new.inbox ≡ inbox.now) × (self.new.number ≡ self.old.number) }
        ensures later { IsPrefix self.old.seen self.new.seen }
    {
        let before = self.taken;
        let count = inbox.cut(rt, &mut self.seat, boundary);
        self.taken = count;
        copy_posts(rt, self.alloc, inbox, &mut self.seat, before, count)
    }

    /// Shuts the journal: no post is stored after it. It may wait.
    pub fn shut<W: Wait>(&mut self, rt: &W, inbox: &Inbox<T>)
        requires own { self.old.inbox ≡ inbox.now }
        requires once { shuts_in (own_of self.old) ≡ 0 }
        ensures took { taken_by self.new ≡ taken_by self.old }
        ensures own { own_of self.new ≡ own_of self.old ++ shut self.old.number ∷ [] }
        ensures seat { (self.new.inbox ≡ inbox.now) × (self.new.number ≡ self.old.number) }
        ensures later { IsPrefix self.old.seen self.new.seen }
    {
        inbox.shut(rt, &mut self.seat);
    }

    /// The cutter has then seen all that the other seat has seen.
    pub fn meet(&mut self, inbox: &Inbox<T>, other: &mut Seat<T>)
        requires { (self.old.inbox ≡ inbox.now) × (other.old.inbox ≡ inbox.now) }
        ensures took { taken_by self.new ≡ taken_by self.old }
        ensures own { own_of self.new ≡ own_of self.old }
        ensures seat { (self.new.inbox ≡ inbox.now) × (self.new.number ≡ self.old.number) }
        ensures later { IsPrefix self.old.seen self.new.seen }
        ensures met { IsPrefix other.old.seen self.new.seen }
        ensures other { other.new ≡ other.old }
    {
        inbox.meet(&mut self.seat, other);
    }
}
