// The journal while the inbox is open, with all the memory that it will need.
use crate::entry::{Entry, Kept};
use crate::journal::Journal;
use crate::knowledge::Limits;
use plan_facts::Memory;
use std::alloc::Global;
use std::marker::Model;

/// The entries so far, and where the posts stand among them.
#[derive(Drop)]
pub struct Book<T> {
    entries: Vec<Entry<T>>,
    places: Vec<usize>,
    is_shut: bool,
    limits: Limits,
}

impl<T> Model for Book<T> {
    ghost use Rattle.std.specs.Prelude.{vec_capacity};
    ghost use Rattle.change_inbox.specs.Books.{BookView, IsBook};

    ghost Value = { BookView T };

    ghost view = { λ b. record { entries = b.entries.items; limits = b.limits } };

    ghost invariant = { λ b.
        IsBook b.limits b.entries.items (vec_capacity b.entries) b.places.items (vec_capacity b.places) b.is_shut };
}

impl<T: Drop> Book<T> {
    ghost use Rattle.std.specs.Bool.{OnFalse};
    ghost use Rattle.std.specs.Prelude.{◌≡◌, ◌+◌, ◌^◌, ◌<◌, ◌≤◌, [], ◌∷◌, ◌++◌, length, slice_get, option_copied, nat_lt, nat_le, IfOk};
    ghost use Rattle.change_inbox.specs.Entries.{posts_in, cuts_in, shuts_in};
    ghost use Rattle.change_inbox.specs.Books.{with_entry, post, cut, shut};

    /// The empty journal, with room for all that the limits allow.
    pub fn with_room(alloc: Global, limits: Limits) -> Result<Book<T>, Memory>
        ensures { IfOk result (λ b. b ≡ record { entries = []; limits = limits }) }
    {
        let room = limits.posts as usize + limits.cuts as usize + limits.seats as usize;
        Ok(Book {
            entries: Vec::with_capacity(alloc, room)?,
            places: Vec::with_capacity(alloc, limits.posts as usize)?,
            is_shut: false,
            limits,
        })
    }

    /// A journal with no room, which takes no memory.
    pub fn blank(alloc: Global) -> Book<T>
        ensures { result ≡ record { entries = []; limits = record { seats = 0; posts = 0; cuts = 0 } } }
    {
        Book {
            entries: Vec::new(alloc),
            places: Vec::new(alloc),
            is_shut: false,
            limits: Limits {
                seats: 0,
                posts: 0,
                cuts: 0,
            },
        }
    }

    /// How many posts there are.
    pub fn posts(&self) -> u32
        ensures count { result ≡ length (posts_in self.now.entries) }
        ensures few { result ≤ self.now.limits.posts }
    {
        let count = self.places.len();
        prove!(count <= self.limits.posts as usize);
        count as u32
    }

    /// Whether there are as many posts as the limits allow.
    pub fn is_full(&self) -> bool
        ensures full { result ≡ nat_le self.now.limits.posts (length (posts_in self.now.entries)) }
        ensures room { OnFalse result (length (posts_in self.now.entries) + 1 < 2 ^ 32) }
    {
        self.posts() >= self.limits.posts
    }

    /// Whether there is a shut.
    pub fn is_shut(&self) -> bool
        ensures shut { result ≡ nat_lt 0 (shuts_in self.now.entries) }
        ensures few { length (posts_in self.now.entries) ≤ self.now.limits.posts }
    {
        self.is_shut
    }

    /// Puts a post behind the others.
    pub fn add_post(&mut self, seat: u32, number: u32, body: T)
        requires { length (posts_in self.old.entries) < self.old.limits.posts }
        ensures added { self.new ≡ with_entry self.old (post seat number body) }
        ensures few { length (posts_in self.new.entries) ≤ self.new.limits.posts }
    {
        self.places.push_reserved(self.entries.len());
        self.entries
            .push_reserved(Entry::Post { seat, number, body });
    }

    /// Puts a cut behind the others.
    pub fn add_cut(&mut self, seat: u32, boundary: u32)
        requires { cuts_in self.old.entries < self.old.limits.cuts }
        ensures added { self.new ≡ with_entry self.old (cut seat boundary) }
        ensures few { length (posts_in self.new.entries) ≤ self.new.limits.posts }
    {
        self.entries.push_reserved(Entry::Cut { seat, boundary });
    }

    /// Puts a shut behind the others.
    pub fn add_shut(&mut self, seat: u32)
        requires { shuts_in self.old.entries < self.old.limits.seats }
        ensures added { self.new ≡ with_entry self.old (shut seat) }
        ensures few { length (posts_in self.new.entries) ≤ self.new.limits.posts }
    {
        self.is_shut = true;
        self.entries.push_reserved(Entry::Shut { seat });
    }

    /// The body of the post `n`, from 0.
    pub fn post(&self, n: u32) -> Option<&T>
        ensures { option_copied result ≡ slice_get (posts_in self.now.entries) n }
    {
        if n >= self.posts() {
            return None;
        }
        let place = self.places[n as usize];
        match &self.entries[place] {
            Entry::Post { body, .. } => Some(body),
            _ => unreachable!(),
        }
    }

    /// The journal as it is when the inbox closes.
    pub fn into_journal(self) -> Journal<T>
        ensures entries { result ≡ self.entries }
        ensures few { length (posts_in result) ≤ self.limits.posts }
    {
        let Book {
            entries,
            places: _,
            is_shut: _,
            limits: _,
        } = self;
        Journal::of(entries)
    }
}

impl<T: Kept> Book<T> {
    ghost use Rattle.std.specs.Prelude.{◌≡◌, slice_get, IfOk};
    ghost use Rattle.change_inbox.specs.Entries.{posts_in};

    /// A copy of the body of the post `n`, from 0; none where there are not so many posts.
    pub fn copy_of(&self, alloc: Global, n: u32) -> Result<Option<T>, Memory>
        ensures { IfOk result (λ copy. copy ≡ slice_get (posts_in self.now.entries) n) }
    {
        match self.post(n) {
            Some(body) => Ok(Some(body.copy(alloc)?)),
            None => Ok(None),
        }
    }
}
