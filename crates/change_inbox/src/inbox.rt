// The inbox and its calls.
use crate::book::Book;
use crate::entry::{Kept, PostAnswer};
use crate::journal::Journal;
use crate::knowledge::{
    Compare, Deal, DrawTicket, Gather, GiveTurn, Knowledge, Limits, LookForTurn, Note, OneJournal,
};
use crate::seat::{Seat, Token};
use atomic_table::Table;
use plan_facts::{List, Memory};
use std::alloc::Global;
use std::marker::Model;
use std::sync::Wait;
use std::thread::yield_now;

/// One journal behind a ticket and a turn: each call draws a ticket, waits for its turn, and then has the journal to
/// itself. All its memory is taken as it is opened.
#[derive(Drop)]
pub struct Inbox<T: Kept> {
    table: Table<Book<T>, Knowledge<T>, Limits, OneJournal, Global>,
    alloc: Global,
}

impl<T: Kept> Model for Inbox<T> {
    ghost use Rattle.change_inbox.specs.Seats.{InboxView, IsInbox};

    ghost Value = { InboxView };

    ghost view = { λ i. record { table = i.table.shared.table_id; limits = i.table.shared.key } };

    ghost invariant = { λ i. IsInbox i.table.shared.table_id i.table.shared.key };
}

impl<T: Kept> Inbox<T> {
    ghost use Rattle.std.specs.Prelude.{◌≡◌, ℕ, ◌+◌, ◌<◌, ◌≤◌, ◌%◌, ◌⊎◌, ◌∷◌, ◌++◌, [], List, length, slice_get, IfOk, All, Any};
    ghost use mathlib.Core.List.{IsPrefix};
    ghost use Rattle.change_inbox.specs.Entries.{seat_of, by_seat, posts_in, cuts_in, shuts_in};
    ghost use Rattle.change_inbox.specs.Books.{BookView, cut, shut};
    ghost use Rattle.change_inbox.specs.Seats.{own_of, saw, AreFresh, GoesOn, Answers};
    ghost use Rattle.change_inbox.specs.Law.{Rests, IsInside, IsSettled, Finds, Grows, at_rest, holding, member, number_of, seen_of};

    /// An inbox with these seats, numbered from 0, with room for so many posts and cuts.
    pub fn open(
        alloc: Global,
        seats: u32,
        posts: u32,
        cuts: u32,
    ) -> Result<(Inbox<T>, List<Seat<T>>), Memory>
        requires { 1 ≤ seats }
        ensures limits { IfOk result (λ r. r.0.limits ≡ record { seats = seats; posts = posts; cuts = cuts }) }
        ensures seats { IfOk result (λ r. AreFresh r.0 seats r.1) }
    {
        let limits = Limits { seats, posts, cuts };
        let mut books = Vec::new(alloc);
        books.push(Book::with_room(alloc, limits)?)?;
        let Ok((table, mut dealer)) = Table::new(alloc, &[0, 0], books, &limits) else {
            return Err(Memory);
        };
        let mut list = List::new(alloc);
        for number in 0..seats {
            let token = table.shared.split_seat::<Deal>(&mut dealer);
            list.push(Seat {
                token,
                number,
                posts: 0,
            })?;
        }
        Ok((Inbox { table, alloc }, list))
    }

    // Waits for the seat's turn, and takes the journal. The answer has the ticket.
    fn enter<W: Wait>(&self, rt: &W, token: &mut Token<T>) -> (u64, Book<T>)
        requires token { (token.old.table_id ≡ self.now.table) × Rests token.old.me }
        ensures token { (token.new.table_id ≡ token.old.table_id)
            × IsInside token.old.me result.0 result.1.entries token.new.me }
        ensures found { Finds token.old.me.0.limits (number_of token.old.me.0) (seen_of token.old.me.0) result.1 }
    {
        let ticket = self.table.shared.fetch_add::<DrawTicket>(token, 0, 1);
        for _ in rt.forever() {
            if self.table.shared.load::<LookForTurn>(token, 1) == ticket {
                let book = self
                    .table
                    .shared
                    .exchange(token, 0, Book::blank(self.alloc));
                return (ticket, book);
            }
            yield_now();
        }
        unreachable!()
    }

    // Puts the journal back, and gives the turn to the next ticket.
    fn leave(&self, token: &mut Token<T>, ticket: u64, book: Book<T>)
        requires token { token.old.table_id ≡ self.now.table }
        requires inside { IsInside token.old.me ticket (seen_of token.old.me.0) token.old.me }
        requires grows { Grows token.old.me.0.limits (number_of token.old.me.0) (seen_of token.old.me.0) book }
        ensures token { token.new.table_id ≡ token.old.table_id }
        ensures rests { token.new.me ≡ (at_rest token.old.me.0.limits (number_of token.old.me.0) book.entries, []) }
    {
        let _blank = self.table.shared.exchange(token, 0, book);
        self.table
            .shared
            .store::<GiveTurn>(token, 1, ticket.wrapping_add(1));
    }

    /// Puts a post behind the journal as it then is, unless it is shut or has all its posts. It takes no memory, and
    /// may wait.
    pub fn post<W: Wait>(&self, rt: &W, seat: &mut Seat<T>, body: T) -> PostAnswer<T>
        requires { seat.old.inbox ≡ self.now }
        ensures answer { (found : List _) × GoesOn seat.old found × Answers seat.old body found result seat.new }
        ensures seat { (seat.new.inbox ≡ self.now) × (seat.new.number ≡ seat.old.number) }
        ensures later { IsPrefix seat.old.seen seat.new.seen }
        ensures few { length (posts_in seat.new.seen) ≤ self.now.limits.posts }
    {
        let (ticket, mut book) = self.enter(rt, &mut seat.token);
        if book.is_shut() {
            self.leave(&mut seat.token, ticket, book);
            return PostAnswer::Shut(body);
        }
        if book.is_full() {
            self.leave(&mut seat.token, ticket, book);
            return PostAnswer::Full(body);
        }
        let number = seat.posts;
        book.add_post(seat.number, number, body);
        self.leave(&mut seat.token, ticket, book);
        seat.posts = number + 1;
        PostAnswer::Stored(number)
    }

    /// Puts a cut behind the journal, and answers how many posts stand before it. It takes no memory, and may wait.
    pub fn cut<W: Wait>(&self, rt: &W, seat: &mut Seat<T>, boundary: u32) -> u32
        requires own { seat.old.inbox ≡ self.now }
        requires last { seat.old.number + 1 ≡ self.now.limits.seats }
        requires room { cuts_in (own_of seat.old) < self.now.limits.cuts }
        ensures cut { (found : List _) × GoesOn seat.old found × (result ≡ length (posts_in found))
            × (seat.new ≡ saw seat.old (found ++ cut seat.old.number boundary ∷ [])) }
        ensures own { own_of seat.new ≡ own_of seat.old ++ cut seat.old.number boundary ∷ [] }
        ensures seat { (seat.new.inbox ≡ self.now) × (seat.new.number ≡ seat.old.number) }
        ensures later { IsPrefix seat.old.seen seat.new.seen }
        ensures few { length (posts_in seat.new.seen) ≤ self.now.limits.posts }
    {
        let (ticket, mut book) = self.enter(rt, &mut seat.token);
        let posts = book.posts();
        book.add_cut(seat.number, boundary);
        self.leave(&mut seat.token, ticket, book);
        posts
    }

    /// A copy of the post `n` of the journal, from 0; none where it has not so many. It may wait.
    pub fn post_at<W: Wait>(&self, rt: &W, seat: &mut Seat<T>, n: u32) -> Result<Option<T>, Memory>
        requires { seat.old.inbox ≡ self.now }
        ensures post { IfOk result (λ post. post ≡ slice_get (posts_in seat.new.seen) n) }
        ensures seat { (seat.new.inbox ≡ self.now) × (seat.new.number ≡ seat.old.number) }
        ensures later { GoesOn seat.old seat.new.seen }
        ensures few { length (posts_in seat.new.seen) ≤ self.now.limits.posts }
    {
        let (ticket, book) = self.enter(rt, &mut seat.token);
        let post = book.copy_of(self.alloc, n);
        self.leave(&mut seat.token, ticket, book);
        post
    }

    /// Shuts the journal: no post is stored after it. It takes no memory, and may wait.
    pub fn shut<W: Wait>(&self, rt: &W, seat: &mut Seat<T>)
        requires own { seat.old.inbox ≡ self.now }
        requires once { shuts_in (own_of seat.old) ≡ 0 }
        ensures shut { (found : List _) × GoesOn seat.old found
            × (seat.new ≡ saw seat.old (found ++ shut seat.old.number ∷ [])) }
        ensures own { own_of seat.new ≡ own_of seat.old ++ shut seat.old.number ∷ [] }
        ensures seat { (seat.new.inbox ≡ self.now) × (seat.new.number ≡ seat.old.number) }
        ensures later { IsPrefix seat.old.seen seat.new.seen }
        ensures few { length (posts_in seat.new.seen) ≤ self.now.limits.posts }
    {
        let (ticket, mut book) = self.enter(rt, &mut seat.token);
        book.add_shut(seat.number);
        self.leave(&mut seat.token, ticket, book);
    }

    /// The seat has then seen all that either had seen. It takes no memory and waits for nobody.
    pub fn meet(&self, seat: &mut Seat<T>, other: &mut Seat<T>)
        requires { (seat.old.inbox ≡ self.now) × (other.old.inbox ≡ self.now) }
        ensures seat { (seat.new.inbox ≡ self.now) × (seat.new.number ≡ seat.old.number) }
        ensures later { GoesOn seat.old seat.new.seen }
        ensures met { IsPrefix other.old.seen seat.new.seen }
        ensures other { other.new ≡ other.old }
        ensures few { length (posts_in seat.new.seen) ≤ self.now.limits.posts }
    {
        let note = self.table.shared.split_seat::<Note>(&mut other.token);
        self.table.shared.join_seat::<Note>(&mut seat.token, note);
        self.table.shared.load::<Compare>(&mut seat.token, 1);
    }

    // Whoever holds some seats then holds this one too.
    fn gather(&self, all: &mut Token<T>, seat: Seat<T>)
        requires own { (all.old.table_id ≡ self.now.table) × (seat.inbox ≡ self.now) }
        requires holds { all.old.me
            ≡ (holding self.now.limits all.old.me.0.parts all.old.me.0.members, []) }
        requires some { 0 < all.old.me.0.parts }
        ensures own { all.new.table_id ≡ self.now.table }
        ensures holds { let members = member seat.number seat.seen ∷ all.old.me.0.members in
            all.new.me ≡ (holding self.now.limits (all.old.me.0.parts + 1) members, []) }
    {
        let Seat {
            token,
            number: _,
            posts: _,
        } = seat;
        self.table.shared.join_seat::<Gather>(all, token);
    }

    // The whole journal, for whoever holds all seats.
    fn journal_of(self, all: Token<T>) -> Journal<T>
        requires own { all.table_id ≡ self.table }
        requires holds { all.me ≡ (holding self.limits self.limits.seats all.me.0.members, []) }
        ensures settled { IsSettled self.limits all.me.0.members result }
        ensures few { length (posts_in result) ≤ self.limits.posts }
    {
        let Inbox { table, alloc: _ } = self;
        let mut closed = table.close_with(all);
        let book = closed.take(0);
        closed.free();
        book.into_journal()
    }

    /// The whole journal. It begins with what each seat has seen, its entries under the number of a seat are that
    /// seat's own, and it has no others.
    pub fn close(self, mut seats: List<Seat<T>>) -> Journal<T>
        requires { (length seats ≡ self.limits.seats) × All (λ s. s.inbox ≡ self) seats }
        ensures seen { All (λ s. IsPrefix s.seen result) seats }
        ensures own { All (λ s. by_seat s.number result ≡ own_of s) seats }
        ensures others { All (λ e. Any (λ s. s.number ≡ seat_of e) seats) result }
        ensures few { length (posts_in result) ≤ self.limits.posts }
    {
        let _ = &self.table;
        let Some(first) = seats.pop() else {
            unreachable!()
        };
        let Seat {
            token: mut all,
            number: _,
            posts: _,
        } = first;
        while let Some(seat) = seats.pop() {
            self.gather(&mut all, seat);
        }
        self.journal_of(all)
    }

    /// The whole journal of an inbox with two seats, as by `close`. It takes no memory.
    pub fn close_both(self, first: Seat<T>, last: Seat<T>) -> Journal<T>
        requires two { self.limits.seats ≡ 2 }
        requires own { (first.inbox ≡ self) × (last.inbox ≡ self) }
        ensures seen { IsPrefix first.seen result × IsPrefix last.seen result }
        ensures own { (by_seat first.number result ≡ own_of first) × (by_seat last.number result ≡ own_of last) }
        ensures others { All (λ e. (seat_of e ≡ first.number) ⊎ (seat_of e ≡ last.number)) result }
        ensures few { length (posts_in result) ≤ self.limits.posts }
    {
        let Seat {
            token: mut both,
            number: _,
            posts: _,
        } = last;
        self.gather(&mut both, first);
        self.journal_of(both)
    }
}
