// The seats of an inbox.
use crate::book::Book;
use crate::knowledge::Knowledge;
use std::marker::Model;

pub(crate) type Token<T> = atomic_table::Seat<Book<T>, Knowledge<T>>;

/// The right to use an inbox under a number of its own. Its meaning is the number, and the beginning of the journal
/// that it has seen, in which its own entries stand under its number.
#[derive(Drop)]
pub struct Seat<T> {
    pub(crate) token: Token<T>,
    pub(crate) number: u32,
    pub(crate) posts: u32,
}

impl<T> Model for Seat<T> {
    ghost use Rattle.change_inbox.specs.Seats.{SeatView};
    ghost use Rattle.change_inbox.specs.Law.{IsSeat, seen_of};

    ghost Value = { SeatView T };

    ghost view = { λ s. record {
      inbox = record { table = s.token.table_id; limits = s.token.me.0.limits };
      number = s.number;
      seen = seen_of s.token.me.0;
    } };

    ghost invariant = { λ s. IsSeat s.token.me s.number s.posts };
}
