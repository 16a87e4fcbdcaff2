// What a seat knows of the journal, and the rule that every step keeps.
use crate::book::Book;
use crate::entry::Entry;
use atomic_table::{Join, Play, Split, TableRule};
use std::collections::LinkedList;

/// What an inbox is told once: how many seats, posts and cuts it has room for.
#[derive(Clone, Copy)]
pub struct Limits {
    pub seats: u32,
    pub posts: u32,
    pub cuts: u32,
}

/// The number of a seat, and the beginning of the journal that it has seen. It exists in proofs alone.
pub struct Member<T> {
    pub number: u32,
    pub seen: LinkedList<Entry<T>>,
}

/// What a holder of the table knows: the members that it stands for, how many parts of the inbox they are, whether
/// it waits with a ticket (1) or not (0), whether it has the journal, and what a note told it. It exists in proofs
/// alone. A ticket counts without end.
pub struct Knowledge<T> {
    pub limits: Limits,
    pub parts: u32,
    pub members: LinkedList<Member<T>>,
    pub waits: u32,
    pub has: bool,
    pub ticket: u64,
    pub told: LinkedList<Entry<T>>,
}

/// The rule: seats write one journal in the turns of their tickets.
pub struct OneJournal;

impl<T> TableRule<Book<T>, Knowledge<T>, Limits> for OneJournal {
    ghost use Rattle.change_inbox.specs.Law.{Law, opener};

    ghost holds = { Law };

    ghost first = { opener };
}

/// The step that draws a ticket.
pub struct DrawTicket;

impl<T> Play<Book<T>, Knowledge<T>> for DrawTicket {
    ghost use Rattle.change_inbox.specs.Law.{Drew};

    ghost then = { λ step before found after. Drew before found after };
}

/// The step that looks whether it is the seat's turn, and then takes the journal.
pub struct LookForTurn;

impl<T> Play<Book<T>, Knowledge<T>> for LookForTurn {
    ghost use Rattle.change_inbox.specs.Law.{Looked};

    ghost then = { λ step before found after. Looked before found after };
}

/// The step that puts the journal back and gives the turn up.
pub struct GiveTurn;

impl<T> Play<Book<T>, Knowledge<T>> for GiveTurn {
    ghost use Rattle.change_inbox.specs.Law.{Gave};

    ghost then = { λ step before found after. Gave before after };
}

/// A number that nobody has yet goes to a seat of its own.
pub struct Deal;

impl<T> Split<Knowledge<T>> for Deal {
    ghost use Rattle.change_inbox.specs.Law.{without_first, first_alone};

    ghost left = { without_first };

    ghost right = { first_alone };
}

/// A note of what a seat has seen goes to another seat.
pub struct Note;

impl<T> Split<Knowledge<T>> for Note {
    ghost use Rattle.change_inbox.specs.Law.{note_of};

    ghost left = { λ v. v };

    ghost right = { note_of };
}

impl<T> Join<Knowledge<T>> for Note {
    ghost use Rattle.change_inbox.specs.Law.{informed, spent};

    ghost both = { informed };

    ghost spent = { spent };
}

/// The step by which a seat learns that one of two beginnings of the journal begins with the other.
pub struct Compare;

impl<T> Play<Book<T>, Knowledge<T>> for Compare {
    ghost use Rattle.change_inbox.specs.Law.{Compared};

    ghost then = { λ step before found after. Compared before after };
}

/// What two knew goes to one of them.
pub struct Gather;

impl<T> Join<Knowledge<T>> for Gather {
    ghost use Rattle.change_inbox.specs.Law.{gathered, spent};

    ghost both = { gathered };

    ghost spent = { spent };
}
