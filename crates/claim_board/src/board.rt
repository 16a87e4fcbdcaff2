// The board and its passes.
use crate::claims::{Claims, Draw, EachOnce, Part, Size};
use atomic_table::{Seat, Table};
use plan_facts::{List, Memory};
use std::alloc::Global;
use std::marker::Model;

/// Gives the numbers from 0 up and below its limit, each once, to those who draw with a pass.
#[derive(Drop)]
pub struct Board {
    table: Table<(), Claims, Size, EachOnce, Global>,
    limit: u32,
}

impl Model for Board {
    ghost use Rattle.claim_board.specs.Boards.{BoardView};
    ghost use Rattle.claim_board.specs.Claims.{IsBoard};

    ghost Value = { BoardView };

    ghost view = { λ b. record {
      table = b.table.shared.table_id;
      limit = b.limit;
      seats = b.table.shared.key.seats;
    } };

    ghost invariant = { λ b. IsBoard b.table.shared.table_id b.table.shared.key b.limit };
}

/// The right to draw from its board. Its meaning is the list of its own draws.
#[derive(Drop)]
pub struct Pass {
    seat: Seat<(), Claims>,
    is_done: bool,
}

impl Model for Pass {
    ghost use Rattle.claim_board.specs.Boards.{PassView};
    ghost use Rattle.claim_board.specs.Claims.{IsPass, board_of};

    ghost Value = { PassView };

    ghost view = { λ p. record {
      board = board_of p.seat.table_id p.seat.me.0.size;
      draws = p.seat.me.0.draws;
      is_done = p.is_done;
    } };

    ghost invariant = { λ p. IsPass p.seat.me p.is_done };
}

impl Board {
    ghost use Rattle.std.specs.Prelude.{◌≡◌, ℕ, ◌+◌, ◌<◌, ◌≤◌, false, true, length, replicate, IfOk, IfSome, OnSome, IfNone, All, Any};
    ghost use Rattle.std.specs.List.Sorted.{IsStrictlyIncreasing};
    ghost use Rattle.claim_board.specs.Boards.{all_draws, fresh_pass, with_draw, done, times, once_below, next_after};

    /// A board of the numbers below `n`, and its passes, one for each of the seats.
    pub fn new(alloc: Global, n: u32, seats: u32) -> Result<(Board, List<Pass>), Memory>
        requires { (1 ≤ seats) × (seats ≤ 16) }
        ensures board { IfOk result (λ r. (r.0.limit ≡ n) × (r.0.seats ≡ seats)) }
        ensures passes { IfOk result (λ r. r.1 ≡ replicate seats (fresh_pass r.0)) }
    {
        let size = Size { limit: n, seats };
        let (table, mut dealer) = Table::of_words(alloc, &[0], &size)?;
        let mut passes = List::new(alloc);
        for _ in 0..seats {
            let seat = table.shared.split_seat::<Part>(&mut dealer);
            passes.push(Pass {
                seat,
                is_done: false,
            })?;
        }
        Ok((Board { table, limit: n }, passes))
    }

    /// A number that no draw gave before; none where all are drawn. A pass that got none gets none again.
    /// It takes no memory and waits for nobody.
    pub fn draw(&self, pass: &mut Pass) -> Option<u32>
        requires { pass.old.board ≡ self.now }
        ensures board { pass.new.board ≡ self.now }
        ensures below { IfSome result (λ x. x < self.now.limit) }
        ensures goes_on { OnSome result (pass.old.is_done ≡ false) }
        ensures drawn { IfSome result (λ x. pass.new ≡ with_draw pass.old x) }
        ensures above { IfSome result (λ x. (next_after pass.old.draws ≤ x) × (next_after pass.new.draws ≡ x + 1)) }
        ensures none { IfNone result (pass.new ≡ done pass.old) }
        ensures increasing { IsStrictlyIncreasing pass.new.draws }
    {
        if pass.is_done {
            return None;
        }
        let found = self.table.shared.fetch_add::<Draw>(&mut pass.seat, 0, 1);
        if found < u64::from(self.limit) {
            Some(found as u32)
        } else {
            pass.is_done = true;
            None
        }
    }

    /// How many draws gave a number. They gave the numbers below this count, each once. The count is the limit where
    /// a draw gave none.
    pub fn close(self, mut passes: List<Pass>) -> u32
        requires { (length passes ≡ self.seats) × All (λ p. p.board ≡ self) passes }
        ensures once { (x : ℕ) → times x (all_draws passes) ≡ once_below x result }
        ensures most { result ≤ self.limit }
        ensures full { Any (λ p. p.is_done ≡ true) passes → result ≡ self.limit }
    {
        let Board { table, limit } = self;
        let Some(first) = passes.pop() else {
            unreachable!()
        };
        let Pass {
            mut seat,
            is_done: _,
        } = first;
        while let Some(pass) = passes.pop() {
            let Pass {
                seat: other,
                is_done: _,
            } = pass;
            table.shared.join_seat::<Part>(&mut seat, other);
        }
        let closed = table.close_with(seat);
        let count = closed.word(0);
        closed.free();
        count.min(u64::from(limit)) as u32
    }
}
