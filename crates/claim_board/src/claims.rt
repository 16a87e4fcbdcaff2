// What a pass knows of the board, and the rule that every step keeps.
use atomic_table::{Join, Play, Split, TableRule};
use std::collections::LinkedList;

/// What a board is told once: how many numbers it gives, and to how many passes.
#[derive(Clone, Copy)]
pub struct Size {
    pub limit: u32,
    pub seats: u32,
}

/// What a pass knows: the parts of the board that it stands for, what was drawn by them, and how many
/// of them found no number left. It exists in proofs alone.
pub struct Claims {
    pub size: Size,
    pub parts: u32,
    pub draws: LinkedList<u32>,
    pub ends: u32,
}

/// The rule: the draws of all passes are the numbers below the count, each once.
pub struct EachOnce;

impl TableRule<(), Claims, Size> for EachOnce {
    ghost use Rattle.claim_board.specs.Claims.{Given, all_parts};

    ghost holds = { Given };

    ghost first = { all_parts };
}

/// The step of a draw.
pub struct Draw;

impl Play<(), Claims> for Draw {
    ghost use Rattle.claim_board.specs.Claims.{Drew};

    ghost then = { λ step before found after. Drew before found after };
}

/// One part is dealt to a new pass, and a pass's parts are taken back.
pub struct Part;

impl Split<Claims> for Part {
    ghost use Rattle.claim_board.specs.Claims.{less, one_part};

    ghost left = { less };

    ghost right = { one_part };
}

impl Join<Claims> for Part {
    ghost use Rattle.claim_board.specs.Claims.{gathered, no_part};

    ghost both = { gathered };

    ghost spent = { no_part };
}
