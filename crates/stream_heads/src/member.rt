ghost use Rattle.std.specs.Prelude.{◌≡◌, ◌≤◌, length, map, take};

use crate::cells::Cells;
use crate::placed::Placed;
use stream_index::Key;

/// A row with the numbers that closures answered for it. The cells stand first: mostly a look at a row reads how many it
/// has and the first one, and the numbers only where joiners ask for more than equal ones.
#[derive(Clone, Copy, Debug)]
pub struct Member {
    pub cells: Cells,
    pub numbers: Key,
}

impl Placed for Member {
    ghost use Rattle.stream_heads.specs.Sides.{cell_numbers};
    ghost use Rattle.stream_heads.specs.MemberEquality.{member_decides, same_member};

    ghost key = { cell_numbers };

    ghost eq = { same_member };

    ghost tells = { member_decides };

    #[inline(always)]
    fn key(&self) -> Key {
        self.cells.key()
    }

    #[inline(always)]
    fn same(&self, other: &Member) -> bool {
        self.cells.same(&other.cells) && self.numbers == other.numbers
    }
}
