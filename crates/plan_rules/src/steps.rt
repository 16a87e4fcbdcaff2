ghost use Rattle.std.specs.Prelude.{◌≡◌, ℕ, ◌+◌, ◌<◌};

use std::marker::Model;
use std::sync::ledger::{Blank, Book as Account, Ledger, Share};

/// How many stored closures were called. It takes no bytes, and only a call of a stored closure raises it.
#[derive(Drop)]
pub struct Steps<L: Ledger> {
    account: Account<L>,
    share: Share<L>,
}

impl<L: Ledger> Model for Steps<L> {
    ghost Value = { ℕ };

    ghost view = { λ s. s.account.total };

    ghost invariant = { λ s. 0 < s.share.parts };
}

impl<L: Ledger> Steps<L> {
    /// A counter that stands at 0. A caller that counts nothing passes `Blank::new(1)` to a function that makes it.
    pub fn new(blank: Blank) -> Steps<L>
        requires name { blank.name ≡ L.name }
        requires parts { blank.parts ≡ L.parts }
        requires some { 0 < L.parts }
        ensures { result ≡ 0 }
    {
        let (account, share) = blank.open::<L>();
        Steps { account, share }
    }

    /// One more.
    pub(crate) fn tick(&mut self)
        ensures { self.new ≡ self.old + 1 }
    {
        self.account.add(&mut self.share, 1);
    }
}
