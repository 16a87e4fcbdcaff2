ghost use Rattle.std.specs.Prelude.{◌≡◌, ◌++◌, length, take, OnOk, OnErr};
ghost use Rattle.std.proofs.Common.{refl};
ghost use Rattle.std.specs.Cmp.{partial_order_from_agreeing_total};
ghost use Rattle.std.specs.Ordering.{as_partial_cmp};
ghost use Rattle.plan_scores.specs.Order.{score_cmp};
ghost use Rattle.plan_scores.specs.Sum.{zero_score, score_at, add_scores, minus_scores, FitsScore};
ghost use Rattle.plan_scores.specs.Text.{score_text};
ghost use Rattle.plan_scores.specs.Total.{score_cmp_total, score_cmp-eq};

use crate::{Level, Memory};
use itoa::Buffer;
use std::cmp::Ordering;

/// What a plan is worth at each level. The hard numbers are compared first, then the medium ones,
/// then the soft ones; the greater score is the better one.
#[derive(Clone, Copy, Debug, PartialEq, Eq)]
pub struct Score {
    pub hard: i64,
    pub medium: i64,
    pub soft: i64,
}

impl Ord for Score {
    ghost cmp = { score_cmp };

    ghost total = { score_cmp_total };

    ghost matches_partial_cmp = { λ _ _. refl };

    ghost matches_eq = { score_cmp-eq };

    fn cmp(&self, other: &Score) -> Ordering {
        self.hard
            .cmp(&other.hard)
            .then(self.medium.cmp(&other.medium))
            .then(self.soft.cmp(&other.soft))
    }
}

impl PartialOrd for Score {
    ghost partial_cmp = { as_partial_cmp score_cmp };

    ghost laws = { partial_order_from_agreeing_total score_cmp score_cmp_total (λ _ _. refl) score_cmp-eq };

    fn partial_cmp(&self, other: &Score) -> Option<Ordering> {
        Some(self.cmp(other))
    }
}

impl Score {
    /// Nothing at any level.
    pub fn zero() -> Score
        ensures { result ≡ zero_score }
    {
        Score {
            hard: 0,
            medium: 0,
            soft: 0,
        }
    }

    /// The number at one level, and nothing at the others.
    pub fn at(level: Level, n: i64) -> Score
        ensures { result ≡ score_at level n }
    {
        match level {
            Level::Hard => Score {
                hard: n,
                ..Score::zero()
            },
            Level::Medium => Score {
                medium: n,
                ..Score::zero()
            },
            Level::Soft => Score {
                soft: n,
                ..Score::zero()
            },
        }
    }

    /// The sum, level by level. Each of its numbers has to fit.
    pub fn add(&self, o: &Score) -> Score
        requires { FitsScore (add_scores self.now o.now) }
        ensures { result ≡ add_scores self.now o.now }
    {
        Score {
            hard: self.hard + o.hard,
            medium: self.medium + o.medium,
            soft: self.soft + o.soft,
        }
    }

    /// The difference, level by level. Each of its numbers has to fit.
    pub fn minus(&self, o: &Score) -> Score
        requires { FitsScore (minus_scores self.now o.now) }
        ensures { result ≡ minus_scores self.now o.now }
    {
        Score {
            hard: self.hard - o.hard,
            medium: self.medium - o.medium,
            soft: self.soft - o.soft,
        }
    }

    /// Appends the text, as in `-1hard/0medium/5soft`. Without memory for it nothing is appended.
    pub fn write_text(&self, out: &mut Vec<u8>) -> Result<(), Memory>
        ensures ok { OnOk result (out.new.items ≡ out.old.items ++ score_text self.now) }
        ensures err { OnErr result (out.new.items ≡ out.old.items) }
    {
        let start = out.len();
        let written = self.append_parts(out);
        if written.is_err() {
            out.truncate(start);
        }
        written
    }

    // Appends the text, or a front of it.
    fn append_parts(&self, out: &mut Vec<u8>) -> Result<(), Memory>
        ensures ok { OnOk result (out.new.items ≡ out.old.items ++ score_text self.now) }
        ensures err { OnErr result (take (length out.old.items) out.new.items ≡ out.old.items) }
    {
        let mut number = Buffer::new();
        out.extend_from_slice(number.format(self.hard).as_bytes())?;
        out.extend_from_slice(b"hard/")?;
        out.extend_from_slice(number.format(self.medium).as_bytes())?;
        out.extend_from_slice(b"medium/")?;
        out.extend_from_slice(number.format(self.soft).as_bytes())?;
        out.extend_from_slice(b"soft")?;
        Ok(())
    }
}
