ghost use Rattle.std.specs.Prelude.{◌≡◌, ◌++◌, length, take, OnOk, OnErr};
ghost use Rattle.std.proofs.Common.{refl};
ghost use Rattle.std.specs.Cmp.{partial_order_from_agreeing_total};
ghost use Rattle.std.specs.Ordering.{as_partial_cmp};
ghost use Rattle.plan_scores.specs.Order.{plan_score_cmp};
ghost use Rattle.plan_scores.specs.Text.{plan_score_text, unplaced_text};
ghost use Rattle.plan_scores.specs.Total.{plan_score_cmp_total, plan_cmp-eq};

use crate::{Memory, Score};
use itoa::Buffer;
use std::cmp::Ordering;

/// The score of a plan, and how many of its variables are null that may not stay so. Fewer of these are better
/// before all else, then the scores are compared; the greater of two is the better one.
#[derive(Clone, Copy, Debug, PartialEq, Eq)]
pub struct PlanScore {
    pub unplaced: u32,
    pub score: Score,
}

impl Ord for PlanScore {
    ghost cmp = { plan_score_cmp };

    ghost total = { plan_score_cmp_total };

    ghost matches_partial_cmp = { λ _ _. refl };

    ghost matches_eq = { plan_cmp-eq };

    fn cmp(&self, other: &PlanScore) -> Ordering {
        other
            .unplaced
            .cmp(&self.unplaced)
            .then(self.score.cmp(&other.score))
    }
}

impl PartialOrd for PlanScore {
    ghost partial_cmp = { as_partial_cmp plan_score_cmp };

    ghost laws = { partial_order_from_agreeing_total plan_score_cmp plan_score_cmp_total (λ _ _. refl) plan_cmp-eq };

    fn partial_cmp(&self, other: &PlanScore) -> Option<Ordering> {
        Some(self.cmp(other))
    }
}

impl PlanScore {
    /// Appends the text, as in `-2init/-1hard/0medium/5soft`, or without its first part where none
    /// is null that may not stay so. Without memory for it nothing is appended.
    pub fn write_text(&self, out: &mut Vec<u8>) -> Result<(), Memory>
        ensures ok { OnOk result (out.new.items ≡ out.old.items ++ plan_score_text self.now) }
        ensures err { OnErr result (out.new.items ≡ out.old.items) }
    {
        let start = out.len();
        let written = self.append_parts(out);
        if written.is_err() {
            out.truncate(start);
        }
        written
    }

    // Appends the text, or a front of it.
    fn append_parts(&self, out: &mut Vec<u8>) -> Result<(), Memory>
        ensures ok { OnOk result (out.new.items ≡ out.old.items ++ plan_score_text self.now) }
        ensures err { OnErr result (take (length out.old.items) out.new.items ≡ out.old.items) }
    {
        append_unplaced(self.unplaced, out)?;
        self.score.write_text(out)
    }
}

// Appends how many variables are null, or a front of that.
fn append_unplaced(unplaced: u32, out: &mut Vec<u8>) -> Result<(), Memory>
    ensures ok { OnOk result (out.new.items ≡ out.old.items ++ unplaced_text unplaced) }
    ensures err { OnErr result (take (length out.old.items) out.new.items ≡ out.old.items) }
{
    if unplaced == 0 {
        return Ok(());
    }
    let mut number = Buffer::new();
    out.extend_from_slice(b"-")?;
    out.extend_from_slice(number.format(unplaced).as_bytes())?;
    out.extend_from_slice(b"init/")?;
    Ok(())
}
