ghost use Rattle.std.specs.Prelude.{◌≡◌};
ghost use Rattle.indictments.specs.Tallies.{TakesOne, counted_one, no_tally};

use plan_scores::Score;

/// How many matches a fact is a part of, and the sum of their impacts.
#[derive(Clone, Copy, Debug, PartialEq, Eq)]
pub struct Tally {
    pub count: u64,
    pub impact: Score,
}

impl Tally {
    /// Of no match.
    pub(crate) fn none() -> Tally
        ensures { result ≡ no_tally }
    {
        Tally {
            count: 0,
            impact: Score::zero(),
        }
    }

    /// With one match more, of this impact. Count and sum have to fit.
    pub(crate) fn with_one(&self, impact: &Score) -> Tally
        requires { TakesOne self.now impact.now }
        ensures { result ≡ counted_one self.now impact.now }
    {
        Tally {
            count: self.count + 1,
            impact: self.impact.add(impact),
        }
    }
}
