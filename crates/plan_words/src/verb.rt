/// The first word of a command line.
#[derive(Clone, Copy)]
pub enum Verb {
    Solve,
    Replay,
    Score,
    Explain,
    Gen,
    Tour,
}

impl Verb {
    ghost use Rattle.std.specs.Prelude.{◌≡◌, Some};
    ghost use Rattle.plan_words.specs.Verb.{verb};

    pub fn of(word: &[u8]) -> Option<Verb>
        ensures { result ≡ verb word.now }
    {
        match word {
            b"solve" => Some(Verb::Solve),
            b"replay" => Some(Verb::Replay),
            b"score" => Some(Verb::Score),
            b"explain" => Some(Verb::Explain),
            b"gen" => Some(Verb::Gen),
            b"tour" => Some(Verb::Tour),
            _ => None,
        }
    }

    /// The word that the verb is.
    pub fn name(self) -> &'static str
        ensures { verb result.now ≡ Some self }
    {
        match self {
            Verb::Solve => "solve",
            Verb::Replay => "replay",
            Verb::Score => "score",
            Verb::Explain => "explain",
            Verb::Gen => "gen",
            Verb::Tour => "tour",
        }
    }
}
