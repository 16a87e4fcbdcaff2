//! Changes on small plans, and feeds of changes: tests, and the words of what is wrong with a line.
#![tactic(auto)]

ghost use Rattle.std.specs.Prelude.{◌≡◌};
ghost use Rattle.change_rows.specs.Words.{spot_words};

use plan_changes::Spot;

/// The words of what is wrong with a line.
pub fn spot_words(spot: Spot) -> &'static str
    ensures { result.now ≡ spot_words spot }
{
    match spot {
        Spot::Json => "syntax json",
        Spot::Object => "syntax object",
        Spot::Do => "syntax do",
        Spot::Class => "syntax class",
        Spot::Id => "syntax id",
        Spot::Fields => "syntax fields",
        Spot::Values => "syntax values",
        Spot::Rule => "syntax rule",
        Spot::Weight => "syntax weight",
        Spot::Member => "syntax member",
    }
}

#[cfg(test)]
mod tests;
