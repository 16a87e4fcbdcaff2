//! The words of the program's command line, and the command that they are.
#![tactic(auto)]

ghost use Rattle.std.specs.Prelude.{◌≡◌, ◌↔◌, IfOk, Some, None};
ghost use Rattle.plan_words.specs.Command.{IsSized, command};

mod command;
mod line;
mod parsers;
mod reading;
mod rules;
mod values;
mod verb;

pub use command::{Command, WordFault};
use plan_facts::Text;
use reading::read;
use rules::accepted;
use std::alloc::Global;

/// Reads the command that the words after the program's name are.
///
/// The rules of the words are tested first, which takes no memory; a line that keeps them is
/// handed to the parser in one order. Usage comes just where the words are no command.
pub fn read_words(alloc: Global, words: &[Text]) -> Result<Command, WordFault>
    ensures command { IfOk result (λ c. command words.now ≡ Some c) }
    ensures sized { IfOk result IsSized }
    ensures usage { (result ≡ Err WordFault.Usage) ↔ (command words.now ≡ None) }
{
    match accepted(words) {
        Some((verb, line)) => Ok(read(alloc, verb, &line)?),
        None => Err(WordFault::Usage),
    }
}
