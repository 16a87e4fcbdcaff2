//! The parser of the commands. It has no defaults, groups or subcommands, and takes every option
//! and positional word of every command as a plain text.

ghost use Rattle.std.specs.Prelude.{◌≡◌, IfOk, codes, List, ℕ};
ghost use Rattle.clap.specs.Words.{app_of, new_rule, with_rule, rows_of, found_of, matches_of};
ghost use Rattle.plan_words.specs.Line.{texts};
ghost use Rattle.plan_words.specs.Parsers.{option_rule, parser, Takes};

use clap::error::ErrorKind;
use clap::{Arg, ArgMatches, Command as Parser};
use plan_facts::Memory;
use std::alloc::{AllocError, Global};

/// The parser of a command that begins with `first`.
pub fn parser<'a>(alloc: Global, first: &'a str) -> Result<Parser<'a>, AllocError>
    ensures { IfOk result (λ made. app_of made ≡ parser first.now) }
{
    let parser = with_word(alloc, Parser::new(alloc, first), "first")?;
    let parser = with_word(alloc, parser, "second")?;
    let parser = with_option(alloc, parser, "feed")?;
    let parser = with_option(alloc, parser, "journal")?;
    let parser = with_option(alloc, parser, "workers")?;
    let parser = with_option(alloc, parser, "buffer")?;
    Ok(parser)
}

/// What a parser reads of words that it takes. It fails only for want of memory.
pub fn parsed<'a>(parser: Parser<'a>, words: &'a [String]) -> Result<ArgMatches<'a>, Memory>
    requires { Takes (app_of parser) (texts words.now) }
    ensures { IfOk result (λ m. rows_of (found_of m) ≡ matches_of (app_of parser.entry) (texts words.entry.now)) }
{
    match parser.try_get_matches_from(words) {
        Ok(matches) => Ok(matches),
        Err(error) => {
            prove!(error.kind() == ErrorKind::OutOfMemory);
            Err(Memory)
        }
    }
}

fn with_word<'a>(alloc: Global, parser: Parser<'a>, id: &'a str) -> Result<Parser<'a>, AllocError>
    ensures { IfOk result (λ p. app_of p ≡ with_rule (app_of parser.entry) (new_rule id.now)) }
{
    parser.arg(Arg::new(alloc, id))
}

fn with_option<'a>(alloc: Global, parser: Parser<'a>, id: &'a str) -> Result<Parser<'a>, AllocError>
    ensures { IfOk result (λ p. app_of p ≡ with_rule (app_of parser.entry) (option_rule id.now)) }
{
    parser.arg(Arg::new(alloc, id).long(id))
}
