//! Words of command lines, and the commands that they are.

use super::fixtures::word;
use plan_facts::{Memory, Text};
use plan_words::{Command, WordFault, read_words};
use std::alloc::{AllocError, Global};
use std::test::Fail;

/// A case a line: words, and the command that they are, as `shown` shows it. An empty word is `""`.
const CASES: &str = r#"=> usage
solve p => solve p feed - workers 1 buffer 64
solve --workers=2 p => solve p feed - workers 2 buffer 64
solve --workers 2 p --buffer=4 => solve p feed - workers 2 buffer 4
solve --feed=a=b @ => solve @ feed a=b workers 1 buffer 64
solve --buffer 1024 --feed @ p --workers=16 => solve p feed @ workers 16 buffer 1024
replay p --feed f --journal j => replay p feed f journal j
replay --journal=j --feed=f p => replay p feed f journal j
replay @ --feed=f --journal=j => replay @ feed f journal j
score @ => score @
score p => score p
explain --x=y => usage
explain x=y => explain x=y
gen 0 1 => gen 0 1
gen 4294967295 10000 => gen 4294967295 10000
tour 0 1 => tour 0 1 workers 1 buffer 64
tour --buffer=7 8 --workers 3 9 => tour 8 9 workers 3 buffer 7
solve => usage
swim p => usage
solve p p => usage
solve -p => usage
solve p -- => usage
solve -- p => usage
solve - => usage
solve @ --feed @ => usage
replay @ --feed f --journal @ => usage
solve p --workers 0 => usage
solve p --workers 02 => usage
solve p --workers 17 => usage
solve p --workers +2 => usage
solve p --workers 1 --workers 1 => usage
solve p --workers=1 --workers 2 => usage
solve p --workers=1=1 => usage
solve p --workers => usage
solve p --buffer 0 => usage
solve p --buffer 1025 => usage
solve p --feed => usage
solve p --feed= => usage
solve p --feed=-f => usage
solve p --feed -f => usage
solve p --fee f => usage
solve p --journal j => usage
solve p -w 2 => usage
solve --help => usage
solve p --version => usage
help => usage
solve 4294967296 p => usage
solve ١ @ => usage
solve 7 --workers 2 p --buffer=4 => usage
--workers p solve --buffer=4 2 => usage
--version 0 1 => usage
replay p --feed f j => usage
replay p --feed --journal j => usage
replay p --journal=j => usage
replay p --feed f --journal j --workers 1 => usage
score => usage
score solve @ => usage
score p --feed f => usage
score --help 1 => usage
explain p --workers 2 => usage
gen 0 0 => usage
gen 0 10001 => usage
gen 4294967296 1 => usage
gen 00 1 => usage
gen 1 --workers=2 2 => usage
gen tour => usage
tour --feed=a=b 1 => usage
tour 0 1 --feed f => usage
tour 0 => usage
p --journal=j => usage
score "" p => usage
"" 2 --workers => usage
solve "" => usage
solve p --feed "" => usage
solve p --workers "" => usage"#;

/// The words of a case.
fn texts(alloc: Global, line: &str) -> Result<Vec<Text>, Memory> {
    let mut texts = Vec::new(alloc);
    for word in line.split_whitespace() {
        let word = if word == "\"\"" { "" } else { word };
        texts.push(Text::from_slice(alloc, word.as_bytes())?)?;
    }
    Ok(texts)
}

/// The command as a line, with `-` for a feed that isn't there.
fn shown(alloc: Global, command: &Command) -> Result<String, AllocError> {
    match command {
        Command::Solve {
            name,
            feed,
            workers,
            buffer,
        } => {
            let name = word(name);
            let feed = feed.as_ref().map_or("-", word);
            format!(in alloc; "solve {name} feed {feed} workers {workers} buffer {buffer}")
        }
        Command::Replay {
            name,
            feed,
            journal,
        } => {
            let name = word(name);
            let feed = word(feed);
            let journal = word(journal);
            format!(in alloc; "replay {name} feed {feed} journal {journal}")
        }
        Command::Score { name } => format!(in alloc; "score {}", word(name)),
        Command::Explain { name } => format!(in alloc; "explain {}", word(name)),
        Command::Gen { number, size } => format!(in alloc; "gen {number} {size}"),
        Command::Tour {
            number,
            size,
            workers,
            buffer,
        } => format!(in alloc; "tour {number} {size} workers {workers} buffer {buffer}"),
    }
}

/// What the words are, as a line: a command, or what they are refused for.
fn answer(alloc: Global, words: &[Text]) -> Result<String, AllocError> {
    match read_words(alloc, words) {
        Ok(command) => shown(alloc, &command),
        Err(WordFault::Usage) => String::from_str(alloc, "usage"),
        Err(WordFault::Memory) => String::from_str(alloc, "memory"),
    }
}

/// Whether the words are what is wanted.
fn answers(alloc: Global, words: &[Text], wanted: &str) -> bool {
    match answer(alloc, words) {
        Ok(line) => line.as_str() == wanted,
        Err(_) => false,
    }
}

/// Whether the words of the case are what it says behind its arrow.
fn is_right(alloc: Global, case: &str) -> Result<bool, Memory> {
    let Some((words, wanted)) = case.split_once("=> ") else {
        return Ok(false);
    };
    let words = texts(alloc, words)?;
    Ok(answers(alloc, &words, wanted))
}

/// The first case of which the words are something else.
fn wrong_case(alloc: Global) -> Option<&'static str> {
    for case in CASES.lines() {
        if is_right(alloc, case) != Ok(true) {
            return Some(case);
        }
    }
    None
}

#[test]
fn words_are_the_commands_that_they_should_be(rt: HostRuntime) -> Result<(), Fail> {
    let wrong = wrong_case(rt.alloc());
    assert!(rt; wrong.is_none(), "{wrong:?}");
    Ok(())
}

/// Whether words that are not UTF-8 are usage.
fn not_utf8_is_usage(alloc: Global) -> Result<bool, Memory> {
    let mut words = texts(alloc, "solve p --feed")?;
    words.push(Text::from_slice(alloc, b"\xff")?)?;
    Ok(matches!(read_words(alloc, &words), Err(WordFault::Usage)))
}

#[test]
fn words_that_are_not_utf8_are_usage(rt: HostRuntime) -> Result<(), Fail> {
    assert!(rt; not_utf8_is_usage(rt.alloc()) == Ok(true));
    Ok(())
}
