ghost use Rattle.std.specs.Prelude.{◌≡◌, ◌++◌, [], true, false, Some, None, is_some, option_map, IfOk, OnOk, IfSome, IfNone, OnSome, option_to_list, ◌∷◌, ◌≤◌, length};
ghost use Rattle.std.specs.Str.{is_utf8};
ghost use Rattle.plan_words.specs.Canonical.{canonical, option_words};
ghost use Rattle.clap.specs.Words.{found_of};
ghost use Rattle.plan_words.specs.Line.{texts, word_at};
ghost use Rattle.plan_words.specs.Parsers.{HasNoGap, found_line};
ghost use Rattle.plan_words.specs.Sorted.{Sorted, one, two, sorted_words};
ghost use Rattle.plan_words.specs.Adding.{GoesOn, with_word, with_value, filled, with_words, nothing};

use clap::ArgMatches;
use plan_facts::{Memory, Text};
use std::alloc::Global;
use std::marker::Model;

/// The words of a command line after its first, sorted out.
#[derive(Drop)]
pub struct Line<'a> {
    first: Option<&'a str>,
    second: Option<&'a str>,
    feed: Option<&'a str>,
    journal: Option<&'a str>,
    workers: Option<&'a str>,
    buffer: Option<&'a str>,
}

impl<'a> Model for Line<'a> {
    ghost Value = { Sorted };

    ghost view = { λ line. record {
      positional = option_to_list (word_at line.first) ++ option_to_list (word_at line.second);
      feed = word_at line.feed;
      journal = word_at line.journal;
      workers = word_at line.workers;
      buffer = word_at line.buffer;
    } };

    ghost invariant = { λ line. is_some line.second ≡ true → is_some line.first ≡ true };
}

impl<'a> Line<'a> {
    /// Sorts out the words after the first; none where they break a rule that all commands have.
    pub fn of(words: &'a [Text]) -> Option<Line<'a>>
        ensures { result ≡ sorted_words words.now }
    {
        let mut line = Line::empty();
        let mut rest = words;
        while let Some((word, more)) = rest.split_first() {
            rest = line.take(word, more)?;
        }
        Some(line)
    }

    /// The one positional word, where there is just one.
    pub fn one(&self) -> Option<&'a str>
        ensures { word_at result ≡ one self.now.positional }
    {
        match self.second {
            Some(_) => None,
            None => self.first,
        }
    }

    /// The two positional words, where there are two.
    pub fn two(&self) -> Option<(&'a str, &'a str)>
        ensures { option_map (λ p. (p.0.now, p.1.now)) result ≡ two self.now.positional }
    {
        Some((self.first?, self.second?))
    }

    pub fn feed(&self) -> Option<&'a str>
        ensures { word_at result ≡ self.now.feed }
    {
        self.feed
    }

    pub fn journal(&self) -> Option<&'a str>
        ensures { word_at result ≡ self.now.journal }
    {
        self.journal
    }

    pub fn workers(&self) -> Option<&'a str>
        ensures { word_at result ≡ self.now.workers }
    {
        self.workers
    }

    pub fn buffer(&self) -> Option<&'a str>
        ensures { word_at result ≡ self.now.buffer }
    {
        self.buffer
    }

    /// The words of the command that begins with `first`, in one order: the options, each with its
    /// value in one word, and then the positional words.
    pub fn canonical(&self, alloc: Global, first: &str) -> Result<Vec<String>, Memory>
        ensures words { IfOk result (λ words. texts words.items ≡ canonical first.now self.now) }
        ensures at_most_two { length self.now.positional ≤ 2 }
    {
        let (word, next) = (self.first, self.second);
        let mut words = Vec::new(alloc);
        push(alloc, &mut words, first)?;
        push_option(alloc, &mut words, "--feed=", self.feed)?;
        push_option(alloc, &mut words, "--journal=", self.journal)?;
        push_option(alloc, &mut words, "--workers=", self.workers)?;
        push_option(alloc, &mut words, "--buffer=", self.buffer)?;
        push(alloc, &mut words, "--")?;
        push_positional(alloc, &mut words, word)?;
        push_positional(alloc, &mut words, next)?;
        Ok(words)
    }

    /// The line whose words a parser read.
    pub fn read_from(matches: &ArgMatches<'a>) -> Line<'a>
        requires { HasNoGap (found_of matches.now) }
        ensures { result ≡ found_line (found_of matches.now) }
    {
        Line {
            first: matches.get_str("first"),
            second: matches.get_str("second"),
            feed: matches.get_str("feed"),
            journal: matches.get_str("journal"),
            workers: matches.get_str("workers"),
            buffer: matches.get_str("buffer"),
        }
    }

    // Takes in the first of some words, with the next one where that is its value. Answers the others.
    fn take(&mut self, word: &'a Text, more: &'a [Text]) -> Option<&'a [Text]>
        ensures some { IfSome result (λ rest. GoesOn self.old (word.now ∷ more.now) self.new rest.now) }
        ensures shorter { IfSome result (λ rest. length rest.now ≤ length more.now) }
        ensures none { IfNone result (with_words self.old (word.now ∷ more.now) ≡ None) }
    {
        let text = utf8(word)?;
        if !text.starts_with('-') {
            self.put_word(text)?;
            return Some(more);
        }
        if let Some((name, value)) = text.split_once('=') {
            self.put_value(name, value)?;
            return Some(more);
        }
        let (next, rest) = more.split_first()?;
        let value = utf8(next)?;
        self.put_value(text, value)?;
        Some(rest)
    }

    fn empty() -> Line<'a>
        ensures { result ≡ nothing }
    {
        Line {
            first: None,
            second: None,
            feed: None,
            journal: None,
            workers: None,
            buffer: None,
        }
    }

    fn put_word(&mut self, word: &'a str) -> Option<()>
        ensures some { OnSome result (with_word self.old word.now ≡ Some self.new) }
        ensures none { IfNone result (with_word self.old word.now ≡ None) }
    {
        if self.first.is_none() {
            self.first = Some(word);
            return Some(());
        }
        put(&mut self.second, word)
    }

    fn put_value(&mut self, name: &str, value: &'a str) -> Option<()>
        ensures some { OnSome result (with_value self.old name.now value.now ≡ Some self.new) }
        ensures none { IfNone result (with_value self.old name.now value.now ≡ None) }
    {
        if value.starts_with('-') {
            return None;
        }
        match name {
            "--feed" => put(&mut self.feed, value),
            "--journal" => put(&mut self.journal, value),
            "--workers" => put(&mut self.workers, value),
            "--buffer" => put(&mut self.buffer, value),
            _ => None,
        }
    }
}

// Puts a word into a place that is empty.
fn put<'a>(place: &mut Option<&'a str>, word: &'a str) -> Option<()>
    ensures some { OnSome result (filled (word_at place.old) word.now ≡ Some (word_at place.new)) }
    ensures none { IfNone result ((filled (word_at place.old) word.now ≡ None) × (place.new ≡ place.old)) }
{
    if place.is_some() {
        return None;
    }
    *place = Some(word);
    Some(())
}

// The word as a text, where it is UTF-8.
fn utf8(word: &Text) -> Option<&str>
    ensures some { IfSome result (λ text. (text.now ≡ word.now) × (is_utf8 word.now ≡ true)) }
    ensures none { IfNone result (is_utf8 word.now ≡ false) }
{
    std::str::from_utf8(word.as_slice()).ok()
}

fn push(alloc: Global, words: &mut Vec<String>, word: &str) -> Result<(), Memory>
    ensures { OnOk result (texts words.new.items ≡ texts words.old.items ++ word.now ∷ []) }
{
    words.push(String::from_str(alloc, word)?)?;
    Ok(())
}

fn push_positional(alloc: Global, words: &mut Vec<String>, word: Option<&str>) -> Result<(), Memory>
    ensures { OnOk result (texts words.new.items ≡ texts words.old.items ++ option_to_list (word_at word.entry)) }
{
    if let Some(word) = word {
        push(alloc, words, word)?;
    }
    Ok(())
}

// The name of the option and its value, as one word.
fn push_option(
    alloc: Global,
    words: &mut Vec<String>,
    name: &str,
    value: Option<&str>,
) -> Result<(), Memory>
    ensures { let added = option_words name.now (word_at value.entry) in
        OnOk result (texts words.new.items ≡ texts words.old.items ++ added) }
{
    if let Some(value) = value {
        let mut word = String::from_str(alloc, name)?;
        word.push_str(value)?;
        words.push(word)?;
    }
    Ok(())
}
