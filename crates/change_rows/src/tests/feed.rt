//! Lines of feeds, and what they are read as.

use super::expect_none;
use crate::spot_words;
use change_feed::{Feed, FeedFault, body_of};
use plan_changes::{Body, Change, Deed, FieldItem, Item, LineFault, Post, ValueItem};
use plan_ports::MemSource;
use std::alloc::{AllocError, Global};
use std::test::Fail;

/// The words of a deed.
fn deed_words(deed: Deed) -> &'static str {
    match deed {
        Deed::Add => "add",
        Deed::Remove => "remove",
        Deed::Alter => "alter",
        Deed::Assign => "assign",
        Deed::Weight => "weight",
    }
}

/// The words of a body: a change by its deed.
fn body_words(body: &Body) -> &'static str {
    match body {
        Body::Do(change) => deed_words(change.deed),
        Body::Bad(LineFault::Syntax(spot)) => spot_words(*spot),
        Body::Bad(LineFault::LongLine) => "long_line",
        Body::Stop(_) => "stop",
    }
}

/// Lines of text behind what they are read as.
const LINES: &str = r#"syntax json: {
syntax object: []
syntax object: null
syntax object: 7
syntax do: {"class":"room"}
syntax do: {"do":1,"class":"room"}
syntax do: {"do":"drop"}
syntax class: {"do":"add"}
syntax class: {"do":"add","class":1,"fields":{}}
syntax class: {"do":"remove","id":0}
syntax id: {"do":"remove","class":"room"}
syntax id: {"do":"remove","class":"room","id":0}
syntax id: {"do":"remove","class":"room","id":1.0}
syntax id: {"do":"remove","class":"room","id":1000000001}
syntax id: {"do":"alter","class":"room","id":"1","fields":{}}
syntax id: {"do":"assign","class":"room","id":-1,"values":{}}
syntax fields: {"do":"add","class":"room"}
syntax fields: {"do":"alter","class":"room","id":1}
syntax fields: {"do":"alter","class":"room","id":1,"fields":[]}
syntax fields: {"do":"add","class":"room","fields":{"capacity":null}}
syntax fields: {"do":"add","class":"room","fields":{"capacity":1.5},"values":1}
syntax values: {"do":"assign","class":"lesson","id":1}
syntax values: {"do":"assign","class":"lesson","id":1,"values":[]}
syntax values: {"do":"assign","class":"lesson","id":1,"values":{"slot":0}}
syntax values: {"do":"add","class":"room","fields":{},"values":{"slot":"1"}}
syntax values: {"do":"add","class":"room","fields":{},"values":null}
syntax rule: {"do":"weight","weight":1}
syntax rule: {"do":"weight","rule":1}
syntax weight: {"do":"weight","rule":"room_size"}
syntax weight: {"do":"weight","rule":"room_size","weight":1000001}
syntax weight: {"do":"weight","rule":"room_size","weight":-1,"x":1}
syntax member: {"do":"add","class":"room","id":1,"fields":{"capacity":1}}
syntax member: {"do":"remove","class":"room","id":1,"fields":{}}
syntax member: {"do":"remove","class":"room","id":1,"values":1}
syntax member: {"do":"alter","class":"room","id":1,"fields":{},"values":{}}
syntax member: {"do":"assign","class":"room","id":1,"fields":{},"values":{}}
syntax member: {"do":"weight","rule":"room_size","weight":3,"class":"room"}
add: {"do":"add","class":"room","fields":{"capacity":5}}
add: {"do":"add","class":"lesson","fields":{"size":5},"values":{"slot":null,"room":1}}
remove: {"do":"remove","class":"room","id":9}
remove: {"do":"remove","class":"room","id":0,"id":1000000000}
alter: {"do":"alter","class":"room","id":1,"fields":{}}
assign: {"do":"assign","class":"lesson","id":1,"values":{"slot":99}}
weight: {"do":"weight","rule":"rum","weight":1000000}"#;

/// Other lines: an empty one, lines that end in a carriage return, and lines that aren't UTF-8; and what they are
/// read as.
const OTHERS: [(&[u8], &str); 5] = [
    (b"", "syntax json"),
    (b"\r", "syntax json"),
    (b"\xff", "syntax json"),
    (
        b"{\"do\":\"remove\",\"class\":\"\xff\",\"id\":1}",
        "syntax json",
    ),
    (
        b" {\"do\":\"add\",\"class\":\"room\",\"fields\":{}}\r",
        "add",
    ),
];

/// What a field of this name is given, a number or a name; or what a variable of this name is given.
enum Part {
    Num(&'static str, i64),
    Name(&'static str, &'static str),
    Value(&'static str, Option<u32>),
}

/// A line that is a change, and what it says: the class with the id, the rule with its weight, how many fields it
/// has, and the fields and then the variables, in the order of their names.
struct Said {
    line: &'static str,
    class: &'static str,
    id: u32,
    rule: &'static str,
    weight: u32,
    fields: usize,
    parts: &'static [Part],
}

/// Lines that are changes.
const CHANGES: &[Said] = &[
    Said {
        line: r#"{"values":{"slot":null,"room":7},"fields":{"size":-5,"group":"G","a":"1"},"class":"lesson","do":"add"}"#,
        class: "lesson",
        id: 0,
        rule: "",
        weight: 0,
        fields: 3,
        parts: &[
            Part::Name("a", "1"),
            Part::Name("group", "G"),
            Part::Num("size", -5),
            Part::Value("room", Some(7)),
            Part::Value("slot", None),
        ],
    },
    Said {
        line: r#"{"do":"remove","class":"room","id":9}"#,
        class: "room",
        id: 9,
        rule: "",
        weight: 0,
        fields: 0,
        parts: &[],
    },
    Said {
        line: r#"{"do":"alter","class":"timeslot","id":2,"fields":{"start":580,"end":640,"start":590}}"#,
        class: "timeslot",
        id: 2,
        rule: "",
        weight: 0,
        fields: 2,
        parts: &[Part::Num("end", 640), Part::Num("start", 590)],
    },
    Said {
        line: r#"{"do":"assign","class":"lesson","id":1,"values":{"slot":1000000000}}"#,
        class: "lesson",
        id: 1,
        rule: "",
        weight: 0,
        fields: 0,
        parts: &[Part::Value("slot", Some(1_000_000_000))],
    },
    Said {
        line: r#"{"do":"weight","rule":"room_size","weight":3}"#,
        class: "",
        id: 0,
        rule: "room_size",
        weight: 3,
        fields: 0,
        parts: &[],
    },
];

/// Whether the field has this name and is given this.
fn is_field(field: &FieldItem, part: &Part) -> bool {
    let name = field.name.as_slice();
    match (part, &field.item) {
        (Part::Num(wanted, number), Item::Num(given)) => {
            name == wanted.as_bytes() && given == number
        }
        (Part::Name(wanted, text), Item::Name(given)) => {
            name == wanted.as_bytes() && given.as_slice() == text.as_bytes()
        }
        _ => false,
    }
}

/// Whether the variable has this name and is given this.
fn is_value(value: &ValueItem, part: &Part) -> bool {
    match part {
        Part::Value(wanted, given) => {
            value.name.as_slice() == wanted.as_bytes() && value.value == *given
        }
        _ => false,
    }
}

/// Whether the fields are given the first of these parts.
fn are_fields(fields: &[FieldItem], parts: &[Part]) -> bool {
    for place in 0..fields.len() {
        if place >= parts.len() || !is_field(&fields[place], &parts[place]) {
            return false;
        }
    }
    true
}

/// Whether the variables are given the last of these parts, those behind so many fields.
fn are_values(values: &[ValueItem], parts: &[Part], fields: usize) -> bool {
    for place in 0..values.len() {
        match parts.get(fields.saturating_add(place)) {
            Some(part) if is_value(&values[place], part) => {}
            _ => return false,
        }
    }
    fields.saturating_add(values.len()) == parts.len()
}

/// Whether the change names this class and this rule.
fn is_of(change: &Change, said: &Said) -> bool {
    change.class.as_slice() == said.class.as_bytes()
        && change.rule.as_slice() == said.rule.as_bytes()
}

/// Whether the change has this id, this weight and so many fields.
fn has_numbers(change: &Change, said: &Said) -> bool {
    change.id == said.id && change.weight == said.weight && change.fields.len() == said.fields
}

/// Whether the change gives these parts.
fn gives_parts(change: &Change, said: &Said) -> bool {
    are_fields(change.fields.as_slice(), said.parts)
        && are_values(change.values.as_slice(), said.parts, said.fields)
}

/// Whether the change says this.
fn is_said(change: &Change, said: &Said) -> bool {
    is_of(change, said) && has_numbers(change, said) && gives_parts(change, said)
}

/// Whether the line was read as these words, or where a change is due as one that says this.
fn is_due(body: &Body, words: &str, said: Option<&Said>) -> bool {
    match (said, body) {
        (None, _) => body_words(body) == words,
        (Some(said), Body::Do(change)) => is_said(change, said),
        _ => false,
    }
}

/// Whether the line is read as these words, or where a change is due as one that says this.
fn is_read(alloc: Global, line: &[u8], words: &str, said: Option<&Said>) -> bool {
    match body_of(alloc, line) {
        Ok(body) => is_due(&body, words, said),
        Err(_) => false,
    }
}

/// Whether the line is read as the words before it.
fn is_row_read(alloc: Global, row: &str) -> bool {
    match row.split_once(": ") {
        Some((words, line)) => is_read(alloc, line.as_bytes(), words, None),
        None => false,
    }
}

/// The first line of text that isn't read as it should be.
fn first_misread(alloc: Global) -> Option<usize> {
    let mut place = 0usize;
    for row in LINES.lines() {
        if !is_row_read(alloc, row) {
            return Some(place);
        }
        place = place.saturating_add(1);
    }
    None
}

/// The first of the other lines that isn't read as it should be.
fn first_other(alloc: Global) -> Option<usize> {
    for place in 0..OTHERS.len() {
        let (line, words) = OTHERS[place];
        if !is_read(alloc, line, words, None) {
            return Some(place);
        }
    }
    None
}

#[test]
fn finds_the_first_fault_of_a_line(rt: HostRuntime) -> Result<(), Fail> {
    expect_none(&rt, first_misread(rt.alloc()));
    expect_none(&rt, first_other(rt.alloc()));
    Ok(())
}

/// The first line that isn't a change that says what it should.
fn first_unsaid(alloc: Global) -> Option<usize> {
    for place in 0..CHANGES.len() {
        let said = &CHANGES[place];
        if !is_read(alloc, said.line.as_bytes(), "", Some(said)) {
            return Some(place);
        }
    }
    None
}

#[test]
fn reads_what_a_change_says(rt: HostRuntime) -> Result<(), Fail> {
    expect_none(&rt, first_unsaid(rt.alloc()));
    Ok(())
}

/// The words of why a feed ended early.
fn fault_words(fault: FeedFault) -> &'static str {
    match fault {
        FeedFault::Memory => "memory",
        FeedFault::ReadFault => "read_fault",
        FeedFault::Overrun => "overrun",
    }
}

/// What came next in a feed: a line by its number, or with the number 0 an end, in words.
fn words_of(next: &Result<Option<Post>, FeedFault>) -> (u32, &'static str) {
    match next {
        Ok(Some(post)) => (post.line, body_words(&post.body)),
        Ok(None) => (0, "end"),
        Err(fault) => (0, fault_words(*fault)),
    }
}

/// The next line of a feed, by its number, or with the number 0 its end, in words.
fn next_words(feed: &mut Feed, src: &mut MemSource) -> (u32, &'static str) {
    if feed.ended() {
        return (0, "ended before");
    }
    let next = feed.next_line(src);
    words_of(&next)
}

/// Whether the next line of a feed has this number and these words.
fn is_next(feed: &mut Feed, src: &mut MemSource, line: usize, words: &str) -> bool {
    let (number, given) = next_words(feed, src);
    number as usize == line && given == words
}

/// A feed of six lines.
const SIX: &str = r#"{"do":"add","class":"room","fields":{"capacity":5}}
{"do":"add","class":"room","fields":{"capacity":5}}
{"do":"remove","class":"room","id":9}
{"do":"add","class":"rum","fields":{}}
{"do":"alter","class":"room","id":2,"fields":{"size":1}}
{"#;

/// What the six lines are read as.
const SIX_WORDS: [&str; 6] = ["add", "add", "remove", "add", "alter", "syntax json"];

/// A take that no source comes to.
const NEVER: u32 = 1_000_000;

/// A source: so many times a byte, a text, and the six lines behind them if they are to be there. It gives at most
/// so many bytes in a take, and fails at the take of this number.
struct Bytes(u8, usize, &'static str, bool, usize, u32);

/// What a feed gives: so many lines of these words, then so many of the six, and then this end.
struct Lines(usize, &'static str, usize, &'static str);

/// Sources, and what feeds of them give.
const FEEDS: &[(Bytes, Lines)] = &[
    // Each line is given once, however the bytes come.
    (Bytes(0, 0, "", true, 1, NEVER), Lines(0, "", 6, "end")),
    (Bytes(0, 0, "", true, 3, NEVER), Lines(0, "", 6, "end")),
    (Bytes(0, 0, "", true, 50, NEVER), Lines(0, "", 6, "end")),
    (Bytes(0, 0, "", true, 1_000, NEVER), Lines(0, "", 6, "end")),
    // Of three bytes a take the first 17 hold no whole line, and the eighteenth the first line's end.
    (Bytes(0, 0, "", true, 3, 0), Lines(0, "", 0, "read_fault")),
    (Bytes(0, 0, "", true, 3, 17), Lines(0, "", 0, "read_fault")),
    (Bytes(0, 0, "", true, 3, 18), Lines(0, "", 1, "read_fault")),
    (Bytes(0, 0, "", true, 3, 34), Lines(0, "", 1, "read_fault")),
    (Bytes(0, 0, "", true, 3, 35), Lines(0, "", 2, "read_fault")),
    // A long line is refused, and those behind it are given.
    (
        Bytes(b'x', 65_537, "\n", true, 5_000, NEVER),
        Lines(1, "long_line", 6, "end"),
    ),
    (
        Bytes(b'x', 65_536, "\n", true, 5_000, NEVER),
        Lines(1, "syntax json", 6, "end"),
    ),
    (
        Bytes(b'x', 500_000, "\n", true, 5_000, NEVER),
        Lines(1, "long_line", 6, "end"),
    ),
    // 4,096 empty lines are taken, and no more.
    (
        Bytes(b'\n', 4_096, "", false, 5_000, NEVER),
        Lines(4_096, "syntax json", 0, "end"),
    ),
    (
        Bytes(b'\n', 4_096, "x", false, 5_000, NEVER),
        Lines(4_096, "syntax json", 0, "overrun"),
    ),
];

/// Writes the bytes.
fn push_bytes(out: &mut Vec<u8>, bytes: &Bytes) -> Result<(), AllocError> {
    let six = if bytes.3 { SIX } else { "" };
    out.resize(bytes.1, bytes.0)?;
    out.extend_from_slice(bytes.2.as_bytes())?;
    out.extend_from_slice(six.as_bytes())
}

/// The bytes as a list.
fn list_of(alloc: Global, bytes: &Bytes) -> Result<Vec<u8>, AllocError> {
    let mut out = Vec::new(alloc);
    push_bytes(&mut out, bytes)?;
    Ok(out)
}

/// The source of the bytes.
fn source(alloc: Global, bytes: &Bytes) -> Result<MemSource, AllocError> {
    let fail = Vec::from_slice(alloc, &[bytes.5])?;
    let list = list_of(alloc, bytes)?;
    Ok(MemSource::new(list, bytes.4.max(1), fail))
}

/// The words of a line that is due, by its place from 0.
fn words_at(lines: &Lines, place: usize) -> &'static str {
    if place < lines.0 {
        return lines.1;
    }
    match SIX_WORDS.get(place - lines.0) {
        Some(words) => words,
        None => "",
    }
}

/// Whether the feed gives these lines, and then this end.
fn gives(feed: &mut Feed, src: &mut MemSource, lines: &Lines) -> bool {
    for place in 0..lines.0.saturating_add(lines.2) {
        if !is_next(feed, src, place.saturating_add(1), words_at(lines, place)) {
            return false;
        }
    }
    is_next(feed, src, 0, lines.3) && feed.ended()
}

/// Whether a feed of the source gives these lines.
fn is_fed(alloc: Global, src: &mut MemSource, lines: &Lines) -> bool {
    let mut feed = Feed::new(alloc);
    gives(&mut feed, src, lines)
}

/// Whether a feed of the bytes gives these lines.
fn is_fed_by(alloc: Global, bytes: &Bytes, lines: &Lines) -> bool {
    match source(alloc, bytes) {
        Ok(mut src) => is_fed(alloc, &mut src, lines),
        Err(_) => false,
    }
}

/// The first feed that doesn't give what it should.
fn first_misfed(alloc: Global) -> Option<usize> {
    for place in 0..FEEDS.len() {
        let (bytes, lines) = &FEEDS[place];
        if !is_fed_by(alloc, bytes, lines) {
            return Some(place);
        }
    }
    None
}

#[test]
fn gives_each_line_once_and_then_the_end(rt: HostRuntime) -> Result<(), Fail> {
    expect_none(&rt, first_misfed(rt.alloc()));
    Ok(())
}
