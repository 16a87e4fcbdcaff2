ghost use Rattle.std.specs.Prelude.{All};

use super::*;
use plan_facts::{Memory, Text};
use plan_json::Domain;
use plan_moves::MoveMaker;
use plan_ports::{MemFile, MemShelf, MemSink, NoGate};
use plan_rules::{Kept, Key, KeyBody, Row, Rules, Test, TestBody, Weigh, WeighBody};
use plan_session::{Status, run};
use std::alloc::Global;
use std::process::Abort;
use std::sync::Wait;
use std::test::Fail;
use std::thread::Threads;

/// A run: its words, the file `p`, and what is printed.
struct Case {
    words: &'static str,
    problem: &'static str,
    text: &'static str,
}

/// Four come with Ada and two with Ben, so that she gets the table for four, though the other comes first. No step is
/// searched.
const PLACED: Case = Case {
    words: "solve p",
    problem: r#"{"format":1,"domain":"restaurant","settings":{"steps":0},"facts":{
        "table":[{"id":1,"seats":2},{"id":2,"seats":4}],
        "party":[{"id":1,"host":"Ada","guests":4},{"id":2,"host":"Ben","guests":2}]}}"#,
    text: r#"run restaurant
leg 0
place party#1 table=2 -1init/0hard/0medium/0soft
place party#2 table=1 0hard/0medium/0soft
start 0hard/0medium/0soft
best 0hard/0medium/0soft
party#1 table=2
party#2 table=1
rule shared 0 0hard/0medium/0soft
rule standing 0 0hard/0medium/0soft
end
"#,
};

/// There is but one table for all.
const CROWDED: Case = Case {
    words: "solve p",
    problem: r#"{"format":1,"domain":"restaurant","settings":{"steps":0},"facts":{
        "table":[{"id":7,"seats":3}],
        "party":[{"id":1,"host":"Ada","guests":5},{"id":2,"host":"Ben","guests":3},
            {"id":4,"host":"Cleo","guests":4}]}}"#,
    text: r#"run restaurant
leg 0
place party#1 table=7 -2init/0hard/0medium/-2soft
place party#2 table=7 -1init/-1hard/0medium/-2soft
place party#4 table=7 -3hard/0medium/-3soft
start -3hard/0medium/-3soft
best -3hard/0medium/-3soft
party#1 table=7
party#2 table=7
party#4 table=7
rule shared 3 -3hard/0medium/0soft
match -1hard/0medium/0soft party#1 party#2
match -1hard/0medium/0soft party#1 party#4
match -1hard/0medium/0soft party#2 party#4
rule standing 2 0hard/0medium/-3soft
match 0hard/0medium/-2soft party#1
match 0hard/0medium/-1soft party#4
end
"#,
};

/// All have a table, and one exchange seats everybody. The words of ChaCha20, as another program gives them, pick in
/// step 1 first Cleo and Ada, whose exchange makes it worse, then Ada twice, which is none, then Ben and Ada. After that
/// each exchange makes it worse.
const EXCHANGED: Case = Case {
    words: "solve p",
    problem: r#"{"format":1,"domain":"restaurant",
        "settings":{"steps":2,"acceptor":"hill","selectors":["own"],"select_limit":6},"facts":{
        "table":[{"id":1,"seats":2},{"id":2,"seats":4},{"id":3,"seats":6}],
        "party":[{"id":1,"host":"Ada","guests":4,"table":1},{"id":2,"host":"Ben","guests":2,"table":2},
            {"id":3,"host":"Cleo","guests":6,"table":3}]}}"#,
    text: r#"run restaurant
leg 0
start 0hard/0medium/-2soft
step 1 candidate 2 0hard/0medium/0soft best
step 2 none 0hard/0medium/0soft
best 0hard/0medium/0soft
party#1 table=2
party#2 table=1
party#3 table=3
rule shared 0 0hard/0medium/0soft
rule standing 0 0hard/0medium/0soft
end
"#,
};

/// Ada's party has two seats and Ben's none yet. A guest who stands counts as three.
const SCORED: Case = Case {
    words: "score p",
    problem: r#"{"format":1,"domain":"restaurant","weights":{"standing":3},"facts":{
        "table":[{"id":1,"seats":2}],
        "party":[{"id":1,"host":"Ada","guests":4,"table":1},{"id":2,"host":"Ben","guests":2}]}}"#,
    text: r#"score -1init/0hard/0medium/-6soft
rule shared 0 0hard/0medium/0soft
rule standing 1 0hard/0medium/-6soft
end
"#,
};

/// A shelf on which these bytes stand under the name `p`.
fn shelf_of(alloc: Global, bytes: &[u8]) -> Result<MemShelf, Memory> {
    let mut files = Vec::new(alloc);
    files.push(MemFile {
        name: Vec::from_slice(alloc, b"p")?,
        bytes: Vec::from_slice(alloc, bytes)?,
        most: 4096,
        fail: Vec::new(alloc),
    })?;
    Ok(MemShelf::new(alloc, files, Vec::new(alloc)))
}

fn words_in(alloc: Global, line: &str) -> Result<Vec<Text>, Memory> {
    let mut words = Vec::new(alloc);
    for word in line.split_whitespace() {
        words.push(Text::from_slice(alloc, word.as_bytes())?)?;
    }
    Ok(words)
}

fn expect<T: Threads + Wait + Sync + Abort>(
    rt: &T,
    alloc: Global,
    case: &Case,
    domains: &[Domain<Restaurant>],
) -> Result<(), Fail>
    requires keeps { All (λ domain. ⟦<Rules<Restaurant> as Kept>⟧.keeps domain.rules) domains.now }
{
    let words = words_in(alloc, case.words)?;
    let mut shelf = shelf_of(alloc, case.problem.as_bytes())?;
    let mut out = MemSink::new(alloc, 4096, Vec::new(alloc));
    let status = run(rt, alloc, &words, &mut shelf, &mut out, &NoGate, domains);
    assert_eq!(rt; out.text(), case.text.as_bytes());
    assert_eq!(rt; status, Status::Ok);
    Ok(())
}

#[test]
fn parties_get_tables(rt: HostRuntime) -> Result<(), Fail> {
    let alloc = rt.alloc();
    let test: TestBody = Box::new(alloc, |row: &Row| -> bool { lacks_seats(row) })?;
    let key: KeyBody = Box::new(alloc, |row: &Row| -> i64 { table_of(row) })?;
    let weigher: WeighBody = Box::new(alloc, |row: &Row| -> u32 { guests_standing(row) })?;
    let maker: Box<dyn MoveMaker> = Box::new(alloc, Maker)?;
    let test = Test::new(TEST_LACKS_SEATS, test);
    let key = Key::new(KEY_TABLE, key);
    let weigher = Weigh::new(WEIGH_STANDING, MOST_STANDING, weigher);
    let domains = [restaurant_of(alloc, test, key, weigher, maker)?];
    for case in &[PLACED, CROWDED, EXCHANGED, SCORED] {
        expect(&rt, alloc, case, &domains)?;
    }
    Ok(())
}
