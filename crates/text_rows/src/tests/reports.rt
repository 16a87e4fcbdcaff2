//! Reports: the text of each line that a run prints.

use super::fixtures::rule_of;
use plan_changes::{ChangeFault, Spot};
use plan_facts::{Kind, List, Memory, Rec, Schema, Text};
use plan_reports::{Line, write_line};
use plan_rules::{Part, Row, RuleDef};
use plan_scores::{PlanScore, Score};
use std::alloc::Global;
use std::test::Fail;
use test_plans::VarSketch::Var;
use test_plans::{ClassSketch, schema_of};

/// A size, which each class has.
const SIZE: &[(&str, Kind)] = &[("size", Kind::Number)];

/// Timeslots, rooms and lessons, which have a slot and a room.
const CLASSES: &[ClassSketch] = &[
    ClassSketch("timeslot", SIZE, &[]),
    ClassSketch("room", SIZE, &[]),
    ClassSketch("lesson", SIZE, &[Var("slot", 0), Var("room", 1)]),
];

/// One rule, over lessons.
fn rules(alloc: Global) -> Result<List<RuleDef>, Memory> {
    let rule = rule_of(alloc, b"room_conflict", 1, 2)?;
    let mut rules = List::new(alloc);
    rules.push(rule)?;
    Ok(rules)
}

/// A score of so many hard points.
fn hard(hard: i64) -> Score {
    Score {
        hard,
        medium: 0,
        soft: 0,
    }
}

/// The score of the plan once its entities are placed.
fn placed() -> PlanScore {
    PlanScore {
        unplaced: 0,
        score: hard(-1),
    }
}

/// The score of the plan while two variables are null.
fn unplaced() -> PlanScore {
    PlanScore {
        unplaced: 2,
        score: hard(0),
    }
}

/// A lesson without fields and variables.
fn lesson(alloc: Global, id: u32) -> Part {
    Part::Fact(Rec {
        class: 2,
        id,
        fields: List::new(alloc),
        planned: List::new(alloc),
    })
}

/// A lesson and a number.
fn row(alloc: Global) -> Result<Row, Memory> {
    let mut row = Row::new(alloc);
    row.push(lesson(alloc, 1))?;
    row.push(Part::Num(-7))?;
    Ok(row)
}

/// A line that lists values or a row.
fn listed(alloc: Global, place: u32) -> Result<Line, Memory> {
    Ok(match place {
        0 => Line::Place {
            class: 2,
            id: 1,
            values: List::from_slice(alloc, &[Some(1), Some(2)])?,
            score: unplaced(),
        },
        1 => Line::Entity {
            class: 2,
            id: 2,
            values: List::from_slice(alloc, &[None, Some(1)])?,
        },
        2 => Line::Match {
            impact: hard(-1),
            row: row(alloc)?,
        },
        _ => Line::Run {
            domain: Text::from_slice(alloc, b"timetable")?,
        },
    })
}

/// The lines of a run over lessons 1 and 2 in one room, as they are printed one after the other.
fn of_run(alloc: Global, place: u32) -> Result<Line, Memory> {
    Ok(match place {
        0 => listed(alloc, 3)?,
        1 => Line::Leg { boundary: 0 },
        2 => listed(alloc, 0)?,
        3 => Line::Stuck { class: 2, id: 2 },
        4 => Line::Start(placed()),
        5 => Line::Best(placed()),
        6 => listed(alloc, 1)?,
        7 => Line::Rule {
            rule: 0,
            count: 1,
            impact: hard(-1),
        },
        8 => listed(alloc, 2)?,
        9 => Line::End,
        _ => Line::Total(unplaced()),
    })
}

/// The lines of a tour, that of a fact of two matches, and those of changes that were made.
fn of_tour(place: u32) -> Line {
    match place {
        0 => Line::Tour {
            number: 7,
            size: 200,
        },
        1 => Line::Facts(250),
        2 => Line::Legs(1),
        3 => Line::Steps(1000),
        4 => Line::Wins(17),
        5 => Line::Indict {
            class: 2,
            id: 1,
            count: 2,
            impact: hard(-3),
        },
        6 => Line::Applied {
            line: 1,
            boundary: 0,
            class: 1,
            id: 2,
        },
        _ => Line::AppliedRule {
            line: 12,
            boundary: 34,
            rule: 0,
        },
    }
}

/// The texts of these lines.
const OF_RUN: [&str; 11] = [
    "run timetable\n",
    "leg 0\n",
    "place lesson#1 slot=1 room=2 -2init/0hard/0medium/0soft\n",
    "stuck lesson#2\n",
    "start -1hard/0medium/0soft\n",
    "best -1hard/0medium/0soft\n",
    "lesson#2 slot=- room=1\n",
    "rule room_conflict 1 -1hard/0medium/0soft\n",
    "match -1hard/0medium/0soft lesson#1 -7\n",
    "end\n",
    "score -2init/0hard/0medium/0soft\n",
];

const OF_TOUR: [&str; 8] = [
    "tour 7 200\n",
    "facts 250\n",
    "legs 1\n",
    "steps 1000\n",
    "won 17\n",
    "indict lesson#1 2 -3hard/0medium/0soft\n",
    "change 1 0 applied room#2\n",
    "change 12 34 applied rule room_conflict\n",
];

/// What lines are about.
#[derive(Drop)]
struct About {
    schema: Schema,
    rules: List<RuleDef>,
}

/// The classes and the rule of these tests.
fn classes_and_rule(alloc: Global) -> Result<About, Fail> {
    let schema = schema_of(alloc, CLASSES)?;
    let rules = rules(alloc)?;
    Ok(About { schema, rules })
}

/// Whether the line has this text, behind what was written before.
fn has_text(alloc: Global, about: &About, line: &Line, wanted: &str) -> Result<bool, Memory> {
    let mut out = Vec::from_slice(alloc, b"before")?;
    write_line(&about.schema, about.rules.as_slice(), line, &mut out)?;
    Ok(out.as_slice().strip_prefix(b"before") == Some(wanted.as_bytes()))
}

/// Whether a line of the run has this text.
fn runs(alloc: Global, about: &About, place: u32, wanted: &str) -> Result<bool, Memory> {
    let line = of_run(alloc, place)?;
    has_text(alloc, about, &line, wanted)
}

/// The first line of the run that has another text.
fn wrong_of_run(alloc: Global, about: &About) -> Option<u32> {
    for place in 0..11 {
        if runs(alloc, about, place, OF_RUN[place as usize]) != Ok(true) {
            return Some(place);
        }
    }
    None
}

/// The first line of the tour that has another text.
fn wrong_of_tour(alloc: Global, about: &About) -> Option<u32> {
    for place in 0..8 {
        if has_text(alloc, about, &of_tour(place), OF_TOUR[place as usize]) != Ok(true) {
            return Some(place);
        }
    }
    None
}

#[test]
fn each_line_has_its_text(rt: HostRuntime) -> Result<(), Fail> {
    let about = classes_and_rule(rt.alloc())?;
    let wrong = (
        wrong_of_run(rt.alloc(), &about),
        wrong_of_tour(rt.alloc(), &about),
    );
    assert!(rt; wrong == (None, None));
    Ok(())
}

/// Each fault of a change, with the words of a change that was refused for it.
const REFUSED: [(ChangeFault, &str); 20] = [
    (
        ChangeFault::Syntax(Spot::Json),
        "change 7 3 refused syntax json\n",
    ),
    (
        ChangeFault::Syntax(Spot::Object),
        "change 7 3 refused syntax object\n",
    ),
    (
        ChangeFault::Syntax(Spot::Do),
        "change 7 3 refused syntax do\n",
    ),
    (
        ChangeFault::Syntax(Spot::Class),
        "change 7 3 refused syntax class\n",
    ),
    (
        ChangeFault::Syntax(Spot::Id),
        "change 7 3 refused syntax id\n",
    ),
    (
        ChangeFault::Syntax(Spot::Fields),
        "change 7 3 refused syntax fields\n",
    ),
    (
        ChangeFault::Syntax(Spot::Values),
        "change 7 3 refused syntax values\n",
    ),
    (
        ChangeFault::Syntax(Spot::Rule),
        "change 7 3 refused syntax rule\n",
    ),
    (
        ChangeFault::Syntax(Spot::Weight),
        "change 7 3 refused syntax weight\n",
    ),
    (
        ChangeFault::Syntax(Spot::Member),
        "change 7 3 refused syntax member\n",
    ),
    (ChangeFault::LongLine, "change 7 3 refused long_line\n"),
    (
        ChangeFault::UnknownClass,
        "change 7 3 refused unknown_class\n",
    ),
    (
        ChangeFault::NoSuchFact { id: 9 },
        "change 7 3 refused no_such_fact\n",
    ),
    (ChangeFault::BadField, "change 7 3 refused bad_field\n"),
    (ChangeFault::BadValue, "change 7 3 refused bad_value\n"),
    (
        ChangeFault::TooManyFacts,
        "change 7 3 refused too_many_facts\n",
    ),
    (
        ChangeFault::RangeProduct { class: 2 },
        "change 7 3 refused range_product lesson\n",
    ),
    (
        ChangeFault::RowsBound { rule: 0 },
        "change 7 3 refused rows_bound room_conflict\n",
    ),
    (ChangeFault::ScoreRange, "change 7 3 refused score_range\n"),
    (
        ChangeFault::UnknownRule,
        "change 7 3 refused unknown_rule\n",
    ),
];

/// Whether a change that was refused for the fault has this line.
fn refuses(alloc: Global, about: &About, fault: ChangeFault, wanted: &str) -> Result<bool, Memory> {
    let line = Line::Refused {
        line: 7,
        boundary: 3,
        fault,
    };
    has_text(alloc, about, &line, wanted)
}

/// The place of the first fault that has other words.
fn wrong_refusal(alloc: Global, about: &About) -> Option<usize> {
    for (place, (fault, wanted)) in REFUSED.iter().enumerate() {
        if refuses(alloc, about, *fault, wanted) != Ok(true) {
            return Some(place);
        }
    }
    None
}

#[test]
fn each_refusal_has_its_words(rt: HostRuntime) -> Result<(), Fail> {
    let about = classes_and_rule(rt.alloc())?;
    assert!(rt; wrong_refusal(rt.alloc(), &about) == None);
    Ok(())
}
