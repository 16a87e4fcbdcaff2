ghost use Rattle.std.specs.Prelude.{◌≡◌, [], ◌∷◌, IfOk, None, false};
ghost use Rattle.plan_rules.specs.Faults.{rules_fault};
ghost use Rattle.plan_rules.specs.declared.rule.Node.TheVariants.{Join};
ghost use Rattle.domain_timetable.specs.Names.{lesson, timetable_numbers};
ghost use Rattle.domain_timetable.specs.Tables.{timetable_classes, timetable_harder};
ghost use Rattle.domain_timetable.specs.Tables.{timetable_rules, room_conflict, teacher_conflict, group_conflict};
ghost use Rattle.domain_timetable.specs.Tables.{room_size, teacher_away, group_load, teacher_room};
ghost use Rattle.domain_timetable.specs.Tables.{teacher_chain, subject_repeat};

use crate::names::{
    BLOCK, BY_AWAY_DAY, BY_AWAY_TEACHER, BY_DAY, BY_GROUP, BY_LESSONS_TOO_MANY, BY_MISSING_SEATS,
    BY_ROOM, BY_SIZE, BY_SLOT, BY_SUBJECT, BY_TEACHER, DAY_IS_TOO_FULL, FOLLOWS_SOON, LESSON,
    ROOM_IS_TOO_SMALL, ROOMS_DIFFER,
};
use domain_words::{grouped, one_node, pairs, penalty, reward, same_key, weighed_penalty};
use plan_facts::{List, Memory};
use plan_rules::{Collect, Harder, Head, Joiner, Node, RuleDef};
use plan_scores::Level;
use std::alloc::Global;

/// The timetable's rules, which are accepted over its classes with all its closures, in order, and its harder keys.
pub fn defs(alloc: Global) -> Result<List<RuleDef>, Memory>
    ensures value { IfOk result (λ defs. defs ≡ timetable_rules) }
    ensures accepted { IfOk result (λ defs.
        rules_fault timetable_classes timetable_numbers defs timetable_harder ≡ None) }
{
    let defs = listed(alloc)?;
    Ok(defs)
}

/// The keys by which harder entities are placed first: lessons by how many take part.
pub fn harder(alloc: Global) -> Result<List<Harder>, Memory>
    ensures { IfOk result (λ harder. harder ≡ timetable_harder) }
{
    let harder = Harder {
        class: LESSON,
        key: BY_SIZE,
    };
    List::from_slice(alloc, &[harder])
}

/// The rules, in order.
fn listed(alloc: Global) -> Result<List<RuleDef>, Memory>
    ensures { IfOk result (λ defs. defs ≡ timetable_rules) }
{
    let mut defs = List::new(alloc);
    defs.push(room_conflict(alloc)?)?;
    defs.push(teacher_conflict(alloc)?)?;
    defs.push(group_conflict(alloc)?)?;
    defs.push(room_size(alloc)?)?;
    defs.push(teacher_away(alloc)?)?;
    defs.push(group_load(alloc)?)?;
    defs.push(teacher_room(alloc)?)?;
    defs.push(teacher_chain(alloc)?)?;
    defs.push(subject_repeat(alloc)?)?;
    Ok(defs)
}

/// Two lessons at one time in one room.
fn room_conflict(alloc: Global) -> Result<RuleDef, Memory>
    ensures { IfOk result (λ rule. rule ≡ room_conflict) }
{
    let both = pairs(alloc, LESSON, &[same_key(BY_SLOT), same_key(BY_ROOM)])?;
    penalty(alloc, "room_conflict", Level::Hard, both, List::new(alloc))
}

/// Two lessons at one time with one teacher.
fn teacher_conflict(alloc: Global) -> Result<RuleDef, Memory>
    ensures { IfOk result (λ rule. rule ≡ teacher_conflict) }
{
    let both = pairs(alloc, LESSON, &[same_key(BY_SLOT), same_key(BY_TEACHER)])?;
    penalty(
        alloc,
        "teacher_conflict",
        Level::Hard,
        both,
        List::new(alloc),
    )
}

/// Two lessons at one time for one group.
fn group_conflict(alloc: Global) -> Result<RuleDef, Memory>
    ensures { IfOk result (λ rule. rule ≡ group_conflict) }
{
    let both = pairs(alloc, LESSON, &[same_key(BY_SLOT), same_key(BY_GROUP)])?;
    penalty(alloc, "group_conflict", Level::Hard, both, List::new(alloc))
}

/// A lesson for more than its room holds, once for each seat that is missing.
fn room_size(alloc: Global) -> Result<RuleDef, Memory>
    ensures { IfOk result (λ rule. rule ≡ room_size) }
{
    let each = Head::ForEach(LESSON);
    let small = one_node(alloc, Node::Filter(ROOM_IS_TOO_SMALL))?;
    weighed_penalty(
        alloc,
        "room_size",
        Level::Hard,
        BY_MISSING_SEATS,
        each,
        small,
    )
}

/// A lesson on a day on which its teacher is away.
fn teacher_away(alloc: Global) -> Result<RuleDef, Memory>
    ensures { IfOk result (λ rule. rule ≡ teacher_away) }
{
    let then = [
        Joiner::Equal(BY_TEACHER, BY_AWAY_TEACHER),
        Joiner::Equal(BY_DAY, BY_AWAY_DAY),
    ];
    let away = Node::IfExists(BLOCK, false, List::from_slice(alloc, &then)?);
    let each = Head::ForEach(LESSON);
    penalty(
        alloc,
        "teacher_away",
        Level::Hard,
        each,
        one_node(alloc, away)?,
    )
}

/// A group's day with more than six lessons, once for each lesson above six.
fn group_load(alloc: Global) -> Result<RuleDef, Memory>
    ensures { IfOk result (λ rule. rule ≡ group_load) }
{
    let each = Head::ForEach(LESSON);
    let days = grouped(alloc, &[BY_GROUP, BY_DAY], Collect::Count, DAY_IS_TOO_FULL)?;
    weighed_penalty(
        alloc,
        "group_load",
        Level::Medium,
        BY_LESSONS_TOO_MANY,
        each,
        days,
    )
}

/// Two lessons of one teacher in different rooms.
fn teacher_room(alloc: Global) -> Result<RuleDef, Memory>
    ensures { IfOk result (λ rule. rule ≡ teacher_room) }
{
    let both = pairs(alloc, LESSON, &[same_key(BY_TEACHER)])?;
    let apart = one_node(alloc, Node::Filter(ROOMS_DIFFER))?;
    penalty(alloc, "teacher_room", Level::Soft, both, apart)
}

/// Each lesson with those whose joiners hold.
fn with_lessons(alloc: Global, joiners: &[Joiner]) -> Result<List<Node>, Memory>
    ensures { IfOk result (λ nodes. nodes ≡ Join lesson false joiners.now ∷ []) }
{
    one_node(
        alloc,
        Node::Join(LESSON, false, List::from_slice(alloc, joiners)?),
    )
}

/// A lesson and one of the same teacher that follows it soon on its day.
fn teacher_chain(alloc: Global) -> Result<RuleDef, Memory>
    ensures { IfOk result (λ rule. rule ≡ teacher_chain) }
{
    let each = Head::ForEach(LESSON);
    let next = [
        same_key(BY_TEACHER),
        same_key(BY_DAY),
        Joiner::Filtering(FOLLOWS_SOON),
    ];
    reward(
        alloc,
        "teacher_chain",
        Level::Soft,
        each,
        with_lessons(alloc, &next)?,
    )
}

/// A lesson and one of the same group and subject that follows it soon on its day.
fn subject_repeat(alloc: Global) -> Result<RuleDef, Memory>
    ensures { IfOk result (λ rule. rule ≡ subject_repeat) }
{
    let each = Head::ForEach(LESSON);
    let next = [
        same_key(BY_GROUP),
        same_key(BY_SUBJECT),
        same_key(BY_DAY),
        Joiner::Filtering(FOLLOWS_SOON),
    ];
    penalty(
        alloc,
        "subject_repeat",
        Level::Soft,
        each,
        with_lessons(alloc, &next)?,
    )
}
