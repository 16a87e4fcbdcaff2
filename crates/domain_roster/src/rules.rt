ghost use Rattle.std.specs.Prelude.{◌≡◌, IfOk, None};
ghost use Rattle.plan_rules.specs.Faults.{rules_fault};
ghost use Rattle.plan_rules.specs.declared.rule.Head.TheVariants.{ForEach};
ghost use Rattle.domain_roster.specs.Names.{roster_numbers, shift};
ghost use Rattle.domain_roster.specs.Tables.{roster_classes, open_classes, roster_harder};
ghost use Rattle.domain_roster.specs.Tables.{roster_rules, open_rules, skill, overlap, leave_taken, rest, load, days};
ghost use Rattle.domain_roster.specs.Tables.{hours, early, late, idle, wish_met, unassigned, asked_then, loaded};

use crate::names::{
    BEGINS_EARLY, BY_ASKED_DAY, BY_ASKING_EMPLOYEE, BY_DAY, BY_DAYS_TOO_MANY, BY_DURATION,
    BY_EMPLOYEE, BY_END, BY_FIRST_NUMBER, BY_MINUTES, BY_MINUTES_TOO_MANY, BY_NEXT_DAY,
    BY_SHIFTS_TOO_MANY, BY_START, BY_WORKER, DAYS_ARE_TOO_MANY, EMPLOYEE, ENDS_LATE, HAS_NO_WORKER,
    LEAVE, MINUTES_ARE_TOO_MANY, REST_IS_SHORT, SHIFT, SHIFTS_ARE_TOO_MANY, SKILLS_DIFFER, WISH,
};
use domain_words::{grouped, one_node, pairs, penalty, reward, same_key, weighed_penalty};
use plan_facts::{List, Memory};
use plan_rules::{Collect, Harder, Head, Joiner, Node, RuleDef};
use plan_scores::Level;
use std::alloc::Global;

/// The roster's rules, which are accepted over its classes with all its closures, in order, and its harder keys.
pub fn defs(alloc: Global) -> Result<List<RuleDef>, Memory>
    ensures value { IfOk result (λ defs. defs ≡ roster_rules) }
    ensures accepted { IfOk result (λ defs. rules_fault roster_classes roster_numbers defs roster_harder ≡ None) }
{
    let defs = listed(alloc)?;
    Ok(defs)
}

/// The rules of the roster whose shifts may stay open: those of the roster, and one for each open shift. They are
/// accepted over the classes with such shifts, with all closures of the roster, in order, and its harder keys.
pub fn open_defs(alloc: Global) -> Result<List<RuleDef>, Memory>
    ensures value { IfOk result (λ defs. defs ≡ open_rules) }
    ensures accepted { IfOk result (λ defs. rules_fault open_classes roster_numbers defs roster_harder ≡ None) }
{
    let defs = open_listed(alloc)?;
    Ok(defs)
}

/// The keys by which harder entities are placed first: shifts by how many minutes they last.
pub fn harder(alloc: Global) -> Result<List<Harder>, Memory>
    ensures { IfOk result (λ harder. harder ≡ roster_harder) }
{
    let harder = Harder {
        class: SHIFT,
        key: BY_DURATION,
    };
    List::from_slice(alloc, &[harder])
}

/// The roster's rules, in order.
fn listed(alloc: Global) -> Result<List<RuleDef>, Memory>
    ensures { IfOk result (λ defs. defs ≡ roster_rules) }
{
    let mut defs = List::new(alloc);
    defs.push(skill(alloc)?)?;
    defs.push(overlap(alloc)?)?;
    defs.push(leave_taken(alloc)?)?;
    defs.push(rest(alloc)?)?;
    defs.push(load(alloc)?)?;
    defs.push(days(alloc)?)?;
    defs.push(hours(alloc)?)?;
    defs.push(early(alloc)?)?;
    defs.push(late(alloc)?)?;
    defs.push(idle(alloc)?)?;
    defs.push(wish_met(alloc)?)?;
    Ok(defs)
}

/// The rules of the roster whose shifts may stay open, in order.
fn open_listed(alloc: Global) -> Result<List<RuleDef>, Memory>
    ensures { IfOk result (λ defs. defs ≡ open_rules) }
{
    let mut defs = listed(alloc)?;
    defs.push(unassigned(alloc)?)?;
    Ok(defs)
}

/// The shifts.
fn each_shift() -> Head
    ensures { result ≡ ForEach shift }
{
    Head::ForEach(SHIFT)
}

/// The joiners of a shift with a leave or wish of its worker on its day.
fn asked_then(alloc: Global) -> Result<List<Joiner>, Memory>
    ensures { IfOk result (λ joiners. joiners ≡ asked_then) }
{
    let then = [
        Joiner::Equal(BY_WORKER, BY_ASKING_EMPLOYEE),
        Joiner::Equal(BY_DAY, BY_ASKED_DAY),
    ];
    List::from_slice(alloc, &then)
}

/// A shift whose worker hasn't its skill.
fn skill(alloc: Global) -> Result<RuleDef, Memory>
    ensures { IfOk result (λ rule. rule ≡ skill) }
{
    let unskilled = one_node(alloc, Node::Filter(SKILLS_DIFFER))?;
    penalty(alloc, "skill", Level::Hard, each_shift(), unskilled)
}

/// Two shifts of one worker on one day that overlap.
fn overlap(alloc: Global) -> Result<RuleDef, Memory>
    ensures { IfOk result (λ rule. rule ≡ overlap) }
{
    let overlapping = [
        same_key(BY_WORKER),
        same_key(BY_DAY),
        Joiner::Less(BY_START, BY_END),
        Joiner::Greater(BY_END, BY_START),
    ];
    let both = pairs(alloc, SHIFT, &overlapping)?;
    penalty(alloc, "overlap", Level::Hard, both, List::new(alloc))
}

/// A shift on a day on which its worker is on leave.
fn leave_taken(alloc: Global) -> Result<RuleDef, Memory>
    ensures { IfOk result (λ rule. rule ≡ leave_taken) }
{
    let taken = one_node(alloc, Node::IfExists(LEAVE, false, asked_then(alloc)?))?;
    penalty(alloc, "leave", Level::Hard, each_shift(), taken)
}

/// A shift and one of the same worker on the next day with too short a rest between.
fn rest(alloc: Global) -> Result<RuleDef, Memory>
    ensures { IfOk result (λ rule. rule ≡ rest) }
{
    let too_soon = [
        same_key(BY_WORKER),
        Joiner::Equal(BY_NEXT_DAY, BY_DAY),
        Joiner::Filtering(REST_IS_SHORT),
    ];
    let next = Node::Join(SHIFT, false, List::from_slice(alloc, &too_soon)?);
    let next = one_node(alloc, next)?;
    penalty(alloc, "rest", Level::Hard, each_shift(), next)
}

/// The workers with how many shifts they have, of those who have more than the employee may.
fn loaded(alloc: Global) -> Result<List<Node>, Memory>
    ensures { IfOk result (λ nodes. nodes ≡ loaded) }
{
    let same = [Joiner::Equal(BY_FIRST_NUMBER, BY_EMPLOYEE)];
    let mut nodes = List::new(alloc);
    nodes.push(Node::GroupBy(List::from_slice(alloc, &[BY_WORKER])?, Collect::Count))?;
    nodes.push(Node::Join(EMPLOYEE, false, List::from_slice(alloc, &same)?))?;
    nodes.push(Node::Filter(SHIFTS_ARE_TOO_MANY))?;
    Ok(nodes)
}

/// A worker with more shifts than the employee may have, once for each shift too many.
fn load(alloc: Global) -> Result<RuleDef, Memory>
    ensures { IfOk result (λ rule. rule ≡ load) }
{
    let loaded = loaded(alloc)?;
    let each = each_shift();
    weighed_penalty(
        alloc,
        "load",
        Level::Medium,
        BY_SHIFTS_TOO_MANY,
        each,
        loaded,
    )
}

/// A worker on more than 5 days, once for each day too many.
fn days(alloc: Global) -> Result<RuleDef, Memory>
    ensures { IfOk result (λ rule. rule ≡ days) }
{
    let collect = Collect::CountDistinct(BY_DAY);
    let many = grouped(alloc, &[BY_WORKER], collect, DAYS_ARE_TOO_MANY)?;
    let each = each_shift();
    weighed_penalty(alloc, "days", Level::Soft, BY_DAYS_TOO_MANY, each, many)
}

/// A worker with more than 2400 minutes, once for each minute too many.
fn hours(alloc: Global) -> Result<RuleDef, Memory>
    ensures { IfOk result (λ rule. rule ≡ hours) }
{
    let collect = Collect::Sum(BY_MINUTES);
    let many = grouped(alloc, &[BY_WORKER], collect, MINUTES_ARE_TOO_MANY)?;
    let each = each_shift();
    weighed_penalty(alloc, "hours", Level::Soft, BY_MINUTES_TOO_MANY, each, many)
}

/// A worker's day that begins before minute 360.
fn early(alloc: Global) -> Result<RuleDef, Memory>
    ensures { IfOk result (λ rule. rule ≡ early) }
{
    let collect = Collect::Min(BY_START);
    let days = grouped(alloc, &[BY_WORKER, BY_DAY], collect, BEGINS_EARLY)?;
    penalty(alloc, "early", Level::Soft, each_shift(), days)
}

/// A worker's day that ends after minute 1320.
fn late(alloc: Global) -> Result<RuleDef, Memory>
    ensures { IfOk result (λ rule. rule ≡ late) }
{
    let collect = Collect::Max(BY_END);
    let days = grouped(alloc, &[BY_WORKER, BY_DAY], collect, ENDS_LATE)?;
    penalty(alloc, "late", Level::Soft, each_shift(), days)
}

/// An employee without a shift.
fn idle(alloc: Global) -> Result<RuleDef, Memory>
    ensures { IfOk result (λ rule. rule ≡ idle) }
{
    let same = [Joiner::Equal(BY_EMPLOYEE, BY_WORKER)];
    let none = Node::IfNotExists(SHIFT, false, List::from_slice(alloc, &same)?);
    let none = one_node(alloc, none)?;
    penalty(alloc, "idle", Level::Soft, Head::ForEach(EMPLOYEE), none)
}

/// A shift on a day on which its worker wishes to work.
fn wish_met(alloc: Global) -> Result<RuleDef, Memory>
    ensures { IfOk result (λ rule. rule ≡ wish_met) }
{
    let met = one_node(alloc, Node::Join(WISH, false, asked_then(alloc)?))?;
    reward(alloc, "wish", Level::Soft, each_shift(), met)
}

/// A shift that stays open.
fn unassigned(alloc: Global) -> Result<RuleDef, Memory>
    ensures { IfOk result (λ rule. rule ≡ unassigned) }
{
    let all = Head::ForEachNulls(SHIFT);
    let open = one_node(alloc, Node::Filter(HAS_NO_WORKER))?;
    penalty(alloc, "unassigned", Level::Medium, all, open)
}
