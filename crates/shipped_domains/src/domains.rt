ghost use Rattle.std.specs.Prelude.{◌≡◌, ◌∷◌, [], All, IfOk, IsTrue, None, codes, map};
ghost use Rattle.plan_facts.specs.Schema.{is_name};
ghost use Rattle.plan_json.specs.Seen.{domain_view, domain_views};
ghost use Rattle.plan_rules.specs.Faults.{rules_fault};
ghost use Rattle.domain_timetable.specs.Names.{timetable_numbers};
ghost use Rattle.domain_roster.specs.Names.{roster_numbers};
ghost use Rattle.shipped_domains.specs.Catalog.{catalog, shipped, timetable, roster, open_roster};
ghost use Rattle.shipped_domains.specs.Handed.{numbers_handed};
ghost use Rattle.shipped_domains.specs.Numbered.{numbers_shipped};

use crate::book::Shipped;
use crate::closures::Closures;
use crate::parted::each_of;
use crate::rules::shipped_rules_of;
use plan_facts::{List, Memory, Schema, Text};
use plan_json::Domain;
use plan_moves::MoveMaker;
use plan_rules::{Harder, Kept, RuleDef, Rules};
use std::alloc::Global;

/// What a domain is made of beside its closures and its maker of moves.
#[derive(Drop)]
struct Parts {
    schema: Schema,
    defs: List<RuleDef>,
    harder: List<Harder>,
}

/// The name of a domain, and its makers of moves: the one that is given.
fn name_and_makers(
    alloc: Global,
    name: &[u8],
    maker: Box<dyn MoveMaker>,
) -> Result<(Text, Vec<Box<dyn MoveMaker>>), Memory>
    ensures name { IfOk result (λ both. both.0 ≡ name.now) }
    ensures makers { IfOk result (λ both. both.1.items ≡ maker ∷ []) }
{
    let name = Text::from_slice(alloc, name)?;
    let mut makers = Vec::new(alloc);
    makers.push(maker)?;
    Ok((name, makers))
}

/// A domain of this name and these parts with its closures and one maker of moves.
fn domain_of(
    alloc: Global,
    name: &[u8],
    parts: Parts,
    closures: Closures,
    maker: Box<dyn MoveMaker>,
) -> Result<Domain<Shipped>, Memory>
    requires named { IsTrue (is_name name.now) }
    requires accepted { rules_fault parts.schema (numbers_handed closures) parts.defs parts.harder ≡ None }
    ensures view { IfOk result (λ domain.
        domain_view domain ≡ shipped name.now parts.schema parts.defs (numbers_handed closures) parts.harder) }
    ensures keeps { IfOk result (λ domain. ⟦<Rules<Shipped> as Kept>⟧.keeps domain.rules) }
    ensures makers { IfOk result (λ domain. domain.makers.items ≡ maker ∷ []) }
{
    let (name, makers) = name_and_makers(alloc, name, maker)?;
    let Parts {
        schema,
        defs,
        harder,
    } = parts;
    let rules = shipped_rules_of(alloc, &schema, defs, closures, harder)?;
    Ok(Domain::new(name, schema, rules, makers))
}

/// The classes, the rules and the harder keys of the timetable.
fn timetable_parts(alloc: Global) -> Result<Parts, Memory>
    ensures view { IfOk result (λ parts.
        shipped (codes "timetable") parts.schema parts.defs timetable_numbers parts.harder ≡ timetable) }
    ensures accepted { IfOk result (λ parts.
        rules_fault parts.schema timetable_numbers parts.defs parts.harder ≡ None) }
{
    let schema = domain_timetable::schema(alloc)?;
    let defs = domain_timetable::defs(alloc)?;
    let harder = domain_timetable::harder(alloc)?;
    Ok(Parts {
        schema,
        defs,
        harder,
    })
}

/// The classes, the rules and the harder keys of the roster.
fn roster_parts(alloc: Global) -> Result<Parts, Memory>
    ensures view { IfOk result (λ parts.
        shipped (codes "roster") parts.schema parts.defs roster_numbers parts.harder ≡ roster) }
    ensures accepted { IfOk result (λ parts.
        rules_fault parts.schema roster_numbers parts.defs parts.harder ≡ None) }
{
    let schema = domain_roster::schema(alloc)?;
    let defs = domain_roster::defs(alloc)?;
    let harder = domain_roster::harder(alloc)?;
    Ok(Parts {
        schema,
        defs,
        harder,
    })
}

/// The classes, the rules and the harder keys of the roster whose shifts may stay open.
fn open_roster_parts(alloc: Global) -> Result<Parts, Memory>
    ensures view { IfOk result (λ parts.
        shipped (codes "open_roster") parts.schema parts.defs roster_numbers parts.harder ≡ open_roster) }
    ensures accepted { IfOk result (λ parts.
        rules_fault parts.schema roster_numbers parts.defs parts.harder ≡ None) }
{
    let schema = domain_roster::open_schema(alloc)?;
    let defs = domain_roster::open_defs(alloc)?;
    let harder = domain_roster::harder(alloc)?;
    Ok(Parts {
        schema,
        defs,
        harder,
    })
}

/// The timetable with its closures and its maker of moves.
fn timetable_of(
    alloc: Global,
    closures: Closures,
    maker: Box<dyn MoveMaker>,
) -> Result<Domain<Shipped>, Memory>
    requires { numbers_handed closures ≡ timetable_numbers }
    ensures view { IfOk result (λ domain. domain_view domain ≡ timetable) }
    ensures keeps { IfOk result (λ domain. ⟦<Rules<Shipped> as Kept>⟧.keeps domain.rules) }
    ensures makers { IfOk result (λ domain. domain.makers.items ≡ maker ∷ []) }
{
    let parts = timetable_parts(alloc)?;
    domain_of(alloc, b"timetable", parts, closures, maker)
}

/// The roster with its closures and its maker of moves.
fn roster_of(
    alloc: Global,
    closures: Closures,
    maker: Box<dyn MoveMaker>,
) -> Result<Domain<Shipped>, Memory>
    requires { numbers_handed closures ≡ roster_numbers }
    ensures view { IfOk result (λ domain. domain_view domain ≡ roster) }
    ensures keeps { IfOk result (λ domain. ⟦<Rules<Shipped> as Kept>⟧.keeps domain.rules) }
    ensures makers { IfOk result (λ domain. domain.makers.items ≡ maker ∷ []) }
{
    let parts = roster_parts(alloc)?;
    domain_of(alloc, b"roster", parts, closures, maker)
}

/// The roster whose shifts may stay open, with its closures and its maker of moves.
fn open_roster_of(
    alloc: Global,
    closures: Closures,
    maker: Box<dyn MoveMaker>,
) -> Result<Domain<Shipped>, Memory>
    requires { numbers_handed closures ≡ roster_numbers }
    ensures view { IfOk result (λ domain. domain_view domain ≡ open_roster) }
    ensures keeps { IfOk result (λ domain. ⟦<Rules<Shipped> as Kept>⟧.keeps domain.rules) }
    ensures makers { IfOk result (λ domain. domain.makers.items ≡ maker ∷ []) }
{
    let parts = open_roster_parts(alloc)?;
    domain_of(alloc, b"open_roster", parts, closures, maker)
}

/// The two rosters, with their closures and their makers of moves.
fn rosters_of(
    alloc: Global,
    shifts: Closures,
    open_shifts: Closures,
    shift_maker: Box<dyn MoveMaker>,
    open_maker: Box<dyn MoveMaker>,
) -> Result<(Domain<Shipped>, Domain<Shipped>), Memory>
    requires shifts { numbers_handed shifts ≡ roster_numbers }
    requires open_shifts { numbers_handed open_shifts ≡ roster_numbers }
    ensures views { IfOk result (λ rosters.
        (domain_view rosters.0 ≡ roster) × (domain_view rosters.1 ≡ open_roster)) }
    ensures keeps { IfOk result (λ rosters. ⟦<Rules<Shipped> as Kept>⟧.keeps rosters.0.rules
        × ⟦<Rules<Shipped> as Kept>⟧.keeps rosters.1.rules) }
    ensures makers { IfOk result (λ rosters. (rosters.0.makers.items ≡ shift_maker ∷ [])
        × (rosters.1.makers.items ≡ open_maker ∷ [])) }
{
    let roster = roster_of(alloc, shifts, shift_maker)?;
    let open_roster = open_roster_of(alloc, open_shifts, open_maker)?;
    Ok((roster, open_roster))
}

/// The domains in their order, with their closures and their makers of moves.
pub(crate) fn domains_of(
    alloc: Global,
    made: Vec<Closures>,
    lesson_maker: Box<dyn MoveMaker>,
    shift_maker: Box<dyn MoveMaker>,
    open_maker: Box<dyn MoveMaker>,
) -> Result<[Domain<Shipped>; 3], Memory>
    requires { map numbers_handed made.items ≡ numbers_shipped }
    ensures views { IfOk result (λ domains. domain_views domains ≡ catalog) }
    ensures keeps { IfOk result (λ domains. All (λ domain. ⟦<Rules<Shipped> as Kept>⟧.keeps domain.rules) domains) }
    ensures makers { IfOk result (λ domains. map (λ domain. domain.makers.items) domains
        ≡ (lesson_maker ∷ []) ∷ (shift_maker ∷ []) ∷ (open_maker ∷ []) ∷ []) }
{
    let (lessons, shifts, open_shifts) = each_of(made);
    let timetable = timetable_of(alloc, lessons, lesson_maker)?;
    let (roster, open_roster) = rosters_of(alloc, shifts, open_shifts, shift_maker, open_maker)?;
    Ok([timetable, roster, open_roster])
}
