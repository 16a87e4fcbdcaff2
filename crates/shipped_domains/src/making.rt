ghost use Rattle.std.specs.Prelude.{◌≡◌, ℕ, List, All, IfOk, map};
ghost use Rattle.plan_facts.specs.Plan.{PlanView};
ghost use Rattle.plan_json.specs.Domains.{DomainView};
ghost use Rattle.plan_json.specs.Seen.{domain_views};
ghost use Rattle.shipped_domains.specs.Catalog.{catalog, catalog_made};
ghost use Rattle.shipped_domains.specs.Handed.{numbers_handed};
ghost use Rattle.shipped_domains.specs.Numbered.{numbers_shipped};

use crate::book::{Shipped, shipped_key, shipped_test, shipped_weight};
use crate::closures::{Closures, ShippedKey, ShippedTest, ShippedWeigh};
use crate::domains::domains_of;
use plan_facts::Memory;
use plan_json::Domain;
use plan_moves::MoveMaker;
use plan_rules::{Kept, KeyBody, Row, Rules, TestBody, WeighBody};
use std::alloc::Global;

/// What is done with the domains that come with the solver.
pub trait Act: Drop {
    /// What it answers.
    type Answer;

    /// What it needs before it is done.
    ghost is_ready: { Self → Type 0 };

    /// Whether it may answer this, where the domains are these, as reading sees them.
    ghost answers: { Self → List DomainView → Self.Answer → Type 0 };

    /// Does it with these domains, whose closures keep to the book and whose makers of moves make what is theirs.
    fn act(self, domains: &[Domain<Shipped>]) -> Self::Answer
        requires ready { is_ready self }
        requires keeps { All (λ domain. ⟦<Rules<Shipped> as Kept>⟧.keeps domain.rules) domains.now }
        requires makers { (plan : PlanView) (words : List ℕ)
            → map (λ domain. map (λ maker. (⟦<dyn MoveMaker as MoveMaker>⟧ maker.vtable).made maker.value plan words)
            domain.makers.items) domains.now
            ≡ catalog_made plan words }
        ensures { answers self (domain_views domains.now) result };
}

/// Acts with the domains, made of these closures.
fn act_with<A: Act>(alloc: Global, action: A, made: Vec<Closures>) -> Result<A::Answer, Memory>
    requires ready { A.is_ready action }
    requires closures { map numbers_handed made.items ≡ numbers_shipped }
    ensures { IfOk result (λ answer. A.answers action catalog answer) }
{
    let lesson_maker: Box<dyn MoveMaker> = Box::new(alloc, domain_timetable::Maker)?;
    let shift_maker: Box<dyn MoveMaker> = Box::new(alloc, domain_roster::Maker)?;
    let open_maker: Box<dyn MoveMaker> = Box::new(alloc, domain_roster::Maker)?;
    let domains = domains_of(alloc, made, lesson_maker, shift_maker, open_maker)?;
    Ok(action.act(&domains))
}

/// Makes the domains that come with the solver with all their boxes, and acts with them, in this order: the timetable,
/// the roster, and the roster whose shifts may stay open. They are lent, since a function that makes a boxed closure
/// can't hand it out.
pub fn with_shipped_domains<A: Act>(alloc: Global, action: A) -> Result<A::Answer, Memory>
    requires { A.is_ready action }
    ensures { IfOk result (λ answer. A.answers action catalog answer) }
{
    let asked = [
        domain_timetable::numbers(),
        domain_roster::numbers(),
        domain_roster::numbers(),
    ];
    let mut made = Vec::new(alloc);
    'domains: for numbers in &asked {
        let mut tests = Vec::new(alloc);
        'tests: for &number in numbers.tests {
            let body: TestBody = Box::new(alloc, move |row: &Row| -> bool {
                shipped_test(number, row)
            })?;
            tests.push(ShippedTest { number, body })?;
        }
        let mut keys = Vec::new(alloc);
        'keys: for &number in numbers.keys {
            let body: KeyBody = Box::new(alloc, move |row: &Row| -> i64 {
                shipped_key(number, row)
            })?;
            keys.push(ShippedKey { number, body })?;
        }
        let mut weighers = Vec::new(alloc);
        'weighers: for &number in numbers.weighers {
            let body: WeighBody = Box::new(alloc, move |row: &Row| -> u32 {
                shipped_weight(number, row)
            })?;
            weighers.push(ShippedWeigh { number, body })?;
        }
        made.push(Closures {
            tests,
            keys,
            weighers,
        })?;
    }
    act_with(alloc, action, made)
}
