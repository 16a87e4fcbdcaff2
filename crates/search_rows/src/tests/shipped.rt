//! The domains that come with the solver, as they are lent.
ghost use Rattle.std.specs.Prelude.{◌≡◌, length};

use plan_json::Domain;
use plan_rules::{Part, Row};
use shipped_domains::{
    Act, Shipped, shipped_key, shipped_test, shipped_weight, with_shipped_domains,
};
use std::test::Fail;

/// Counts the domains.
#[derive(Drop)]
struct Count;

impl Act for Count {
    type Answer = usize;

    ghost is_ready = { λ _. Unit };

    ghost answers = { λ _ domains count. count ≡ length domains };

    fn act(self, domains: &[Domain<Shipped>]) -> usize {
        domains.len()
    }
}

#[test]
fn three_domains_are_lent(rt: HostRuntime) -> Result<(), Fail> {
    assert!(rt; with_shipped_domains(rt.alloc(), Count)? == 3);
    Ok(())
}

/// Looks at the name of the domain at a place, whether it is this one.
#[derive(Drop)]
struct IsNamed(usize, &'static str);

impl Act for IsNamed {
    type Answer = bool;

    ghost is_ready = { λ _. Unit };

    ghost answers = { λ _ _ _. Unit };

    fn act(self, domains: &[Domain<Shipped>]) -> bool {
        match domains.get(self.0) {
            Some(domain) => domain.name.as_slice() == self.1.as_bytes(),
            None => false,
        }
    }
}

/// The names of the domains, in order.
const NAMES: [&str; 3] = ["timetable", "roster", "open_roster"];

#[test]
fn the_domains_stand_in_order(rt: HostRuntime) -> Result<(), Fail> {
    for (place, name) in NAMES.iter().enumerate() {
        assert!(rt;
            with_shipped_domains(rt.alloc(), IsNamed(place, name))?,
            "{name}"
        );
    }
    Ok(())
}

/// Whether the closures with these numbers answer this row as those of the timetable, or of the rosters 16 above.
fn are_numbered(row: &Row) -> bool {
    shipped_test(3, row)
        && shipped_test(19, row)
        && !shipped_test(2, row)
        && shipped_key(25, row) == 7
        && shipped_key(9, row) == 0
        && shipped_weight(1, row) == 3
        && shipped_weight(17, row) == 3
}

#[test]
fn numbers_from_16_on_are_the_rosters(rt: HostRuntime) -> Result<(), Fail> {
    let mut row = Row::new(rt.alloc());
    row.push(Part::Num(7))?;
    row.push(Part::Num(8))?;
    row.push(Part::Num(9))?;
    assert!(rt; are_numbered(&row));
    Ok(())
}
