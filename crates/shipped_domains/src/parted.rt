ghost use Rattle.std.specs.Prelude.{◌≡◌, map};
ghost use Rattle.domain_timetable.specs.Names.{timetable_numbers};
ghost use Rattle.domain_roster.specs.Names.{roster_numbers};
ghost use Rattle.shipped_domains.specs.Numbered.{numbers_shipped};
ghost use Rattle.shipped_domains.specs.Handed.{numbers_handed};

use crate::closures::Closures;

/// The closures of the three domains, in their order.
pub(crate) fn each_of(made: Vec<Closures>) -> (Closures, Closures, Closures)
    requires { map numbers_handed made.items ≡ numbers_shipped }
    ensures lessons { numbers_handed result.0 ≡ timetable_numbers }
    ensures shifts { numbers_handed result.1 ≡ roster_numbers }
    ensures open_shifts { numbers_handed result.2 ≡ roster_numbers }
{
    let mut made = made;
    match (made.pop(), made.pop(), made.pop()) {
        (Some(open_shifts), Some(shifts), Some(lessons)) => (lessons, shifts, open_shifts),
        _ => unreachable!(),
    }
}
