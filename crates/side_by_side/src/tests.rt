ghost use Rattle.std.specs.Prelude.{◌≤◌};

use crate::each_beside;
use std::test::Fail;
use std::thread::Threads;

/// The numbers of a list before their places are added, and after.
const BEFORE: [usize; 7] = [10, 20, 30, 40, 50, 60, 70];

const AFTER: [usize; 7] = [10, 21, 32, 43, 54, 65, 76];

/// Whether each of so many first numbers gets its place added, and the others stay, while the thread that calls does what is
/// its own once.
fn adds_places<R: Threads + Sync>(rt: &R, count: usize) -> bool
    requires { count ≤ 7 }
{
    let mut numbers = BEFORE;
    let mut calls = 0_u32;
    each_beside(
        rt,
        &mut numbers[..count],
        &|place: usize, number: &mut usize| {
            *number = number.wrapping_add(place);
        },
        &mut || calls = calls.wrapping_add(1),
    );
    calls == 1 && numbers[..count] == AFTER[..count] && numbers[count..] == BEFORE[count..]
}

#[test]
fn each_number_gets_its_place_added(rt: HostRuntime) -> Result<(), Fail> {
    assert!(rt; adds_places(&rt, 0));
    assert!(rt; adds_places(&rt, 1));
    assert!(rt; adds_places(&rt, 2));
    assert!(rt; adds_places(&rt, 4));
    assert!(rt; adds_places(&rt, 7));
    Ok(())
}
