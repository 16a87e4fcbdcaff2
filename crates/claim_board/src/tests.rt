ghost use Rattle.std.specs.Prelude.{◌≡◌, [], ◌∷◌, ◌++◌, replicate, OnOk};
ghost use Rattle.std.specs.Thread.{IsSync};
ghost use Rattle.claim_board.specs.Boards.{fresh_pass};

use crate::{Board, Memory, Pass};
use plan_facts::List;
use std::alloc::Global;
use std::test::Fail;
use std::thread::{Threads, join};

#[test]
fn two_passes_take_turns(rt: HostRuntime) -> Result<(), Fail> {
    let (board, mut passes) = Board::new(rt.alloc(), 3, 2)?;
    let (Some(mut y), Some(mut x)) = (passes.pop(), passes.pop()) else {
        panic!(rt; "there are two passes")
    };
    let drawn = [
        board.draw(&mut x),
        board.draw(&mut y),
        board.draw(&mut x),
        board.draw(&mut y),
    ];
    assert_eq!(rt; drawn, [Some(0), Some(1), Some(2), None]);
    passes.push(x)?;
    passes.push(y)?;
    assert_eq!(rt; board.close(passes), 3);
    Ok(())
}

#[test]
fn no_numbers_are_none_at_once(rt: HostRuntime) -> Result<(), Fail> {
    let (board, mut passes) = Board::new(rt.alloc(), 0, 1)?;
    let Some(mut pass) = passes.pop() else {
        panic!(rt; "there is a pass")
    };
    let first = board.draw(&mut pass);
    let second = board.draw(&mut pass);
    assert!(rt; first.is_none() && second.is_none());
    passes.push(pass)?;
    assert_eq!(rt; board.close(passes), 0);
    Ok(())
}

// A pass, and what was drawn with it.
#[derive(Drop)]
struct Drawn {
    pass: Pass,
    numbers: Vec<u32>,
}

// Draws until there is no number, or no memory.
fn draw_all(alloc: Global, board: &Board, mut pass: Pass) -> Drawn
    requires { pass.board ≡ board.now }
    ensures { result.pass.board ≡ board.now }
{
    let mut numbers = Vec::new(alloc);
    for _ in 0..=u32::MAX {
        if numbers.reserve(1).is_err() {
            break;
        }
        let Some(number) = board.draw(&mut pass) else {
            break;
        };
        numbers.push_reserved(number);
    }
    Drawn { pass, numbers }
}

// The same by two threads.
fn draw_by_two<R: Threads + Sync>(
    rt: &R,
    alloc: Global,
    board: &Board,
    first: Pass,
    second: Pass,
) -> (Drawn, Drawn)
    requires { (first.board ≡ board.now) × (second.board ≡ board.now) }
    ensures { (result.0.pass.board ≡ board.now) × (result.1.pass.board ≡ board.now) }
{
    join(
        rt,
        move || -> Drawn
            requires { first.board ≡ board.now }
            ensures { result.pass.board ≡ board.entry.now }
        { draw_all(alloc, board, first) },
        move || -> Drawn
            requires { second.board ≡ board.now }
            ensures { result.pass.board ≡ board.entry.now }
        { draw_all(alloc, board, second) },
    )
}

// Gives the pass back, and adds its numbers to the others; false where they don't increase.
fn give_back(passes: &mut List<Pass>, numbers: &mut Vec<u32>, drawn: Drawn) -> Result<bool, Memory>
    ensures { OnOk result (passes.new ≡ passes.old ++ drawn.pass ∷ []) }
{
    let Drawn { pass, numbers: new } = drawn;
    numbers.extend_from_slice(&new)?;
    passes.push(pass)?;
    Ok(new.windows(2).all(|pair| pair[0] < pair[1]))
}

// Two pairs of threads, one beside the other.
fn draw_by_four<R: Threads + Sync>(
    rt: &R,
    alloc: Global,
    board: &Board,
    left: (Pass, Pass),
    right: (Pass, Pass),
) -> ((Drawn, Drawn), (Drawn, Drawn))
    requires left { (left.0.board ≡ board.now) × (left.1.board ≡ board.now) }
    requires right { (right.0.board ≡ board.now) × (right.1.board ≡ board.now) }
    ensures left { (result.0.0.pass.board ≡ board.now) × (result.0.1.pass.board ≡ board.now) }
    ensures right { (result.1.0.pass.board ≡ board.now) × (result.1.1.pass.board ≡ board.now) }
{
    join(
        rt,
        move || -> (Drawn, Drawn)
            requires { IsSync R.row × (left.0.board ≡ board.now) × (left.1.board ≡ board.now) }
            ensures { (result.0.pass.board ≡ board.entry.now) × (result.1.pass.board ≡ board.entry.now) }
        { draw_by_two(rt, alloc, board, left.0, left.1) },
        move || -> (Drawn, Drawn)
            requires { IsSync R.row × (right.0.board ≡ board.now) × (right.1.board ≡ board.now) }
            ensures { (result.0.pass.board ≡ board.entry.now) × (result.1.pass.board ≡ board.entry.now) }
        { draw_by_two(rt, alloc, board, right.0, right.1) },
    )
}

// All four passes draw till the end, and the board is closed; none where a pass's numbers don't increase.
fn drawn_by_four<R: Threads + Sync>(
    rt: &R,
    alloc: Global,
    board: Board,
    mut passes: List<Pass>,
    numbers: &mut Vec<u32>,
) -> Result<Option<u32>, Memory>
    requires { (passes ≡ replicate 4 (fresh_pass board)) × (board.seats ≡ 4) }
{
    let (Some(d), Some(c), Some(b), Some(a)) = (
        passes.pop(),
        passes.pop(),
        passes.pop(),
        passes.pop(),
    ) else {
        return Ok(None);
    };
    let ((a, b), (c, d)) = draw_by_four(rt, alloc, &board, (a, b), (c, d));
    let a = give_back(&mut passes, numbers, a)?;
    let b = give_back(&mut passes, numbers, b)?;
    let c = give_back(&mut passes, numbers, c)?;
    let d = give_back(&mut passes, numbers, d)?;
    if !(a && b && c && d) {
        return Ok(None);
    }
    Ok(Some(board.close(passes)))
}

#[test]
fn four_threads_draw_each_number_once(rt: HostRuntime) -> Result<(), Fail> {
    let alloc: Global = rt.alloc();
    let (board, passes) = Board::new(alloc, 100_000, 4)?;
    let mut numbers = Vec::new(alloc);
    let count = drawn_by_four(&rt, alloc, board, passes, &mut numbers)?;
    assert_eq!(rt; count, Some(100_000));
    numbers.sort()?;
    assert_eq!(rt; numbers.len(), 100_000);
    assert!(rt;
        numbers
            .iter()
            .enumerate()
            .all(|(place, number)| place as u64 == u64::from(*number))
    );
    Ok(())
}
