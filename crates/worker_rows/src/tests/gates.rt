use plan_ports::{Gate, Place};
use std::sync::atomic::{AtomicU64, Ordering};
use std::thread;

/// How often a gate looks before it lets go.
const TURNS: u32 = 10_000_000;

/// A gate that counts how often it was entered at each of the first four numbers, and holds some of them until others were
/// entered.
#[derive(Drop)]
pub struct HoldingGate {
    entered: [AtomicU64; 4],
    held: &'static [u32],
    awaited: &'static [u32],
    late: AtomicU64,
}

impl HoldingGate {
    /// A gate that holds the candidates under some numbers until others were entered.
    pub fn new(held: &'static [u32], awaited: &'static [u32]) -> HoldingGate {
        HoldingGate {
            entered: [
                AtomicU64::new(0),
                AtomicU64::new(0),
                AtomicU64::new(0),
                AtomicU64::new(0),
            ],
            held,
            awaited,
            late: AtomicU64::new(0),
        }
    }

    /// How often it was entered at a number.
    pub fn times(&self, number: u32) -> u64 {
        match self.entered.get(number as usize) {
            Some(times) => times.load(Ordering::SeqCst),
            None => 0,
        }
    }

    /// Whether it ran out of turns.
    pub fn is_late(&self) -> bool {
        self.late.load(Ordering::SeqCst) != 0
    }

    /// Whether each number that it awaits was entered.
    fn are_all_in(&self) -> bool {
        for number in self.awaited {
            if self.times(*number) == 0 {
                return false;
            }
        }
        true
    }

    fn hold(&self) {
        'turns: for _ in 0..TURNS {
            if self.are_all_in() {
                return;
            }
            thread::yield_now();
        }
        self.late.store(1, Ordering::SeqCst);
    }
}

impl Gate for HoldingGate {
    fn enter(&self, place: Place) {
        let Place::Judge { step: _, number } = place else {
            return;
        };
        if let Some(times) = self.entered.get(number as usize) {
            times.fetch_add(1, Ordering::SeqCst);
        }
        if self.held.contains(&number) {
            self.hold();
        }
    }
}
