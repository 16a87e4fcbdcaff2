use plan_ports::{Gate, Place};
use std::sync::atomic::{AtomicU64, Ordering};
use std::thread;

/// How often one looks before it goes on.
const TURNS: u32 = 10_000_000;

/// Where the halves of a run meet: it knows how many boundaries were entered and which line was posted last. As a gate it holds
/// the boundary behind two steps until the first line was posted.
#[derive(Drop)]
pub struct Meeting {
    boundaries: AtomicU64,
    lines: AtomicU64,
    late: AtomicU64,
}

impl Meeting {
    /// Nothing was entered.
    pub fn new() -> Meeting {
        Meeting {
            boundaries: AtomicU64::new(0),
            lines: AtomicU64::new(0),
            late: AtomicU64::new(0),
        }
    }

    /// Whether somebody ran out of turns.
    pub fn is_late(&self) -> bool {
        self.late.load(Ordering::SeqCst) != 0
    }

    /// Waits until so many boundaries were entered.
    pub fn wait_for_boundaries(&self, count: u64) {
        self.wait(&self.boundaries, count);
    }

    fn wait(&self, entered: &AtomicU64, least: u64) {
        'turns: for _ in 0..TURNS {
            if entered.load(Ordering::SeqCst) >= least {
                return;
            }
            thread::yield_now();
        }
        self.late.store(1, Ordering::SeqCst);
    }
}

impl Gate for Meeting {
    fn enter(&self, place: Place) {
        match place {
            Place::Boundary(boundary) => {
                self.boundaries
                    .store(u64::from(boundary).saturating_add(1), Ordering::SeqCst);
                if boundary == 2 {
                    self.wait(&self.lines, 1);
                }
            }
            Place::Line(line) => self.lines.store(u64::from(line), Ordering::SeqCst),
            Place::Judge { .. } => {}
        }
    }
}
