//! That workers are at work beside each other.

use crate::runs::{open, play, told, told_by};
use std::sync::atomic::{AtomicU64, Ordering};
use std::test::Fail;
use std::thread;
use tm_io::Gate;

/// A task that jumps to itself, and one of greater priority that a line starts and that terminates.
const PREEMPTED: &str = "\
tmi 1
task 0 basic 1 auto 0 1
text 0 0000006f
task 1 basic 2 off 0 1
text 1 00200893 00000073
line 1 activate 1
";

/// A gate at which the worker of each of two tasks waits for that of the other.
#[derive(Drop)]
struct Meet {
    first: AtomicU64,
    second: AtomicU64,
    failures: AtomicU64,
}

impl Meet {
    fn new() -> Self {
        Meet {
            first: AtomicU64::new(0),
            second: AtomicU64::new(0),
            failures: AtomicU64::new(0),
        }
    }

    /// Counts one worker, and waits until another was counted, or fails after many turns.
    fn come(&self, own: &AtomicU64, other: &AtomicU64) {
        own.fetch_add(1, Ordering::SeqCst);
        for _ in 0..100_000_000u32 {
            if other.load(Ordering::SeqCst) != 0 {
                return;
            }
            thread::yield_now();
        }
        self.fail();
    }

    fn fail(&self) {
        self.failures.fetch_add(1, Ordering::SeqCst);
    }
}

impl Gate for Meet {
    fn at(&self, place: u8) {
        match place {
            0 => self.come(&self.first, &self.second),
            1 => self.come(&self.second, &self.first),
            _ => self.fail(),
        }
    }

    fn slice(&self, _done: u64) {
        self.fail();
    }
}

#[test]
fn two_workers_wait_for_each_other(rt: HostRuntime) -> Result<(), Fail> {
    let alloc = rt.alloc();
    let gate = Meet::new();
    let mut recorder = open(&rt, alloc, PREEMPTED)?;
    play(&rt, &mut recorder, 5, 0, 0);
    play(&rt, &mut recorder, 2, 2, 0);
    let shared = told_by(&rt, alloc, &recorder, 0, 2, &gate)?;
    assert_eq!(rt; gate.first.load(Ordering::SeqCst), 1);
    assert_eq!(rt; gate.second.load(Ordering::SeqCst), 1);
    assert_eq!(rt; gate.failures.load(Ordering::SeqCst), 0);
    assert_eq!(rt; shared, told(&rt, alloc, &recorder, 0)?);
    Ok(())
}
