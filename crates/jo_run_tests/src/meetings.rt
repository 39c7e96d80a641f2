// A gate at which two scripts wait for one another.
use jo_run::Gate;
use std::sync::atomic::AtomicBool;
use std::sync::atomic::Ordering::SeqCst;
use std::thread;
use std::time::{Clock, Duration};

// How many milliseconds a script waits for the other one.
const LIMIT: u32 = 20_000;

/// Holds the first call of script 1 and the second one of script 2 until both were asked for. A script that has waited too
/// long raises the flag `late` and goes on.
#[derive(Drop)]
pub(crate) struct Meeting<'a, R> {
    rt: &'a R,
    one: AtomicBool,
    two: AtomicBool,
    pub(crate) late: AtomicBool,
}

impl<'a, R: Clock> Meeting<'a, R> {
    pub(crate) fn new(rt: &'a R) -> Self {
        Meeting {
            rt,
            one: AtomicBool::new(false),
            two: AtomicBool::new(false),
            late: AtomicBool::new(false),
        }
    }

    fn meet(&self, own: &AtomicBool, other: &AtomicBool) {
        own.store(true, SeqCst);
        for _ in 0..LIMIT {
            if other.load(SeqCst) {
                return;
            }
            thread::sleep(self.rt, Duration::from_millis(1));
        }
        self.late.store(true, SeqCst);
    }
}

impl<'a, R: Clock + Sync> Gate for Meeting<'a, R> {
    fn pass(&self, thread: u32, call: u64) {
        match (thread, call) {
            (1, 1) => self.meet(&self.one, &self.two),
            (2, 2) => self.meet(&self.two, &self.one),
            _ => {}
        }
    }
}
