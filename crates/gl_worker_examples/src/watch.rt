use std::sync::atomic::{AtomicU64, Ordering};
use std::time::{Clock, Duration, Instant};
use std::{io, thread};

/// For how many seconds threads of one test wait for each other at most.
const SECONDS: u64 = 20;

/// How often a thread looks at most: no more than it can in that time.
const LOOKS: u32 = 1_000_000;

/// A clock by which threads wait for each other, for twenty seconds in all from when it was made.
#[derive(Drop)]
pub(crate) struct Watch<'a, R> {
    rt: &'a R,
    begun: Instant,
}

impl<'a, R: Clock> Watch<'a, R> {
    /// A clock that begins now.
    pub(crate) fn new(rt: &'a R) -> io::Result<Watch<'a, R>> {
        Ok(Watch {
            rt,
            begun: Instant::now(rt)?,
        })
    }

    /// Whether the seconds are over.
    fn is_over(&self) -> bool {
        match self.begun.elapsed(self.rt) {
            Ok(elapsed) => elapsed >= Duration::from_secs(SECONDS),
            Err(_) => true,
        }
    }

    /// Waits until a count is at least so much. Answers whether it was in time.
    pub(crate) fn wait_for(&self, count: &AtomicU64, least: u64) -> bool {
        for _ in 0..LOOKS {
            if count.load(Ordering::SeqCst) >= least {
                return true;
            }
            if self.is_over() {
                return false;
            }
            thread::sleep(self.rt, Duration::from_micros(100));
        }
        false
    }
}
