use crate::watch::Watch;
use gl_pool::Gate;
use std::alloc::Global;
use std::sync::atomic::{AtomicU64, Ordering};
use std::test::Fail;
use std::time::Clock;

/// A gate that lets nobody on until so many workers have come, and notes which ones.
#[derive(Drop)]
pub(crate) struct Roll<'a, R> {
    watch: Watch<'a, R>,
    count: u64,
    /// How often the worker with each number came.
    came: Vec<AtomicU64>,
    /// How many came in all.
    all: AtomicU64,
    /// How many of them went on since all were there.
    met: AtomicU64,
}

impl<'a, R: Clock> Roll<'a, R> {
    /// A gate for so many workers, to which none has come.
    pub(crate) fn new(rt: &'a R, alloc: Global, count: u32) -> Result<Roll<'a, R>, Fail> {
        let mut came = Vec::new(alloc);
        for _ in 0..count {
            came.push(AtomicU64::new(0))?;
        }
        Ok(Roll {
            watch: Watch::new(rt)?,
            count: u64::from(count),
            came,
            all: AtomicU64::new(0),
            met: AtomicU64::new(0),
        })
    }

    /// Whether each worker came once, nobody else did, and they were all there at the same time.
    pub(crate) fn all_met(&self) -> bool {
        self.came
            .iter()
            .all(|times| times.load(Ordering::SeqCst) == 1)
            && self.all.load(Ordering::SeqCst) == self.count
            && self.met.load(Ordering::SeqCst) == self.count
    }
}

impl<'a, R: Clock> Gate for Roll<'a, R> {
    fn pass(&self, worker: u32) {
        if let Some(times) = self.came.get(worker as usize) {
            times.fetch_add(1, Ordering::SeqCst);
        }
        self.all.fetch_add(1, Ordering::SeqCst);
        if self.watch.wait_for(&self.all, self.count) {
            self.met.fetch_add(1, Ordering::SeqCst);
        }
    }
}
