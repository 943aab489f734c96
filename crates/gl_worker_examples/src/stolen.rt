// Workers that get no further until one of them has stolen a cell.
use crate::flight::free_goal;
use crate::staged::{Stage, Staged};
use crate::watch::Watch;
use gl_plain::search_one;
use gl_pool::{Gate, search_many};
use std::sync::atomic::{AtomicU64, Ordering};
use std::test::Fail;
use std::time::Clock;

/// A gate that holds the first worker until a cell is tested, and lets no other one pass before.
#[derive(Drop)]
struct Barrier<'a, R> {
    watch: Watch<'a, R>,
    held: AtomicU64,
    tested: AtomicU64,
    stolen: AtomicU64,
}

impl<'a, R: Clock> Gate for Barrier<'a, R> {
    fn pass(&self, worker: u32) {
        if worker > 0 {
            self.watch.wait_for(&self.held, 1);
            return;
        }
        self.held.store(1, Ordering::SeqCst);
        if self.watch.wait_for(&self.tested, 1) {
            self.stolen.fetch_add(1, Ordering::SeqCst);
        }
    }
}

impl<'a, R> Stage for Barrier<'a, R> {
    fn tests(&self) {
        if self.held.load(Ordering::SeqCst) > 0 {
            self.tested.fetch_add(1, Ordering::SeqCst);
        }
    }
}

/// The boxes of both are those of a search by one.
#[test]
fn a_cell_is_stolen_from_a_worker_that_is_held(rt: HostRuntime) -> Result<(), Fail> {
    let gate = Barrier {
        watch: Watch::new(&rt)?,
        held: AtomicU64::new(0),
        tested: AtomicU64::new(0),
        stolen: AtomicU64::new(0),
    };
    let goal = Staged {
        goal: free_goal(rt.alloc(), 3)?,
        stage: &gate,
    };
    let alone = search_one(rt.alloc(), &goal)?;
    let found = search_many(&rt, rt.alloc(), &goal, 2, &gate)?;
    assert_eq!(rt; gate.stolen.load(Ordering::SeqCst), 1);
    assert_eq!(rt;
        found.closed.turns.as_slice(),
        alone.closed.turns.as_slice()
    );
    Ok(())
}

/// The test of a cell in which the worker that began is held.
const HELD: u64 = 200;

/// The first worker takes the whole cell. It waits in its first test until the other one has looked
/// for cells in vain, and in a later one, when it has put cells, until the other one tests one.
/// That one looks again once the first is held.
#[derive(Drop)]
struct Handover<'a, R> {
    watch: Watch<'a, R>,
    begun: AtomicU64,
    tested: AtomicU64,
    rested: AtomicU64,
    stolen: AtomicU64,
}

impl<'a, R: Clock> Gate for Handover<'a, R> {
    fn pass(&self, worker: u32) {
        self.begun.store(1, Ordering::SeqCst);
        if worker > 0 {
            self.watch.wait_for(&self.tested, 1);
        }
    }

    fn rest(&self, _worker: u32) {
        self.rested.fetch_add(1, Ordering::SeqCst);
        self.watch.wait_for(&self.tested, HELD);
    }
}

impl<'a, R: Clock> Stage for Handover<'a, R> {
    fn tests(&self) {
        if self.begun.load(Ordering::SeqCst) == 0 {
            return;
        }
        let number = self.tested.fetch_add(1, Ordering::SeqCst).saturating_add(1);
        if number == 1 {
            self.watch.wait_for(&self.rested, 1);
        }
        if number == HELD && self.watch.wait_for(&self.tested, HELD + 1) {
            self.stolen.fetch_add(1, Ordering::SeqCst);
        }
    }
}

#[test]
fn a_worker_that_found_nothing_steals_what_another_puts(rt: HostRuntime) -> Result<(), Fail> {
    let gate = Handover {
        watch: Watch::new(&rt)?,
        begun: AtomicU64::new(0),
        tested: AtomicU64::new(0),
        rested: AtomicU64::new(0),
        stolen: AtomicU64::new(0),
    };
    let goal = Staged {
        goal: free_goal(rt.alloc(), 16)?,
        stage: &gate,
    };
    let found = search_many(&rt, rt.alloc(), &goal, 2, &gate)?;
    assert_eq!(rt; gate.stolen.load(Ordering::SeqCst), 1);
    let alone = search_one(rt.alloc(), &goal.goal)?;
    assert_eq!(rt;
        found.best.map(|best| best.total),
        alone.best.map(|best| best.total)
    );
    Ok(())
}
