use std::sync::atomic::{AtomicBool, AtomicU64, Ordering};

/// How many workers have cells, so that those that find none can tell when the search is over.
/// Nothing rests on it but how long they look.
#[derive(Drop)]
pub(crate) struct Crowd {
    has_begun: AtomicBool,
    busy: AtomicU64,
}

impl Crowd {
    /// Nobody has a cell yet.
    pub(crate) fn new() -> Crowd {
        Crowd {
            has_begun: AtomicBool::new(false),
            busy: AtomicU64::new(0),
        }
    }

    /// Somebody has a cell, for all that is known.
    pub(crate) fn of_others() -> Crowd {
        let crowd = Crowd::new();
        crowd.tell(false, true);
        crowd
    }

    /// Takes note whether a worker had a cell, and whether it has one now.
    pub(crate) fn tell(&self, had: bool, has: bool) {
        if has && !had {
            self.busy.fetch_add(1, Ordering::SeqCst);
            self.has_begun.store(true, Ordering::SeqCst);
        }
        if had && !has {
            self.busy.fetch_sub(1, Ordering::SeqCst);
        }
    }

    /// Whether nobody has a cell any more. A worker that is just stealing one may be missed.
    pub(crate) fn is_over(&self) -> bool {
        self.has_begun.load(Ordering::SeqCst) && self.busy.load(Ordering::SeqCst) == 0
    }
}
