// A total that is raised in the midst of a worker's work closes what it would cut otherwise.
ghost use Rattle.std.specs.Prelude.{◌≡◌};
ghost use Rattle.std.specs.Thread.{IsSync};
ghost use Rattle.gl_best.specs.Seats.{IsSeatOf};

use crate::flight::free_goal;
use crate::staged::{Stage, Staged};
use crate::watch::Watch;
use gl_best::{BestWord, Seat};
use gl_deal::{Place, deal};
use gl_goal::{FreeGoal, whole};
use gl_plain::search_one;
use gl_pool::{Gate, Share, work};
use std::alloc::{AllocError, Global};
use std::process::Abort;
use std::sync::Wait;
use std::sync::atomic::{AtomicU64, Ordering};
use std::test::Fail;
use std::thread::{self, Threads};
use std::time::Clock;

/// The test of a cell in which the worker waits for the raise.
const HELD: u64 = 100;

/// How many tests there are at most if the raise is heard: after at most 64 more the worker looks
/// at the word, and of five axes of sixteen places at most 21 cells are open then.
const HEARD: u64 = HELD + 64 + 21;

/// More than any five fixes on earth are apart, in centimetres.
const FAR: u64 = 10_000_000_000;

/// The number of the worker.
const WORKER: u32 = 5;

/// A worker waits in one of its tests until another total is raised.
#[derive(Drop)]
struct Midst<'a, R> {
    watch: Watch<'a, R>,
    /// The numbers that passed, added up.
    passed: AtomicU64,
    tested: AtomicU64,
    raised: AtomicU64,
}

impl<'a, R> Gate for Midst<'a, R> {
    fn pass(&self, worker: u32) {
        self.passed.fetch_add(u64::from(worker), Ordering::SeqCst);
    }
}

impl<'a, R: Clock> Stage for Midst<'a, R> {
    fn tests(&self) {
        let number = self.tested.fetch_add(1, Ordering::SeqCst).saturating_add(1);
        if number == HELD {
            self.watch.wait_for(&self.raised, 1);
        }
    }
}

/// Raises a total once the worker waits for it.
fn raise_far<R: Clock>(stage: &Midst<'_, R>, word: &BestWord, seat: &mut Seat)
    requires { IsSeatOf word.now seat.old }
{
    stage.watch.wait_for(&stage.tested, HELD);
    word.raise(seat, FAR);
    stage.raised.store(1, Ordering::SeqCst);
}

/// How many tests a worker makes of a goal whose optimum it has heard of, if another total is
/// raised in the midst of its work or none is.
fn tests_of<Rt: Threads + Wait + Clock + Abort + Sync>(
    rt: &Rt,
    alloc: Global,
    is_raised: bool,
) -> Result<u64, Fail> {
    let stage = Midst {
        watch: Watch::new(rt)?,
        passed: AtomicU64::new(0),
        tested: AtomicU64::new(0),
        raised: AtomicU64::new(u64::from(!is_raised)),
    };
    let goal = Staged {
        goal: free_goal(alloc, 16)?,
        stage: &stage,
    };
    let best = search_one(alloc, &goal.goal)?.best.ok_or("a best")?;
    let (word, mut first) = BestWord::new(alloc)?;
    word.raise(&mut first, best.total.min(FAR));
    let mut seat = word.share(&mut first);
    let mut place = deal(alloc, 1)?.pop().ok_or("a place")?;
    assert_eq!(rt; place.hand.put(whole(&goal)), Ok(()));
    let (share, ()) = thread::join(
        rt,
        || -> Result<Share, AllocError>
            requires { IsSync Rt.row × IsSeatOf word seat }
        {
            work(
                rt, alloc, &goal, WORKER, &mut place, &word, &mut seat, &stage,
            )
        },
        || {
            if is_raised {
                raise_far(&stage, &word, &mut first);
            }
        },
    );
    share?;
    assert_eq!(rt; stage.passed.load(Ordering::SeqCst), u64::from(WORKER));
    Ok(stage.tested.load(Ordering::SeqCst))
}

#[test]
fn a_raise_in_the_midst_closes_what_would_be_cut(rt: HostRuntime) -> Result<(), Fail> {
    let deaf = tests_of(&rt, rt.alloc(), false)?;
    let heard = tests_of(&rt, rt.alloc(), true)?;
    assert!(rt; HEARD < deaf, "{deaf} tests");
    assert!(rt; heard <= HEARD, "{heard} tests");
    Ok(())
}
