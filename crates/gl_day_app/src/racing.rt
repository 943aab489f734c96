ghost use Rattle.std.specs.Prelude.{IfOk};
ghost use Rattle.gl_goal.specs.declared.any.AnyGoal.{AnyGoal};
ghost use Rattle.gl_goal.specs.AnyGoal.{any_rule};
ghost use Rattle.gl_plain.specs.Answer.{IsAnswer};

use gl_day::Search;
use gl_goal::AnyGoal;
use gl_plain::Found;
use gl_pool::{Gate, search_many};
use gl_words::Workers;
use std::alloc::{AllocError, Global};
use std::sync::Wait;
use std::thread::Threads;

/// The optimum of a goal, found by workers side by side.
pub(crate) fn race<Rt: Threads + Wait + Sync, K: Gate + Sync>(
    rt: &Rt,
    alloc: Global,
    goal: &AnyGoal,
    workers: Workers,
    gate: &K,
) -> Result<Found, AllocError>
    ensures { IfOk result (IsAnswer (any_rule goal.now)) }
{
    search_many(rt, alloc, goal, workers.count, gate)
}

/// The claims of a day are searched by a closure. A closure and not a type of its own holds what
/// the workers share, since only a function's bounds are known in other threads.
#[derive(Clone, Copy)]
pub(crate) struct Racing<'a, F> {
    pub(crate) race: &'a F,
}

impl<'a, F: Fn(Global, &AnyGoal) -> Result<Found, AllocError>> Search for Racing<'a, F> {
    ghost ready = { λ racing. F.IsAlwaysCallable racing.race.now
        × ((alloc : _) (goal : _) (result : _) → F.post racing.race.now alloc goal result
        → IfOk result (IsAnswer (any_rule goal.now))) };

    fn search(&self, alloc: Global, goal: &AnyGoal) -> Result<Found, AllocError> {
        (self.race)(alloc, goal)
    }
}
