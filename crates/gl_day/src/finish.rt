ghost use Rattle.std.specs.Prelude.{◌≡◌, ◌≤◌, ℕ, List, Some, IsSome, IsTrue, map};
ghost use Rattle.gl_airspace.specs.declared.volume.Airspace.{Airspace};
ghost use Rattle.gl_judge.specs.Marking.{IsMarked, is_chosen};
ghost use Rattle.gl_judge.specs.Outcome.{IsJudged, OnFinished};
ghost use Rattle.gl_proof.specs.Claim.{Statement};
ghost use Rattle.gl_day.specs.declared.flight.Seen.TheVariants.{Recorded};
ghost use Rattle.gl_day.specs.Flight.{AreClaims, IsFlight, IsSeen, fixes_of_window, outcome_of, penalty_in, penalty_of, steward_rules};
ghost use Rattle.gl_day.specs.Code.Found.{IsWindowOf, OnWindow};

use crate::flight::{Flight, column};
use crate::totals::Totals;
use gl_igc::{Fix, Recording};
use gl_judge::{Judged, Window, mark};
use gl_sheet::Outcome;
use gl_task::{Entrant, Steward, Task, fine};

/// The fixes of a window, from its first to its last.
fn window_fixes(rec: &Recording, window: Window) -> &[Fix]
    requires { IsWindowOf rec.now.fixes window }
    ensures { result.now ≡ fixes_of_window rec.now.fixes window }
{
    &rec.fixes.as_slice()[window.first as usize..window.last as usize + 1]
}

/// The penalty for the fixes of a window.
fn penalty_in(
    task: &Task,
    rec: &Recording,
    window: Window,
    stewards: &mut Vec<Box<dyn Steward>>,
) -> u32
    requires { IsWindowOf rec.now.fixes window }
    ensures penalty { result ≡ penalty_in task.now
        (map (λ s. steward_rules (opening s) (fed s) (owed s)) stewards.old.items)
        rec.now.fixes window }
    ensures kept { map (λ s. steward_rules (opening s) (fed s) (owed s)) stewards.new.items
        ≡ map (λ s. steward_rules (opening s) (fed s) (owed s)) stewards.old.items }
{
    fine(stewards, &task.rules, window_fixes(rec, window))
}

/// The penalty of a flight; without a window it is 0, and no steward is called.
fn penalty(
    task: &Task,
    rec: &Recording,
    judged: &Judged,
    stewards: &mut Vec<Box<dyn Steward>>,
) -> u32
    requires { OnWindow judged.now (IsWindowOf rec.now.fixes) }
    ensures penalty { result ≡ penalty_of task.now
        (map (λ s. steward_rules (opening s) (fed s) (owed s)) stewards.old.items)
        rec.now.fixes judged.now }
    ensures kept { map (λ s. steward_rules (opening s) (fed s) (owed s)) stewards.new.items
        ≡ map (λ s. steward_rules (opening s) (fed s) (owed s)) stewards.old.items }
    ensures untouched { judged.now ≡ Judged.NoStart → stewards.new ≡ stewards.old }
{
    match judged {
        Judged::Finished { window, .. } => penalty_in(task, rec, *window, stewards),
        Judged::Outlanded { window, .. } => penalty_in(task, rec, *window, stewards),
        Judged::NoStart => 0,
    }
}

/// The outcome of a flight that was judged.
pub fn outcome_of(judged: &Judged) -> Outcome
    ensures { result ≡ outcome_of judged.now }
{
    match judged {
        Judged::Finished { .. } => Outcome::Finished,
        Judged::Outlanded { .. } => Outcome::Outlanded,
        Judged::NoStart => Outcome::NoStart,
    }
}

/// The flight of an entrant with a recording, once it is judged and all its claims are proved:
/// `totals` are theirs. The stewards keep their rules; a flight without a window leaves them as
/// they are.
pub fn finish_flight(
    task: &Task,
    entrant: &Entrant,
    rec: &Recording,
    judged: &Judged,
    totals: &Totals,
    stewards: &mut Vec<Box<dyn Steward>>,
) -> Flight
    requires judged { (air : Airspace) × IsJudged task.now air rec.now judged.now }
    requires distance { IsTrue (is_chosen task.now.kind judged.now) → IsSome totals.now.distance }
    ensures flight { (air : Airspace) (bytes : List ℕ) (statements : List Statement)
        → IsSeen task.now entrant.now bytes (Recorded rec.now)
        → IsJudged task.now air rec.now judged.now
        → AreClaims task.now air entrant.now rec.now statements totals.now
        → IsFlight task.now air
        (map (λ s. steward_rules (opening s) (fed s) (owed s)) stewards.old.items)
        entrant.now (Some bytes) statements result }
    ensures kept { map (λ s. steward_rules (opening s) (fed s) (owed s)) stewards.new.items
        ≡ map (λ s. steward_rules (opening s) (fed s) (owed s)) stewards.old.items }
    ensures untouched { judged.now ≡ Judged.NoStart → stewards.new ≡ stewards.old }
{
    Flight {
        outcome: outcome_of(judged),
        performance: mark(task, entrant.handicap, judged, totals.distance),
        penalty: penalty(task, rec, judged, stewards),
        free: column(task.free, totals.free),
        triangle: column(task.triangle, totals.triangle),
    }
}
