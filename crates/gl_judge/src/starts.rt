ghost use Rattle.std.specs.Prelude.{ℕ, ◌≤◌, ◌<◌, ℤ, length, IfSome, IfNone};
ghost use Rattle.gl_judge.specs.Greatest.{IsLeast};
ghost use Rattle.gl_judge.specs.Starts.{IsLegalStart, IsStart};

use crate::announcement::is_announced;
use crate::crossings::crossing_at;
use crate::passing::Passing;
use crate::stretch::Stretch;
use gl_igc::Recording;
use gl_task::Start;

/// The time of a legal start with the fix of a number; `None` exactly where there is none.
fn start_at(start: &Start, rec: &Recording, judged: Stretch, b: usize) -> Option<i32>
    requires { judged.to ≤ length rec.now.fixes }
    ensures some { IfSome result
        (λ time. IsLegalStart start.now rec.now judged b time) }
    ensures none { IfNone result
        ((time : ℤ) → IsLegalStart start.now rec.now judged b time → ⊥) }
{
    let time = crossing_at(&start.line, rec, judged, b)?;
    if time < start.opens || start.close < time {
        return None;
    }
    if is_announced(start.pilot, rec.events.as_slice(), time) {
        Some(time)
    } else {
        None
    }
}

/// The first legal start.
pub(crate) fn first_start(start: &Start, rec: &Recording, judged: Stretch) -> Option<Passing>
    requires { judged.to ≤ length rec.now.fixes }
    ensures legal { IfSome result
        (λ p. IsLegalStart start.now rec.now judged p.fix p.second) }
    ensures least { IfSome result
        (λ p. IsLeast (IsStart start.now rec.now judged) p.fix) }
    ensures none { IfNone result
        ((b : ℕ) → IsStart start.now rec.now judged b → ⊥) }
{
    for b in judged.from..judged.to {
        if let Some(second) = start_at(start, rec, judged, b) {
            return Some(Passing { fix: b, second });
        }
    }
    None
}

/// The last legal start with a fix of this number or a lower one.
pub(crate) fn last_start(
    start: &Start,
    rec: &Recording,
    judged: Stretch,
    limit: usize,
) -> Option<Passing>
    requires to_in_list { judged.to ≤ length rec.now.fixes }
    requires limit_judged { limit < judged.to }
    ensures legal { IfSome result
        (λ p. IsLegalStart start.now rec.now judged p.fix p.second) }
    ensures within { IfSome result (λ p. p.fix ≤ limit) }
    ensures last { IfSome result (λ p. (b : ℕ)
        → IsStart start.now rec.now judged b → b ≤ limit → b ≤ p.fix) }
    ensures none { IfNone result ((b : ℕ)
        → IsStart start.now rec.now judged b → b ≤ limit → ⊥) }
{
    for b in (judged.from..limit + 1).rev() {
        if let Some(second) = start_at(start, rec, judged, b) {
            return Some(Passing { fix: b, second });
        }
    }
    None
}
