ghost use Rattle.std.specs.Prelude.{◌≤◌, ℤ, length, IfSome, IfNone};
ghost use Rattle.gl_judge.specs.Crossings.{Crosses};

use crate::stretch::Stretch;
use gl_igc::Recording;
use gl_zone::{Line, crossing};

/// The time at which a line is crossed forwards from the fix before a number to the fix of that
/// number, both of them judged; `None` exactly where it isn't.
#[tactic(auto, using(crate::proofs::Order::next_later))]
pub fn crossing_at(line: &Line, rec: &Recording, judged: Stretch, i: usize) -> Option<i32>
    requires { judged.to ≤ length rec.now.fixes }
    ensures some { IfSome result
        (λ time. Crosses line.now rec.now.fixes judged i time) }
    ensures none { IfNone result
        ((time : ℤ) → Crosses line.now rec.now.fixes judged i time → ⊥) }
{
    if i <= judged.from || judged.to <= i {
        return None;
    }
    let fixes = rec.fixes.as_slice();
    crossing(line, &fixes[i - 1], &fixes[i])
}
