ghost use Rattle.std.specs.Prelude.{◌≡◌, position, int_le, int_lt, pos};
ghost use Rattle.gl_judge.specs.JudgedFixes.{IsJudgedRange, first_of_day};

use crate::stretch::Stretch;
use gl_airspace::{Airspace, cut};
use gl_igc::{Fix, Recording};
use gl_task::Task;

/// Whether a fix has second 0 or more.
fn is_of_day(fix: &Fix) -> bool
    ensures { result ≡ int_le (pos 0) fix.now.second }
{
    fix.second >= 0
}

/// Whether a fix is later than the last second that counts.
fn is_too_late(fix: &Fix, closes: i32) -> bool
    ensures { result ≡ int_lt closes fix.now.second }
{
    fix.second > closes
}

/// The number of the first fix with second 0 or more.
fn first_of_day(fixes: &[Fix]) -> Option<usize>
    ensures { result ≡ position (λ fix. int_le (pos 0) fix.second) fixes.now }
{
    fixes.iter().position(|fix| is_of_day(fix))
}

/// The number of the first fix that is too late.
fn first_too_late(fixes: &[Fix], closes: i32) -> Option<usize>
    ensures { result ≡ position (λ fix. int_lt closes fix.second) fixes.now }
{
    fixes.iter().position(|fix| is_too_late(fix, closes))
}

/// The judged fixes of a flight. They begin at the first fix with second 0 or more, and end before
/// the first fix after the task's last second or inside a volume, whichever comes first. Both
/// numbers are equal where no fix is judged; the first is then that of the first fix with second 0
/// or more as well, or how many fixes there are.
pub fn judged_range(task: &Task, air: &Airspace, rec: &Recording) -> Stretch
    ensures range { IsJudgedRange task.now.closes air.now.volumes rec.now.fixes result }
    ensures first { result.from ≡ first_of_day rec.now.fixes }
{
    let fixes = rec.fixes.as_slice();
    let from = first_of_day(fixes).unwrap_or(fixes.len());
    let end = first_too_late(fixes, task.closes).unwrap_or(fixes.len());
    let to = from + cut(air, &fixes[from..end.max(from)]);
    Stretch { from, to }
}
