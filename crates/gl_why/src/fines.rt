ghost use Rattle.std.specs.Prelude.{◌≡◌, ◌≢◌, ◌<◌, ◌+◌, ℕ, length, IfNone, IfSome, OnOk};
ghost use Rattle.gl_airspace.specs.declared.volume.Airspace.{Airspace};
ghost use Rattle.gl_day.specs.Code.Found.{IsWindowOf};
ghost use Rattle.gl_day.specs.Flight.{fixes_of_window, owed_for, steward_rules};
ghost use Rattle.gl_judge.specs.Greatest.{IsLeast};
ghost use Rattle.gl_judge.specs.Outcome.{IsJudged};
ghost use Rattle.gl_why.specs.Code.Fines.{IsFixAt, OwesAt};
ghost use Rattle.gl_why.specs.Facts.{AddsFacts, AreFound};
ghost use Rattle.gl_why.specs.Fines.{AreFinesTold, IsFine, IsFineTold, all_rules, owed_in_end, rules_of};

use crate::fact::{Fact, Fine, Rule};
use crate::flight_words::words_of_fine;
use crate::lines::Lines;
use crate::spot::Spot;
use gl_igc::{Fix, Recording};
use gl_judge::{Judged, Window};
use gl_task::{Ceiling, EngineNoise, LocalRules, Steward, Task};
use std::alloc::{AllocError, Global};

/// What a steward owes for some fixes.
fn owed_for<S: Steward>(mut steward: S, rules: &LocalRules, fixes: &[Fix]) -> u32
    ensures { result ≡ owed_for rules.now fixes.now
        (steward_rules (S.opening steward) (S.fed steward) (S.owed steward)) }
{
    steward.begin(rules);
    for fix in fixes {
        steward.feed(fix);
    }
    steward.due()
}

/// The place of the first of some fixes after which a steward owes so many points.
fn first_owing<S: Steward>(
    mut steward: S,
    rules: &LocalRules,
    fixes: &[Fix],
    points: u32,
) -> Option<usize>
    ensures some { IfSome result (IsLeast (OwesAt
        (steward_rules (S.opening steward) (S.fed steward) (S.owed steward))
        rules.now fixes.now points)) }
    ensures none { IfNone result ((k : ℕ) → OwesAt
        (steward_rules (S.opening steward) (S.fed steward) (S.owed steward))
        rules.now fixes.now points k → ⊥) }
{
    steward.begin(rules);
    for (k, fix) in fixes.iter().enumerate() {
        steward.feed(fix);
        if steward.due() == points {
            return Some(k);
        }
    }
    None
}

/// The points that a rule charges for some fixes.
fn points_of(rule: Rule, rules: &LocalRules, fixes: &[Fix]) -> u32
    ensures { result ≡ owed_for rules.now fixes.now (rules_of rule) }
{
    match rule {
        Rule::Ceiling => owed_for(Ceiling::new(), rules, fixes),
        Rule::Engine => owed_for(EngineNoise::new(), rules, fixes),
    }
}

/// The place of the first of some fixes after which a rule charges so many points.
fn first_of(rule: Rule, rules: &LocalRules, fixes: &[Fix], points: u32) -> Option<usize>
    ensures some { IfSome result (IsLeast (OwesAt (rules_of rule) rules.now fixes.now points)) }
    ensures none { IfNone result
        ((k : ℕ) → OwesAt (rules_of rule) rules.now fixes.now points k → ⊥) }
{
    match rule {
        Rule::Ceiling => first_owing(Ceiling::new(), rules, fixes, points),
        Rule::Engine => first_owing(EngineNoise::new(), rules, fixes, points),
    }
}

/// The fixes of a window, from its first to its last.
fn window_fixes(rec: &Recording, window: Window) -> &[Fix]
    requires { IsWindowOf rec.now.fixes window }
    ensures { result.now ≡ fixes_of_window rec.now.fixes window }
{
    &rec.fixes.as_slice()[window.first as usize..window.last as usize + 1]
}

/// The fix of a window at a place, with its number.
fn spot_in(rec: &Recording, window: Window, k: usize) -> Spot
    requires { window.first + k < length rec.now.fixes }
    ensures { IsFixAt rec.now.fixes (window.first + k) result }
{
    let number = window.first as usize + k;
    Spot {
        number: number as u32,
        fix: rec.fixes.as_slice()[number],
    }
}

/// What a rule charges for a window, if it charges points.
fn fine_of(rule: Rule, task: &Task, rec: &Recording, window: Window) -> Option<Fine>
    requires { IsWindowOf rec.now.fixes window }
    ensures some { IfSome result (λ fine. (fine.points ≢ 0)
        × IsFine task.now.rules rec.now.fixes window rule fine) }
    ensures none { IfNone result (owed_in_end task.now.rules rec.now.fixes window rule ≡ 0) }
{
    let fixes = window_fixes(rec, window);
    let points = points_of(rule, &task.rules, fixes);
    if points == 0 {
        return None;
    }
    let k = first_of(rule, &task.rules, fixes, points)?;
    let at = spot_in(rec, window, k);
    Some(Fine { rule, points, at })
}

/// Tells what a rule charges for a window, if it charges points.
fn tell_fine(
    alloc: Global,
    lines: &mut Lines,
    rule: Rule,
    task: &Task,
    rec: &Recording,
    window: Window,
) -> Result<(), AllocError>
    requires { IsWindowOf rec.now.fixes window }
    ensures { OnOk result (AddsFacts (IsFineTold task.now.rules rec.now.fixes window rule)
        lines.old lines.new) }
{
    match fine_of(rule, task, rec, window) {
        Some(fine) => {
            let words = words_of_fine(alloc, &fine)?;
            lines.push(Fact::Fined(fine), String::new(alloc), words)
        }
        None => Ok(()),
    }
}

/// Tells what each rule charges for a window.
fn tell_window_fines(
    alloc: Global,
    lines: &mut Lines,
    task: &Task,
    rec: &Recording,
    window: Window,
) -> Result<(), AllocError>
    requires { IsWindowOf rec.now.fixes window }
    ensures { OnOk result (AddsFacts
        (AreFound (IsFineTold task.now.rules rec.now.fixes window) all_rules)
        lines.old lines.new) }
{
    tell_fine(alloc, lines, Rule::Ceiling, task, rec, window)?;
    tell_fine(alloc, lines, Rule::Engine, task, rec, window)
}

/// Tells what each rule charges for a flight that was judged so.
pub fn tell_fines(
    alloc: Global,
    lines: &mut Lines,
    task: &Task,
    rec: &Recording,
    judged: &Judged,
) -> Result<(), AllocError>
    requires { (air : Airspace) × IsJudged task.now air rec.now judged.now }
    ensures { OnOk result (AddsFacts (AreFinesTold task.now.rules rec.now.fixes judged.now)
        lines.old lines.new) }
{
    match judged {
        Judged::Finished { window, .. } => tell_window_fines(alloc, lines, task, rec, *window),
        Judged::Outlanded { window, .. } => tell_window_fines(alloc, lines, task, rec, *window),
        Judged::NoStart => Ok(()),
    }
}
