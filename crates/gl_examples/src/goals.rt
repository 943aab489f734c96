//! The rule of legs, how far a flight reaches, greatest totals, and claims that are checked. Fixes
//! are `LATITUDE LONGITUDE ALTITUDE` with commas between, totals and limits in centimetres.
ghost use Rattle.std.specs.Prelude.{◌≡◌, IfOk};

use crate::numbers::{at_most, fixes, last_of, numbers, repeated};
use anyhow::{Context, Result, bail};
use gl_check::check_claim;
use gl_free::{best_free, best_free_after};
use gl_goal::{FreeGoal, TriangleGoal, fair};
use gl_igc::Fix;
use gl_proof::{Claim, read_proof};
use gl_triangle::best_triangle;
use std::alloc::{AllocError, Global};

/// `fair LEG LEG LEG`: whether the legs are fair, begun with each of them.
fn are_fair(alloc: Global, input: &str) -> Result<String> {
    let values = numbers(alloc, input)?;
    match values.as_slice() {
        &[a, b, c] => {
            let most = 1_000_000_000_000;
            let (a, b, c) = (at_most(a, most), at_most(b, most), at_most(c, most));
            let (first, second, third) = (fair(a, b, c), fair(b, c, a), fair(c, a, b));
            Ok(format!(in alloc; "{first} {second} {third}")?)
        }
        _ => bail!("three legs"),
    }
}

/// The free distance over the fixes.
fn free_goal(alloc: Global, fixes: &[Fix], loss: i64) -> Result<FreeGoal> {
    let Some(last) = last_of(fixes) else {
        bail!("no fixes, or too many");
    };
    let loss = loss.clamp(0, 100_000) as i32;
    Ok(FreeGoal::new(alloc, fixes, 0, last, loss)?)
}

/// The triangle over the fixes, and the number of the last one.
fn triangle_goal(alloc: Global, fixes: &[Fix], closing: u64) -> Result<(TriangleGoal, u32)>
    ensures first { IfOk result (λ made. made.0.first ≡ 0) }
    ensures last { IfOk result (λ made. made.0.last ≡ made.1) }
{
    let Some(last) = last_of(fixes) else {
        bail!("no fixes, or too many");
    };
    Ok((TriangleGoal::new(alloc, fixes, 0, last, closing)?, last))
}

/// How far a flight reaches from each fix up to the last one.
fn push_reaches(text: &mut String, goal: &TriangleGoal, last: u32) -> Result<(), AllocError>
    requires first { goal.now.first ≡ 0 }
    requires last { goal.now.last ≡ last }
{
    for fix in 0..=last {
        write!(text, "{} ", goal.reach(fix))?;
    }
    Ok(())
}

/// `reaches CLOSING; FIXES`: the number of the fix to which the flight reaches from each, if it has
/// to close to so many centimetres. `triangle ..`: the greatest triangle.
fn of_triangle(alloc: Global, verb: &str, input: &str) -> Result<String> {
    let (closing, flight) = input.split_once("; ").context("no fixes")?;
    let fixes = fixes(alloc, repeated(alloc, flight)?.as_str())?;
    let (goal, last) = triangle_goal(alloc, &fixes, closing.parse::<u64>()?)?;
    let mut text = String::new(alloc);
    if verb == "reaches" {
        push_reaches(&mut text, &goal, last)?;
        return Ok(text);
    }
    match best_triangle(alloc, &goal)? {
        Some(best) => write!(text, "{}", best.total)?,
        None => text.push_str("none")?,
    }
    Ok(text)
}

/// `free LOSS; FIXES`: the greatest free distance with at most so many metres of loss, by spans of
/// time and by place.
fn of_free(alloc: Global, input: &str) -> Result<String> {
    let (loss, flight) = input.split_once("; ").context("no fixes")?;
    let fixes = fixes(alloc, flight)?;
    let goal = free_goal(alloc, &fixes, loss.parse::<i64>()?)?;
    let in_time = best_free(alloc, &goal)?.total;
    let by_place = best_free_after(alloc, &goal, 0)?.total;
    Ok(format!(in alloc; "{in_time} {by_place}")?)
}

/// The first claim of a proof with these lines, with `|` for the end of each.
fn claim_of(alloc: Global, lines: &str) -> Result<Claim> {
    let lines = lines.replace(alloc, "|", "\n")?;
    let text = format!(in alloc; "GLIDEPROOF 2\nCLAIM EE {lines}END\n")?;
    let mut claims = read_proof(alloc, text.as_bytes())?.claims;
    Ok(claims.pop().context("no claim")?)
}

/// `checked LIMIT; FIXES; LINES`: what is said of the claim with these lines behind `CLAIM EE`, of
/// a free distance with so many metres of loss, or of a triangle that closes to so many centimetres.
fn checked(alloc: Global, input: &str) -> Result<String> {
    let (limit, rest) = input.split_once("; ").context("no fixes")?;
    let (flight, lines) = rest.split_once("; ").context("no claim")?;
    let limit = limit.parse::<i64>()?;
    let fixes = fixes(alloc, flight)?;
    let claim = claim_of(alloc, lines)?;
    let verdict = if lines.starts_with("TRIANGLE") {
        let (goal, _last) = triangle_goal(alloc, &fixes, at_most(limit, 50_000_000))?;
        check_claim(alloc, &goal, &claim)?
    } else {
        check_claim(alloc, &free_goal(alloc, &fixes, limit)?, &claim)?
    };
    Ok(format!(in alloc; "{verdict:?}")?)
}

/// The answer to a row of goals.
pub fn answer(alloc: Global, verb: &str, input: &str) -> Result<String> {
    match verb {
        "fair" => are_fair(alloc, input),
        "reaches" | "triangle" => of_triangle(alloc, verb, input),
        "free" => of_free(alloc, input),
        "checked" => checked(alloc, input),
        _ => bail!("no verb of goals"),
    }
}
