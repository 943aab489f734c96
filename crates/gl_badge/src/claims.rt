ghost use Rattle.std.specs.Prelude.{◌≡◌, ◌≤◌, length, map, IfOk, [], ◌∷◌, List, ℕ};
ghost use Rattle.std.specs.Option.{option_to_list};
ghost use Rattle.gl_goal.specs.AreaGoal.{area_rule};
ghost use Rattle.gl_badge.specs.declared.badge.Badge.TheVariants as badge;
ghost use Rattle.gl_badge.specs.declared.shown.Course.{Course};
ghost use Rattle.gl_badge.specs.Claims.{AreBadgeClaims, goal_claims, goals_through, rules_of_claims};
ghost use Rattle.gl_badge.specs.Course.{IsCourse};
ghost use Rattle.gl_goal.specs.Lists.{AreLists};

use crate::claim::BadgeClaim;
use crate::declared::course;
use crate::gain::GainGoal;
use crate::shown::Course;
use gl_goal::{AreaGoal, FreeGoal};
use gl_igc::{Fix, Recording};
use gl_sphere::Vec3;
use std::alloc::{AllocError, Global};

/// How much lower the last fix of a free distance may be than the first, in metres.
const MOST_LOSS: i32 = 1_000;

/// The goal of the way through the points of a declared course, where each was reached. The only
/// error is want of memory.
fn goal_of_course(alloc: Global, rec: &Recording) -> Result<Option<AreaGoal>, AllocError>
    ensures { IfOk result (λ goal. (shown : Course) × IsCourse rec.now shown
        × (map (λ (g : AreaGoal). (badge.DeclaredGoal, area_rule g)) (option_to_list goal)
        ≡ goal_claims rec.now.fixes shown)) }
{
    let Course::Lists { lists, points } = course(alloc, rec)? else {
        return Ok(None);
    };
    let start = points[0];
    let finish = points[points.len() - 1];
    let goal = AreaGoal::new(alloc, rec.fixes.as_slice(), lists, start, finish, 0)?;
    Ok(Some(goal))
}

/// The badge claims of a flight, each with its goal, in this order: the free distance, the gain of
/// height, and the way through the points of the declared course where each was reached. The only
/// error is want of memory.
pub fn badge_claims(alloc: Global, rec: &Recording) -> Result<Vec<BadgeClaim>, AllocError>
    ensures { IfOk result (λ claims. AreBadgeClaims rec.now (rules_of_claims claims.items)) }
{
    let fixes = rec.fixes.as_slice();
    let last = fixes.len() as u32 - 1;
    let mut claims = Vec::new(alloc);
    let distance = FreeGoal::new(alloc, fixes, 0, last, MOST_LOSS)?;
    claims.push(BadgeClaim::Distance(distance))?;
    claims.push(BadgeClaim::Gain(GainGoal::new(alloc, fixes)?))?;
    if let Some(goal) = goal_of_course(alloc, rec)? {
        claims.push(BadgeClaim::DeclaredGoal(goal))?;
    }
    Ok(claims)
}
