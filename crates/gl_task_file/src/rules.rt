ghost use Rattle.std.specs.Prelude.{◌≡◌, ◌≤◌, ◌≤ℤ◌, pos, None, Some, IfOk, IfErr, option_map, unwrap_or};
ghost use Rattle.std.specs.Option.{ForSome};
ghost use Rattle.toml.specs.View.{table_view};
ghost use Rattle.gl_task_file.specs.Keys.{first_failed};
ghost use Rattle.gl_task.specs.Limits.{greatest_altitude, greatest_noise, most_points};
ghost use Rattle.gl_task_file.specs.Meaning.{IsRules, IsRulesOf, centimetres};
ghost use Rattle.gl_task_file.specs.Tests.{rules_tests, rule_tests};
ghost use Rattle.toml.specs.Data.{no_members};

use crate::error::TaskError;
use crate::key::{optional_table, optional_whole, row};
use crate::limit::{
    GREATEST_ALTITUDE, GREATEST_LENGTH, GREATEST_NOISE, METRE, MOST_POINTS, USUAL_CLOSING,
    USUAL_LOSS,
};
use gl_task::LocalRules;
use toml::Table;

/// An altitude in metres.
fn altitude(metres: Option<u32>) -> Option<i32>
    requires { ForSome metres (λ m. m ≤ greatest_altitude) }
    ensures value { result ≡ option_map pos metres }
    ensures at_least { ForSome result (λ m. pos 0 ≤ℤ m) }
    ensures at_most { ForSome result (λ m. m ≤ℤ pos greatest_altitude) }
{
    match metres {
        Some(metres) => Some(metres as i32),
        None => None,
    }
}

/// A level of noise.
fn noise(level: Option<u32>) -> Option<u16>
    requires { ForSome level (λ n. n ≤ greatest_noise) }
    ensures value { result ≡ level }
{
    match level {
        Some(level) => Some(level as u16),
        None => None,
    }
}

/// The local rules with what their keys say, if they are there. Lengths are in metres.
fn rules_of(
    ceiling: Option<u32>,
    level: Option<u32>,
    points: Option<u32>,
    loss: Option<u32>,
    closing: Option<u32>,
) -> LocalRules
    requires ceiling { ForSome ceiling (λ m. m ≤ greatest_altitude) }
    requires level { ForSome level (λ n. n ≤ greatest_noise) }
    requires points { ForSome points (λ n. n ≤ most_points) }
    requires loss { ForSome loss (λ m. m ≤ greatest_altitude) }
    requires closing { ForSome closing (λ m. m ≤ 500_000) }
    ensures ceiling { result.ceiling ≡ option_map pos ceiling }
    ensures engine_level { result.engine_level ≡ level }
    ensures engine_points { result.engine_points ≡ unwrap_or points 0 }
    ensures loss { result.loss ≡ pos (unwrap_or loss 1_000) }
    ensures closing { result.closing ≡ centimetres (unwrap_or closing 1_000) }
{
    let ceiling = altitude(ceiling);
    let engine_level = noise(level);
    let engine_points = points.unwrap_or(0);
    let loss = loss.unwrap_or(USUAL_LOSS);
    let closing = closing.unwrap_or(USUAL_CLOSING);
    LocalRules {
        ceiling,
        engine_level,
        engine_points,
        loss: loss as i32,
        closing: u64::from(closing) * METRE,
    }
}

/// The local rules where the file has none.
fn usual_rules() -> LocalRules
    ensures ok { IsRulesOf no_members result }
{
    rules_of(None, None, None, None, None)
}

/// The local rules of their table.
fn read_rule_table(table: &Table) -> Result<LocalRules, TaskError>
    ensures ok { IfOk result (IsRulesOf (table_view table.now)) }
    ensures passes { IfOk result
        (λ rules. first_failed (rule_tests (table_view table.now)) ≡ None) }
    ensures refused { IfErr result
        (λ e. first_failed (rule_tests (table_view table.now)) ≡ Some e) }
{
    let ceiling = optional_whole(table, "ceiling", row(27), 0, GREATEST_ALTITUDE)?;
    let level = optional_whole(table, "engine_level", row(28), 0, GREATEST_NOISE)?;
    let points = optional_whole(table, "engine_points", row(29), 0, MOST_POINTS)?;
    let loss = optional_whole(table, "loss", row(30), 0, GREATEST_ALTITUDE)?;
    let closing = optional_whole(table, "closing", row(31), 0, GREATEST_LENGTH)?;
    Ok(rules_of(ceiling, level, points, loss, closing))
}

/// The local rules of a task.
#[tactic(auto, unfolding(crate::specs::Tests::rules_tests))]
pub fn read_rules(file: &Table) -> Result<LocalRules, TaskError>
    ensures ok { IfOk result (IsRules (table_view file.now)) }
    ensures passes { IfOk result
        (λ rules. first_failed (rules_tests (table_view file.now)) ≡ None) }
    ensures refused { IfErr result
        (λ e. first_failed (rules_tests (table_view file.now)) ≡ Some e) }
{
    match optional_table(file, "rules", row(26))? {
        Some(table) => read_rule_table(table),
        None => Ok(usual_rules()),
    }
}
