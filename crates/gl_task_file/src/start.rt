ghost use Rattle.std.specs.Prelude.{◌≡◌, None, Some, IfOk, IfErr};
ghost use Rattle.toml.specs.View.{table_view};
ghost use Rattle.gl_task_file.specs.Code.Times.{AreTimes};
ghost use Rattle.gl_task_file.specs.Keys.{first_failed};
ghost use Rattle.gl_task_file.specs.Meaning.{IsPilotStart, IsStart};
ghost use Rattle.gl_task_file.specs.Tests.{pilot_tests, start_tests, time_tests};

use crate::error::TaskError;
use crate::key::{
    needed_place, needed_place_away_from, needed_table, needed_whole, optional_whole, row,
};
use crate::limit::{GREATEST_LENGTH, LAST_SECOND, LONGEST_WAIT, METRE, WIDEST_WINDOW};
use crate::times::Times;
use gl_sphere::vector;
use gl_task::{PilotStart, Start};
use gl_zone::Line;
use toml::Table;

/// How a start is announced, by its table; `None` if it has no wait.
#[tactic(auto, unfolding(crate::specs::Tests::pilot_tests))]
fn read_pilot_start(table: &Table) -> Result<Option<PilotStart>, TaskError>
    ensures ok { IfOk result (IsPilotStart (table_view table.now)) }
    ensures passes { IfOk result
        (λ pilot. first_failed (pilot_tests (table_view table.now)) ≡ None) }
    ensures refused { IfErr result
        (λ e. first_failed (pilot_tests (table_view table.now)) ≡ Some e) }
{
    let Some(wait) = optional_whole(table, "wait", row(37), 0, LONGEST_WAIT)? else {
        return Ok(None);
    };
    let width = needed_whole(table, "width", row(38), 1, WIDEST_WINDOW)?;
    Ok(Some(PilotStart {
        wait: wait as i32,
        width: width as i32,
    }))
}

/// When a start opens and closes, in seconds, and how it is announced, by its table.
#[tactic(auto, unfolding(crate::specs::Tests::time_tests))]
fn read_times(table: &Table) -> Result<Times, TaskError>
    ensures ok { IfOk result (AreTimes (table_view table.now)) }
    ensures passes { IfOk result
        (λ times. first_failed (time_tests (table_view table.now)) ≡ None) }
    ensures refused { IfErr result
        (λ e. first_failed (time_tests (table_view table.now)) ≡ Some e) }
{
    let opens = needed_whole(table, "open", row(11), 0, LAST_SECOND)?;
    let close = needed_whole(table, "close", row(12), opens, LAST_SECOND)?;
    let pilot = read_pilot_start(table)?;
    Ok(Times {
        opens: opens as i32,
        close: close as i32,
        pilot,
    })
}

/// The start of a task.
#[tactic(auto, unfolding(crate::specs::Tests::start_tests))]
pub fn read_start(file: &Table) -> Result<Start, TaskError>
    ensures ok { IfOk result (IsStart (table_view file.now)) }
    ensures passes { IfOk result
        (λ start. first_failed (start_tests (table_view file.now)) ≡ None) }
    ensures refused { IfErr result
        (λ e. first_failed (start_tests (table_view file.now)) ≡ Some e) }
{
    let table = needed_table(file, "start", row(7))?;
    let at = needed_place(table, "at", row(8))?;
    let towards = needed_place_away_from(table, "towards", row(9), at)?;
    let half = needed_whole(table, "half", row(10), 1, GREATEST_LENGTH)?;
    let Times {
        opens,
        close,
        pilot,
    } = read_times(table)?;
    Ok(Start {
        line: Line {
            centre: vector(at),
            towards: vector(towards),
            half: u64::from(half) * METRE,
        },
        opens,
        close,
        pilot,
    })
}
