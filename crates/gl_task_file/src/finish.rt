ghost use Rattle.std.specs.Prelude.{◌≡◌, None, Some, IfOk, IfErr, IsTrue};
ghost use Rattle.std.specs.Result.{ForOk};
ghost use Rattle.gl_sphere.specs.declared.place.Grid.{Grid};
ghost use Rattle.gl_sphere.specs.Place.{written_vector};
ghost use Rattle.toml.specs.Data.{Members};
ghost use Rattle.toml.specs.View.{table_view};
ghost use Rattle.gl_task_file.specs.Keys.{first_failed, said};
ghost use Rattle.gl_task_file.specs.Meaning.{IsFinish, IsLine};
ghost use Rattle.gl_task_file.specs.Places.{place};
ghost use Rattle.gl_task.specs.Ranges.{has_width_and_way, is_in_range};
ghost use Rattle.gl_task_file.specs.Table.{finish_line};
ghost use Rattle.gl_task_file.specs.Tests.{finish_tests, gate_tests};
ghost use Rattle.std.specs.Prelude.{codes};

use crate::error::TaskError;
use crate::key::{
    needed_place, needed_place_away_from, needed_table, needed_whole, optional_whole, row,
};
use crate::limit::{GREATEST_LENGTH, METRE};
use gl_sphere::{Grid, vector};
use gl_task::Finish;
use gl_zone::Line;
use toml::Table;

/// The line of a finish whose place is known.
fn read_gate(table: &Table, at: Grid) -> Result<Line, TaskError>
    requires { said (codes "at") place (table_view table.now) ≡ Some at }
    ensures ok { IfOk result (IsLine finish_line (table_view table.now)) }
    ensures range { IfOk result (λ line. IsTrue (has_width_and_way line)) }
    ensures passes { IfOk result (λ line. first_failed (gate_tests (table_view table.now)) ≡ None) }
    ensures refused { IfErr result
        (λ e. first_failed (gate_tests (table_view table.now)) ≡ Some e) }
{
    let half = needed_whole(table, "half", row(24), 1, GREATEST_LENGTH)?;
    let towards = needed_place_away_from(table, "towards", row(25), at)?;
    Ok(Line {
        centre: vector(at),
        towards: vector(towards),
        half: u64::from(half) * METRE,
    })
}

/// The finish of a task.
#[tactic(auto, unfolding(crate::specs::Tests::finish_tests))]
pub fn read_finish(file: &Table) -> Result<Finish, TaskError>
    ensures ok { IfOk result (IsFinish (table_view file.now)) }
    ensures range { IfOk result (λ finish. IsTrue (is_in_range finish)) }
    ensures passes { IfOk result
        (λ finish. first_failed (finish_tests (table_view file.now)) ≡ None) }
    ensures refused { IfErr result
        (λ e. first_failed (finish_tests (table_view file.now)) ≡ Some e) }
{
    let table = needed_table(file, "finish", row(21))?;
    let at = needed_place(table, "at", row(22))?;
    match optional_whole(table, "ring", row(23), 1, GREATEST_LENGTH)? {
        Some(radius) => Ok(Finish::Ring {
            at: vector(at),
            radius: u64::from(radius) * METRE,
        }),
        None => Ok(Finish::Gate(read_gate(table, at)?)),
    }
}
