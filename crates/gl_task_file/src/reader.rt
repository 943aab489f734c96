ghost use Rattle.std.specs.Prelude.{◌≡◌, ◌≢◌, None, Some, IfOk, IfErr};
ghost use Rattle.toml.specs.View.{table_view};
ghost use Rattle.gl_task_file.specs.declared.error.TaskError.TheVariants.{Memory};
ghost use Rattle.gl_task_file.specs.Keys.{first_failed};
ghost use Rattle.gl_task_file.specs.Reading.{IsReadFrom, IsRefusalOf};
ghost use Rattle.gl_task_file.specs.Meaning.{IsTask};
ghost use Rattle.gl_task_file.specs.Tests.{tests};

use crate::error::TaskError;
use crate::sections::{read_people, read_plan};
use gl_task::Task;
use gl_text::Items;
use std::alloc::Global;
use toml::Table;

/// The task of a file's table.
#[tactic(auto, unfolding(crate::specs::Tests::tests), using(crate::proofs::TestLemmas::behind_all, crate::proofs::TestLemmas::before_all))]
fn read_table(alloc: Global, file: &Table) -> Result<Task, TaskError>
    ensures ok { IfOk result (IsTask (table_view file.now)) }
    ensures passes { IfOk result (λ task. first_failed (tests (table_view file.now)) ≡ None) }
    ensures refused { IfErr result (λ e. e ≢ Memory
        → first_failed (tests (table_view file.now)) ≡ Some e) }
{
    let (day, lists, course) = read_plan(alloc, file)?;
    let (rules, entrants) = read_people(alloc, file)?;
    Ok(Task {
        date: day.date,
        kind: day.kind,
        closes: day.closes,
        airspace: day.airspace,
        free: lists.free,
        triangle: lists.triangle,
        start: course.start,
        zones: course.zones,
        finish: course.finish,
        rules,
        entrants: Items::from_vec(entrants),
    })
}

/// Reads the task of a day from the bytes of its file.
///
/// Every key, with its row, its unit and its range, is in docs/task-file.md. A text that isn't TOML
/// in
/// UTF-8 is `Toml`; else the keys are tested in the order of their rows, and the first test that
/// fails
/// is the answer.
pub fn read_task(alloc: Global, text: &[u8]) -> Result<Task, TaskError>
    ensures ok { IfOk result (IsReadFrom text.now) }
    ensures refused { IfErr result (IsRefusalOf text.now) }
{
    match toml::table_from_slice(alloc, text) {
        Ok(file) => read_table(alloc, &file),
        Err(e) if e.is_memory() => Err(TaskError::Memory),
        Err(_) => Err(TaskError::Toml),
    }
}
