ghost use Rattle.std.specs.Prelude.{◌≡◌, ◌≢◌, ◌≤◌, None, Some, IfOk, IfErr, length, map, vec_len, codes};
ghost use Rattle.toml.specs.View.{table_view, view};
ghost use Rattle.gl_task_file.specs.declared.error.TaskError.TheVariants.{Memory};
ghost use Rattle.gl_task_file.specs.Keys.{each_item, first_failed, list_at};
ghost use Rattle.gl_task_file.specs.Meaning.{Each, IsEntrant};
ghost use Rattle.gl_task_file.specs.Tests.{entrant_tests, entrants_tests};

use crate::error::TaskError;
use crate::item::{ReadItem, read_items};
use crate::key::{
    at_most, item_table, needed_file_name, needed_list, needed_name, needed_number, needed_whole,
    row, row_of_item, some_item,
};
use crate::limit::{GREATEST_HANDICAP, MOST_ENTRANTS};
use gl_desk::Name;
use gl_task::Entrant;
use std::alloc::Global;
use toml::{Table, Value};

/// Reads the entrants of a task.
#[derive(Clone, Copy)]
struct EntrantReader;

impl ReadItem for EntrantReader {
    type Item = Entrant;

    ghost tests = { λ reader. entrant_tests };

    ghost says = { λ reader. IsEntrant };

    #[tactic(auto, unfolding(crate::specs::Tests::entrant_tests))]
    fn read_item(&self, alloc: Global, value: &Value, n: u32) -> Result<Entrant, TaskError> {
        let table = item_table(value, row_of_item(32, n))?;
        let number = needed_number(table, "number", row_of_item(33, n))?;
        let name = needed_name(table, "name", row_of_item(34, n))?;
        let handicap = needed_whole(table, "handicap", row_of_item(35, n), 1, GREATEST_HANDICAP)?;
        let file = needed_file_name(table, "file", row_of_item(36, n))?;
        Ok(Entrant {
            number: Name::from_text(alloc, number)?,
            name: Name::from_text(alloc, name)?,
            handicap,
            file: Name::from_text(alloc, file)?,
        })
    }
}

/// The entrants of a task, whose numbers may still be the same.
#[tactic(auto, unfolding(crate::specs::Tests::entrants_tests))]
pub fn read_entrants(alloc: Global, file: &Table) -> Result<Vec<Entrant>, TaskError>
    ensures ok { IfOk result
        (λ entrants.
        Each IsEntrant (list_at (codes "entrant") (table_view file.now)) entrants.items) }
    ensures some { IfOk result (λ entrants. 1 ≤ vec_len entrants) }
    ensures few { IfOk result (λ entrants. vec_len entrants ≤ 200) }
    ensures passes { IfOk result
        (λ entrants. first_failed (entrants_tests (table_view file.now)) ≡ None) }
    ensures refused { IfErr result (λ e. e ≢ Memory
        → first_failed (entrants_tests (table_view file.now)) ≡ Some e) }
{
    let values = needed_list(file, "entrant", row(32))?;
    some_item(values, row(32))?;
    at_most(values, row(32), MOST_ENTRANTS)?;
    read_items(alloc, &EntrantReader, values)
}
