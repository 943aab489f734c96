ghost use Rattle.std.specs.Prelude.{◌≡◌, [], IfOk, IfErr, OnOk};
ghost use Rattle.gl_task_file.specs.Reading.{IsReadFrom};
ghost use Rattle.gl_draft.specs.Draft.{AreLinesOf, HasTask, IsDraftText, IsNoDraft, IsNoTask};
ghost use Rattle.gl_draft.specs.Line.{filled_text, marked_text};

use crate::comparison::has_draft;
use crate::draft::Draft;
use crate::draft_lines::say_draft;
use crate::line::{Filling, Line, text_with};
use crate::lines::Lines;
use crate::recording::Recording;
use crate::refusal::Cause;
use gl_cup::CupTask;
use gl_task::Task;
use gl_task_file::{TaskError, read_task};
use std::alloc::{AllocError, Global};

/// The task that lines say, filled in with some values.
fn filled_task(alloc: Global, lines: &[Line], draft: &Draft) -> Result<Task, Cause>
    requires { AreLinesOf draft.now lines.now }
    ensures ok { IfOk result (IsReadFrom (filled_text lines.now)) }
    ensures refused { IfErr result (IsNoDraft draft.now) }
{
    let text = text_with(alloc, Filling::Trial, lines)?;
    match read_task(alloc, &text) {
        Ok(task) => Ok(task),
        Err(wrong) => Err(Cause::from(wrong)),
    }
}

/// Tests that lines, filled in with some values, read as a task that has all that was taken.
fn test_filled(alloc: Global, lines: &[Line], draft: &Draft) -> Result<(), Cause>
    requires { AreLinesOf draft.now lines.now }
    ensures ok { OnOk result (HasTask draft.now lines.now) }
    ensures refused { IfErr result (IsNoDraft draft.now) }
{
    let task = filled_task(alloc, lines, draft)?;
    if has_draft(draft, &task) {
        Ok(())
    } else {
        Err(Cause::Differs)
    }
}

/// The text of lines with the marks, which gives no task.
fn marked(alloc: Global, lines: &[Line], draft: &Draft) -> Result<Vec<u8>, Cause>
    requires { AreLinesOf draft.now lines.now }
    ensures ok { IfOk result (λ text.
        (text.items ≡ marked_text lines.now) × IsNoTask text.items) }
    ensures refused { IfErr result (IsNoDraft draft.now) }
{
    let text = text_with(alloc, Filling::Mark, lines)?;
    match read_task(alloc, &text) {
        Ok(_task) => Err(Cause::Differs),
        Err(TaskError::Memory) => Err(Cause::from(AllocError)),
        Err(_) => Ok(text),
    }
}

/// The text of lines, where it is the text of a draft.
fn tested_text(alloc: Global, lines: &[Line], draft: &Draft) -> Result<Vec<u8>, Cause>
    requires { AreLinesOf draft.now lines.now }
    ensures ok { IfOk result (λ text. IsDraftText draft.now text.items) }
    ensures refused { IfErr result (IsNoDraft draft.now) }
{
    test_filled(alloc, lines, draft)?;
    marked(alloc, lines, draft)
}

/// The text of a task file for what was taken of a task and recordings, behind some remarks.
pub fn draft_text(
    alloc: Global,
    remarks: Lines,
    draft: &Draft,
    task: &CupTask,
    recordings: &[Recording],
) -> Result<Vec<u8>, Cause>
    requires { remarks ≡ [] }
    ensures ok { IfOk result (λ text. IsDraftText draft.now text.items) }
    ensures refused { IfErr result (IsNoDraft draft.now) }
{
    let mut lines = remarks;
    say_draft(&mut lines, draft, task, recordings)?;
    tested_text(alloc, lines.as_slice(), draft)
}
