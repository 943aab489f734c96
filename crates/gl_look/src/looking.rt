ghost use Rattle.std.specs.Prelude.{◌≡◌, ◌≢◌, ◌++◌, ◌∷◌, [], ℕ, List, Option, IfOk};
ghost use Rattle.gl_look.specs.Code.Tables.{IsTableOrNone, IsTaskOrNone};
ghost use Rattle.toml.specs.View.{table_view};
ghost use Rattle.gl_desk.specs.Answers.{OnlyReads, stop_of};
ghost use Rattle.gl_desk.specs.Desk.{FilesByName, ListsNames};
ghost use Rattle.gl_task_file.specs.Reading.{IsDocument, IsReadFrom, IsRefusalOf};
ghost use Rattle.gl_task_file.specs.declared.error.TaskError.TheVariants.{Memory};
ghost use Rattle.gl_look.specs.Keys.{refused_told, remark, tables_told};
ghost use Rattle.gl_look.specs.Look.{IsLook, IsSightTold, IsTaskTold, IsTextTold};

use crate::airspace::look_at_airspace;
use crate::folder::{look_at_handicaps, look_for_shares, look_for_unnamed};
use crate::keys::look_at_tables;
use crate::recording::look_at_recordings;
use crate::refusal_words::refusal;
use crate::remarks::Remarks;
use crate::scan::Scan;
use crate::sight::{Sight, see};
use crate::task_words::{line_of_error, words_of_absent, words_of_error, words_of_large};
use crate::told::{Slip, Subject, Told};
use gl_desk::{Desk, DeskError, Name};
use gl_task::Task;
use gl_task_file::{TaskError, read_task};
use std::alloc::{AllocError, Global};
use std::str;
use toml::Table;
use toml::de::Error;

/// One remark on the task file as a whole.
fn on_task(
    alloc: Global,
    scan: Scan<'_>,
    slip: Slip,
    line: Option<usize>,
    words: String,
) -> Result<Remarks, AllocError>
    ensures { IfOk result (λ remarks. remarks ≡ remark Subject.Task slip ∷ []) }
{
    let mut remarks = Remarks::new(alloc);
    let told = Told {
        subject: Subject::Task,
        slip,
    };
    remarks.push(told, scan.head(alloc, line)?, words)?;
    Ok(remarks)
}

/// What is remarked of a task, behind other remarks.
fn look_at_task<D: Desk>(
    alloc: Global,
    desk: &mut D,
    remarks: Remarks,
    scan: Scan<'_>,
    names: Vec<Name>,
    task: &Task,
) -> Result<Remarks, DeskError>
    requires { ListsNames (D.told desk.old).folder names.items }
    ensures is { IfOk result
        (IsTaskTold (D.told desk.old).folder names.items task.now remarks) }
    ensures reads { OnlyReads (stop_of result) (D.told desk.old) (D.told desk.new) }
{
    let mut remarks = remarks;
    let entrants = task.entrants.as_slice();
    look_at_handicaps(alloc, &mut remarks, scan, entrants)?;
    look_at_airspace(alloc, desk, &mut remarks, scan, &names, &task.airspace)?;
    look_for_shares(alloc, &mut remarks, scan, entrants)?;
    look_at_recordings(alloc, desk, &mut remarks, scan, &names, task)?;
    look_for_unnamed(alloc, &mut remarks, entrants, names)?;
    Ok(remarks)
}

/// What is remarked of a file that says no task, behind other remarks.
fn look_at_refusal(
    alloc: Global,
    remarks: Remarks,
    scan: Scan<'_>,
    error: &TaskError,
) -> Result<Remarks, AllocError>
    ensures { IfOk result (λ more. more ≡ remarks ++ refused_told remarks) }
{
    let mut remarks = remarks;
    if remarks.has_open() {
        return Ok(remarks);
    }
    let told = Told {
        subject: Subject::Task,
        slip: Slip::NoTask,
    };
    let (line, words) = refusal(alloc, scan, error)?;
    remarks.push(told, scan.head(alloc, line)?, words)?;
    Ok(remarks)
}

/// What is remarked of the keys of a task file.
fn look_at_table(alloc: Global, scan: Scan<'_>, table: &Table) -> Result<Remarks, AllocError>
    ensures { IfOk result (λ remarks. remarks ≡ tables_told (table_view table.now)) }
{
    let mut remarks = Remarks::new(alloc);
    look_at_tables(alloc, &mut remarks, scan, table)?;
    Ok(remarks)
}

/// The task of a text, or why there is none; want of memory apart.
fn task_of(alloc: Global, text: &[u8]) -> Result<Result<Task, TaskError>, AllocError>
    ensures { IfOk result (IsTaskOrNone text.now) }
{
    match read_task(alloc, text) {
        Ok(task) => Ok(Ok(task)),
        Err(TaskError::Memory) => Err(AllocError),
        Err(error) => Ok(Err(error)),
    }
}

/// What is remarked of the text of a task file with this task, behind what is remarked of its keys.
fn look_at_some<D: Desk>(
    alloc: Global,
    desk: &mut D,
    remarks: Remarks,
    scan: Scan<'_>,
    names: Vec<Name>,
    text: &[u8],
    table: &Table,
    task: &Task,
) -> Result<Remarks, DeskError>
    requires names { ListsNames (D.told desk.old).folder names.items }
    requires document { IsDocument text.now (table_view table.now) }
    requires keys { remarks ≡ tables_told (table_view table.now) }
    requires read { IsReadFrom text.now task.now }
    ensures is { IfOk result (IsTextTold (D.told desk.old).folder names.items text.now) }
    ensures reads { OnlyReads (stop_of result) (D.told desk.old) (D.told desk.new) }
{
    look_at_task(alloc, desk, remarks, scan, names, task)
}

/// What is remarked of the text of a task file that says no task, behind what is remarked of its
/// keys.
fn look_at_none(
    alloc: Global,
    remarks: Remarks,
    scan: Scan<'_>,
    text: &[u8],
    table: &Table,
    error: &TaskError,
) -> Result<Remarks, AllocError>
    requires document { IsDocument text.now (table_view table.now) }
    requires keys { remarks ≡ tables_told (table_view table.now) }
    requires known { error.now ≢ Memory }
    requires refused { IsRefusalOf text.now error.now }
    ensures { IfOk result (λ more. (folder : Option FilesByName) (names : List (List ℕ))
        → IsTextTold folder names text.now more) }
{
    look_at_refusal(alloc, remarks, scan, error)
}

/// What is remarked of the text of a task file with this table.
fn look_at_file<D: Desk>(
    alloc: Global,
    desk: &mut D,
    scan: Scan<'_>,
    names: Vec<Name>,
    text: &[u8],
    table: &Table,
) -> Result<Remarks, DeskError>
    requires names { ListsNames (D.told desk.old).folder names.items }
    requires document { IsDocument text.now (table_view table.now) }
    ensures is { IfOk result (IsTextTold (D.told desk.old).folder names.items text.now) }
    ensures reads { OnlyReads (stop_of result) (D.told desk.old) (D.told desk.new) }
{
    let remarks = look_at_table(alloc, scan, table)?;
    match task_of(alloc, text)? {
        Ok(task) => look_at_some(alloc, desk, remarks, scan, names, text, table, &task),
        Err(error) => Ok(look_at_none(alloc, remarks, scan, text, table, &error)?),
    }
}

/// The table of a text in TOML, or why it is none; want of memory apart.
fn table_of(alloc: Global, text: &[u8]) -> Result<Result<Table, Error>, AllocError>
    ensures { IfOk result (IsTableOrNone text.now) }
{
    match toml::table_from_slice(alloc, text) {
        Ok(table) => Ok(Ok(table)),
        Err(error) if error.is_memory() => Err(AllocError),
        Err(error) => Ok(Err(error)),
    }
}

/// What is remarked of the text of a task file.
fn look_at_text<D: Desk>(
    alloc: Global,
    desk: &mut D,
    file: &Name,
    names: Vec<Name>,
    text: &[u8],
) -> Result<Remarks, DeskError>
    requires { ListsNames (D.told desk.old).folder names.items }
    ensures is { IfOk result (IsTextTold (D.told desk.old).folder names.items text.now) }
    ensures reads { OnlyReads (stop_of result) (D.told desk.old) (D.told desk.new) }
{
    let scan = Scan {
        file,
        text: str::from_utf8(text).unwrap_or(""),
    };
    match table_of(alloc, text)? {
        Ok(table) => look_at_file(alloc, desk, scan, names, text, &table),
        Err(error) => {
            let line = line_of_error(text, &error);
            let words = words_of_error(alloc, &error)?;
            Ok(on_task(alloc, scan, Slip::NotToml, line, words)?)
        }
    }
}

/// What is remarked of a task file that isn't in the folder.
fn on_absent(alloc: Global, file: &Name, names: &[Name]) -> Result<Remarks, AllocError>
    ensures { IfOk result (λ remarks. remarks ≡ remark Subject.Task Slip.NoFile ∷ []) }
{
    let scan = Scan { file, text: "" };
    let words = words_of_absent(alloc, names, file)?;
    on_task(alloc, scan, Slip::NoFile, None, words)
}

/// What is remarked of a task file that is too large.
fn on_large(alloc: Global, file: &Name) -> Result<Remarks, AllocError>
    ensures { IfOk result (λ remarks. remarks ≡ remark Subject.Task Slip.TooLarge ∷ []) }
{
    let scan = Scan { file, text: "" };
    on_task(alloc, scan, Slip::TooLarge, None, words_of_large(alloc)?)
}

/// What is remarked of a task file of which this is seen.
fn look_at_sight<D: Desk>(
    alloc: Global,
    desk: &mut D,
    file: &Name,
    names: Vec<Name>,
    sight: Sight,
) -> Result<Remarks, DeskError>
    requires { ListsNames (D.told desk.old).folder names.items }
    ensures is { IfOk result (IsSightTold (D.told desk.old).folder names.items sight) }
    ensures reads { OnlyReads (stop_of result) (D.told desk.old) (D.told desk.new) }
{
    match sight {
        Sight::Absent => Ok(on_absent(alloc, file, &names)?),
        Sight::TooLarge => Ok(on_large(alloc, file)?),
        Sight::Bytes(text) => look_at_text(alloc, desk, file, names, &text),
    }
}

/// What is remarked of a task file and its folder, which lists some names.
fn look_listed<D: Desk>(
    alloc: Global,
    desk: &mut D,
    names: Vec<Name>,
    file: &Name,
) -> Result<Remarks, DeskError>
    requires { ListsNames (D.told desk.old).folder names.items }
    ensures is { IfOk result (IsLook (D.told desk.old).folder file.now) }
    ensures reads { OnlyReads (stop_of result) (D.told desk.old) (D.told desk.new) }
{
    let sight = see(alloc, desk, &names, file)?;
    let remarks = look_at_sight(alloc, desk, file, names, sight)?;
    Ok(remarks)
}

/// What is remarked of a task file and its folder.
pub fn look<D: Desk>(alloc: Global, desk: &mut D, file: &Name) -> Result<Remarks, DeskError>
    ensures is { IfOk result (IsLook (D.told desk.old).folder file.now) }
    ensures reads { OnlyReads (stop_of result) (D.told desk.old) (D.told desk.new) }
{
    let names = desk.names(alloc)?;
    look_listed(alloc, desk, names, file)
}
