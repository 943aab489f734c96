ghost use Rattle.std.specs.Prelude.{◌≡◌, ◌<◌, ◌≤◌, ℕ, IfErr, IfOk, List, Some, length};
ghost use Rattle.gl_cup.specs.Reading.{IsTaskOf};
ghost use Rattle.gl_desk.specs.Answers.{OnlyReads, stop_of};
ghost use Rattle.gl_desk.specs.Desk.{ListsNames};
ghost use Rattle.gl_task_file.specs.Reading.{IsReadFrom};
ghost use Rattle.gl_draft.specs.Causes.{IsNoFault, stop_of_cause};
ghost use Rattle.gl_draft.specs.Code.{Answers, asked_by, stop_in};
ghost use Rattle.gl_draft.specs.Made.{AreSources, IsDraftOf, IsFileIn, IsMade, IsNoCup, IsNoDayText, IsNoFileIn, IsNoSourceOf, IsNoTextFor, IsRefused, IsSourceOf, IsTextFor, IsTextOf, IsUnmade};
ghost use Rattle.gl_draft.specs.Run.{IsRun};
ghost use Rattle.gl_draft.specs.Taken.{IsDay};
ghost use Rattle.gl_draft.specs.Words.{words_of};

use crate::answer::Status;
use crate::course::{Course, course_of, kind_of};
use crate::draft::Draft;
use crate::entrant::{common_day, entrants_behind};
use crate::late::late_text;
use crate::recording::{Recording, is_left_out, read_recordings};
use crate::refusal::{Cause, refusal_line};
use crate::remarks::remarks;
use crate::text::draft_text;
use crate::words::{Asks, USAGE, Words, read_words};
use gl_cup::{CupTask, read_cup};
use gl_desk::{Desk, DeskError, MOST_BYTES, Name, ReadError, read_all};
use gl_task::Task;
use gl_task_file::{TaskError, read_task};
use gl_text::Items;
use jiff_core::civil::Date;
use std::alloc::Global;

/// The bytes of a file, which has to be one of the folder's.
pub fn read_file<D: Desk>(
    alloc: Global,
    desk: &mut D,
    names: &[Name],
    file: &Name,
) -> Result<Vec<u8>, Cause>
    requires { ListsNames (D.told desk.old).folder names.now }
    ensures file { IfOk result (λ bytes.
        IsFileIn (D.told desk.old).folder file.now bytes.items) }
    ensures refused { IfErr result (IsNoFileIn (D.told desk.old).folder file.now) }
    ensures reads { OnlyReads (stop_in result) (D.told desk.old) (D.told desk.new) }
{
    if !names.contains(file) {
        return Err(Cause::NotListed);
    }
    match read_all(alloc, desk, file, MOST_BYTES) {
        Ok(bytes) => Ok(bytes),
        Err(ReadError::TooLarge) => Err(Cause::TooLarge),
        Err(ReadError::Fault) => Err(Cause::Stopped(DeskError::Failed)),
        Err(ReadError::Memory) => Err(Cause::Stopped(DeskError::Memory)),
    }
}

/// What a file says: a task of a SeeYou file, or the task of a task file.
#[derive(Debug, Drop)]
pub enum Source {
    Cup(CupTask),
    Day(Task),
}

/// A task of a SeeYou file's text, by its number or the only one.
fn cup_of(alloc: Global, bytes: &[u8], number: Option<u32>) -> Result<CupTask, Cause>
    ensures task { IfOk result (IsTaskOf bytes.now number) }
    ensures count { IfOk result (λ task. 3 ≤ length task.points) }
    ensures refused { IfErr result (IsNoCup bytes.now number) }
    ensures no_fault { IfErr result IsNoFault }
{
    let task = read_cup(alloc, bytes, number)?;
    Ok(task)
}

/// The task of a task file's text.
fn day_in(alloc: Global, bytes: &[u8]) -> Result<Task, Cause>
    ensures task { IfOk result (IsReadFrom bytes.now) }
    ensures refused { IfErr result (IsNoDayText bytes.now) }
    ensures no_fault { IfErr result IsNoFault }
{
    match read_task(alloc, bytes) {
        Ok(task) => Ok(task),
        Err(TaskError::Toml) => Err(Cause::NoToml),
        Err(wrong) => Err(Cause::from(wrong)),
    }
}

/// What the bytes of a file say, as is asked.
fn source_of(alloc: Global, bytes: &[u8], asks: Asks) -> Result<Source, Cause>
    ensures source { IfOk result (IsSourceOf bytes.now asks) }
    ensures refused { IfErr result (IsNoSourceOf bytes.now asks) }
    ensures no_fault { IfErr result IsNoFault }
{
    match asks {
        Asks::Task(number) => {
            let task = cup_of(alloc, bytes, number)?;
            Ok(Source::Cup(task))
        }
        Asks::Late => {
            let task = day_in(alloc, bytes)?;
            Ok(Source::Day(task))
        }
    }
}

/// What the file says that the words name, the recordings, and whether some were left out, in a
/// folder that lists these names.
fn see_listed<D: Desk>(
    alloc: Global,
    desk: &mut D,
    names: Vec<Name>,
    words: Words<'_>,
) -> Result<(Source, Vec<Recording>, bool), Cause>
    requires { ListsNames (D.told desk.old).folder names.items }
    ensures sources { IfOk result (λ seen.
        AreSources (D.told desk.old).folder (asked_by words.entry) seen.0 seen.1.items) }
    ensures refused { IfErr result (IsRefused (D.told desk.old).folder (asked_by words.entry)) }
    ensures reads { OnlyReads (stop_in result) (D.told desk.old) (D.told desk.new) }
{
    let bytes = read_file(alloc, desk, &names, words.file)?;
    let source = source_of(alloc, &bytes, words.asks)?;
    let left_out = names.iter().any(|name| is_left_out(name));
    let recordings = read_recordings(alloc, desk, names)?;
    Ok((source, recordings, left_out))
}

/// What the file says that the words name, the recordings of the folder, and whether some were left
/// out.
fn see_folder<D: Desk>(
    alloc: Global,
    desk: &mut D,
    words: Words<'_>,
) -> Result<(Source, Vec<Recording>, bool), Cause>
    ensures sources { IfOk result (λ seen.
        AreSources (D.told desk.old).folder (asked_by words.entry) seen.0 seen.1.items) }
    ensures refused { IfErr result (IsRefused (D.told desk.old).folder (asked_by words.entry)) }
    ensures reads { OnlyReads (stop_in result) (D.told desk.old) (D.told desk.new) }
{
    let names = desk.names(alloc)?;
    see_listed(alloc, desk, names, words)
}

/// The day of the calendar with a number, if there is one.
fn day_of(number: Option<i32>) -> Option<Date>
    ensures { IsDay result number }
{
    match number {
        Some(number) => match Date::from_unix_epoch_day(i64::from(number)) {
            Ok(day) => Some(day),
            Err(_) => None,
        },
        None => None,
    }
}

/// The draft of a task and recordings.
fn draft_of(alloc: Global, task: &CupTask, recordings: &[Recording]) -> Result<Draft, Cause>
    requires some { 0 < length recordings.now }
    requires points { 3 ≤ length task.now.points }
    ensures ok { IfOk result (IsDraftOf task.now recordings.now) }
    ensures refused { IfErr result (IsUnmade task.now recordings.now) }
{
    let Course {
        start,
        zones,
        finish,
    } = match course_of(alloc, task.points.as_slice())? {
        Ok(course) => course,
        Err(shape) => return Err(Cause::Shape(shape.line, shape.number)),
    };
    let entrants = entrants_behind(alloc, Vec::new(alloc), recordings)?;
    Ok(Draft {
        date: day_of(common_day(recordings)),
        kind: kind_of(task),
        start,
        zones: Items::from_vec(zones),
        finish,
        entrants: Items::from_vec(entrants),
    })
}

/// The text of the task file for a task and recordings, of which there are some.
fn text_of(
    alloc: Global,
    file: &Name,
    task: &CupTask,
    recordings: &[Recording],
    left_out: bool,
) -> Result<Vec<u8>, Cause>
    requires some { 0 < length recordings.now }
    requires points { 3 ≤ length task.now.points }
    ensures ok { IfOk result (λ text. IsTextOf task.now recordings.now text.items) }
    ensures refused { IfErr result (IsUnmade task.now recordings.now) }
{
    let remarks = remarks(alloc, file, task, recordings, left_out)?;
    let draft = draft_of(alloc, task, recordings)?;
    draft_text(alloc, remarks, &draft, task, recordings)
}

/// The text of the task file for a task and recordings.
fn task_text(
    alloc: Global,
    file: &Name,
    task: &CupTask,
    recordings: &[Recording],
    left_out: bool,
) -> Result<Vec<u8>, Cause>
    requires { 3 ≤ length task.now.points }
    ensures ok { IfOk result (λ text. IsTextOf task.now recordings.now text.items) }
    ensures refused { IfErr result (IsUnmade task.now recordings.now) }
{
    if recordings.is_empty() {
        return Err(Cause::NoRecording);
    }
    text_of(alloc, file, task, recordings, left_out)
}

/// The text that is made of what a file says and recordings.
fn make_text(
    alloc: Global,
    words: Words<'_>,
    source: &Source,
    recordings: Vec<Recording>,
    left_out: bool,
) -> Result<Vec<u8>, Cause>
    requires { (bytes : List ℕ) × IsSourceOf bytes words.asks source.now }
    ensures ok { IfOk result (λ text. IsTextFor source.now recordings.items text.items) }
    ensures refused { IfErr result (IsNoTextFor source.now recordings.items) }
{
    match source {
        Source::Cup(task) => task_text(alloc, words.file, task, &recordings, left_out),
        Source::Day(task) => {
            let text = late_text(alloc, words.file, task, recordings)?;
            Ok(text)
        }
    }
}

/// The text that the words ask for.
fn make_file<D: Desk>(alloc: Global, desk: &mut D, words: Words<'_>) -> Result<Vec<u8>, Cause>
    ensures made { IfOk result (λ text.
        IsMade (D.told desk.old).folder (asked_by words.entry) text.items) }
    ensures refused { IfErr result (IsRefused (D.told desk.old).folder (asked_by words.entry)) }
    ensures reads { OnlyReads (stop_in result) (D.told desk.old) (D.told desk.new) }
{
    let (source, recordings, left_out) = see_folder(alloc, desk, words)?;
    make_text(alloc, words, &source, recordings, left_out)
}

/// What a run ends with: the status, and the text that it says.
#[derive(Debug, Drop)]
pub struct Answer {
    pub status: Status,
    pub text: Vec<u8>,
}

/// What stopped the making of a task file, if something did.
fn stop_of(cause: &Cause) -> Option<DeskError>
    ensures { result ≡ stop_of_cause cause.now }
{
    match cause {
        Cause::Stopped(stop) => Some(*stop),
        _ => None,
    }
}

/// The answer to words that ask for something.
fn answer_words<D: Desk>(alloc: Global, desk: &mut D, words: Words<'_>) -> Result<Answer, DeskError>
    ensures is { IfOk result (Answers (D.told desk.old).folder (Some (asked_by words.entry))) }
    ensures reads { OnlyReads (stop_of result) (D.told desk.old) (D.told desk.new) }
{
    match make_file(alloc, desk, words) {
        Ok(text) => Ok(Answer {
            status: Status::Done,
            text,
        }),
        Err(cause) => match stop_of(&cause) {
            Some(stop) => Err(stop),
            None => Ok(Answer {
                status: Status::Refused,
                text: refusal_line(alloc, words.file, &cause)?,
            }),
        },
    }
}

/// The answer to the words.
fn answer_to<D: Desk>(alloc: Global, words: &[Name], desk: &mut D) -> Result<Answer, DeskError>
    ensures is { IfOk result (Answers (D.told desk.old).folder (words_of words.now)) }
    ensures reads { OnlyReads (stop_of result) (D.told desk.old) (D.told desk.new) }
{
    match read_words(words) {
        Some(words) => answer_words(alloc, desk, words),
        None => Ok(Answer {
            status: Status::Words,
            text: Vec::from_slice(alloc, USAGE.as_bytes())?,
        }),
    }
}

/// Makes a task file, or tables of late recordings, as the words say, which are those after the
/// program's own name, and says it in one piece. Nothing is written, and nothing is said after a call of the desk failed.
pub fn run<D: Desk>(alloc: Global, words: &[Name], desk: &mut D) -> Status
    ensures { IsRun words.now result (D.told desk.old) (D.told desk.new) }
{
    let answer = match answer_to(alloc, words, desk) {
        Ok(answer) => answer,
        Err(stop) => return Status::from(stop),
    };
    match desk.say(alloc, &answer.text) {
        Ok(()) => answer.status,
        Err(stop) => Status::from(stop),
    }
}
