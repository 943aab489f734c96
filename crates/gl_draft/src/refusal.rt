ghost use Rattle.std.specs.Prelude.{◌≡◌, ◌++◌, IfOk, OnOk, codes};
ghost use Rattle.std.specs.Fmt.{decimal};
ghost use Rattle.gl_desk.specs.declared.error.DeskError.TheVariants.{Memory};
ghost use Rattle.gl_draft.specs.Causes.{cause_of_cup, cause_of_task};
ghost use Rattle.gl_draft.specs.Heading.{plain_text};
ghost use Rattle.gl_draft.specs.Refusals.{cause_text, cup_text, file_text, pair_text, refusal_text};

use crate::plain::plain_text;
use gl_cup::CupError;
use gl_desk::{DeskError, Name};
use gl_task::Key;
use gl_task_file::TaskError;
use gl_text::push_u64;
use std::alloc::{AllocError, AllocFailed, Global};

/// Why no task file is made.
#[derive(Debug, Drop)]
pub enum Cause {
    /// The folder doesn't list the file of the task.
    NotListed,
    /// The file has more bytes than are read.
    TooLarge,
    /// The folder has no recording.
    NoRecording,
    /// The file's text gives no task.
    Cup(CupError),
    /// On this line, the zone of this point is of a shape that a task file can't say.
    Shape(u64, u64),
    /// The task file isn't TOML.
    NoToml,
    /// A task file can't say this key, or the numbers of two entrants are one.
    Task(u32, Key),
    /// What was written doesn't read as what was taken.
    Differs,
    /// A call of the desk failed, or there was no memory.
    Stopped(DeskError),
}

impl From<AllocError> for Cause {
    ghost use Rattle.gl_draft.specs.declared.refusal.Cause.TheVariants.{Stopped};

    ghost from_gives = { λ _ cause. cause ≡ Stopped Memory };

    fn from(_error: AllocError) -> Cause {
        Cause::Stopped(DeskError::Memory)
    }
}

impl<T: Drop> From<AllocFailed<T>> for Cause {
    ghost use Rattle.gl_draft.specs.declared.refusal.Cause.TheVariants.{Stopped};

    ghost from_gives = { λ _ cause. cause ≡ Stopped Memory };

    fn from(_refused: AllocFailed<T>) -> Cause {
        Cause::Stopped(DeskError::Memory)
    }
}

impl From<DeskError> for Cause {
    ghost use Rattle.gl_draft.specs.declared.refusal.Cause.TheVariants.{Stopped};

    ghost from_gives = { λ stop cause. cause ≡ Stopped stop };

    fn from(stop: DeskError) -> Cause {
        Cause::Stopped(stop)
    }
}

impl From<CupError> for Cause {
    ghost from_gives = { λ error cause. cause ≡ cause_of_cup error };

    fn from(error: CupError) -> Cause {
        match error {
            CupError::Memory => Cause::Stopped(DeskError::Memory),
            error => Cause::Cup(error),
        }
    }
}

impl From<TaskError> for Cause {
    ghost from_gives = { λ error cause. cause ≡ cause_of_task error };

    fn from(error: TaskError) -> Cause {
        match error {
            TaskError::Toml => Cause::Differs,
            TaskError::Missing(key) => Cause::Task(2, key),
            TaskError::Value(key) => Cause::Task(3, key),
            TaskError::Twice(key) => Cause::Task(4, key),
            TaskError::TooMany(key) => Cause::Task(5, key),
            TaskError::Memory => Cause::Stopped(DeskError::Memory),
        }
    }
}

/// Appends a number, a point and another number.
fn push_pair(line: &mut Vec<u8>, one: u64, other: u64) -> Result<(), AllocError>
    ensures { OnOk result (line.new.items ≡ line.old.items ++ pair_text one other) }
{
    push_u64(line, one)?;
    line.extend_from_slice(b".")?;
    push_u64(line, other)
}

/// Appends a number behind a text.
fn push_at(line: &mut Vec<u8>, text: &[u8], n: u64) -> Result<(), AllocError>
    ensures { OnOk result (line.new.items ≡ line.old.items ++ text.now ++ decimal n) }
{
    line.extend_from_slice(text)?;
    push_u64(line, n)
}

/// Appends a number, a point and the text of a key.
fn push_key_at(line: &mut Vec<u8>, alloc: Global, n: u64, key: &[u8]) -> Result<(), AllocError>
    ensures { OnOk result (line.new.items
        ≡ line.old.items ++ codes "CUP 15 " ++ decimal n ++ codes "." ++ plain_text key.now) }
{
    let text = plain_text(alloc, key)?;
    push_at(line, b"CUP 15 ", n)?;
    line.extend_from_slice(b".")?;
    line.extend_from_slice(text.as_str().as_bytes())
}

/// Appends the number and the place of a text that gives no task.
fn push_cup_error(line: &mut Vec<u8>, alloc: Global, error: &CupError) -> Result<(), AllocError>
    ensures { OnOk result (line.new.items ≡ line.old.items ++ cup_text error.now) }
{
    match error {
        CupError::Wide => line.extend_from_slice(b"CUP 14 -"),
        CupError::Row(n) => push_at(line, b"CUP 1 ", *n),
        CupError::Empty => line.extend_from_slice(b"CUP 2 -"),
        CupError::Header(n) => push_at(line, b"CUP 3 ", *n),
        CupError::Waypoint(n) => push_at(line, b"CUP 4 ", *n),
        CupError::NoTask => line.extend_from_slice(b"CUP 5 -"),
        CupError::Several => line.extend_from_slice(b"CUP 6 -"),
        CupError::NoSuchTask => line.extend_from_slice(b"CUP 7 -"),
        CupError::TooFewPoints(n) => push_at(line, b"CUP 8 ", *n),
        CupError::Unknown(n, point) => {
            line.extend_from_slice(b"CUP 9 ")?;
            push_pair(line, *n, *point)
        }
        CupError::Key(n, key) => push_key_at(line, alloc, *n, key.as_slice()),
        CupError::Detail(n) => push_at(line, b"CUP 10 ", *n),
        CupError::NoZone(n, point) => {
            line.extend_from_slice(b"CUP 11 ")?;
            push_pair(line, *n, *point)
        }
        CupError::Memory => Err(AllocError),
    }
}

/// Appends a key of the task file.
fn push_key(line: &mut Vec<u8>, key: Key) -> Result<(), AllocError>
    ensures { OnOk result (line.new.items
        ≡ line.old.items ++ pair_text key.row key.item ++ codes "." ++ decimal key.part) }
{
    push_pair(line, u64::from(key.row), u64::from(key.item))?;
    line.extend_from_slice(b".")?;
    push_u64(line, u64::from(key.part))
}

/// Appends what is refused, its number and its place.
fn push_cause(line: &mut Vec<u8>, alloc: Global, cause: &Cause) -> Result<(), AllocError>
    ensures { OnOk result (line.new.items ≡ line.old.items ++ cause_text cause.now) }
{
    match cause {
        Cause::NotListed | Cause::NoRecording => line.extend_from_slice(b"FILE 1 -"),
        Cause::TooLarge => line.extend_from_slice(b"FILE 3 -"),
        Cause::Cup(error) => push_cup_error(line, alloc, error),
        Cause::Shape(n, point) => {
            line.extend_from_slice(b"CUP 12 ")?;
            push_pair(line, *n, *point)
        }
        Cause::NoToml => line.extend_from_slice(b"TASK 1 -"),
        Cause::Task(number, key) => {
            line.extend_from_slice(b"TASK ")?;
            push_u64(line, u64::from(*number))?;
            line.extend_from_slice(b" ")?;
            push_key(line, *key)
        }
        Cause::Differs => line.extend_from_slice(b"CUP 13 -"),
        Cause::Stopped(_) => Err(AllocError),
    }
}

/// Appends the file that is named.
fn push_file(line: &mut Vec<u8>, file: &Name, cause: &Cause) -> Result<(), AllocError>
    ensures { OnOk result (line.new.items ≡ line.old.items ++ file_text file.now cause.now) }
{
    match cause {
        Cause::NoRecording => line.extend_from_slice(b"*.IGC"),
        _ => line.extend_from_slice(file.as_str().as_bytes()),
    }
}

/// The line that a refused run says.
#[tactic(auto, unfolding(crate::specs::Refusals::refusal_text))]
pub fn refusal_line(alloc: Global, file: &Name, cause: &Cause) -> Result<Vec<u8>, AllocError>
    ensures { IfOk result (λ line. line.items ≡ refusal_text file.now cause.now) }
{
    let mut line = Vec::from_slice(alloc, b"REFUSED ")?;
    push_cause(&mut line, alloc, cause)?;
    line.extend_from_slice(b" ")?;
    push_file(&mut line, file, cause)?;
    line.extend_from_slice(b"\n")?;
    Ok(line)
}
