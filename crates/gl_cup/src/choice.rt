ghost use Rattle.std.specs.Prelude.{◌≡◌, ◌-◌, ◌≤◌, Ok, Err, IfOk, IfErr, option_map, position};
ghost use Rattle.gl_cup.specs.Choice.{begins_with, choice, from_task, is_detail, is_headed, is_mark, is_task, numbered, only, rows_before, task_at, task_rows, waypoint_rows};

use crate::error::CupError;
use crate::field::Field;
use crate::row::Row;

/// Whether the first field of a row is, or begins with, a word.
pub fn begins_with(fields: &[Field], word: &[u8]) -> bool
    ensures { result ≡ begins_with fields.now word.now }
{
    match fields {
        [field, ..] => field.as_slice().starts_with(word),
        [] => false,
    }
}

/// Whether a row's first field is a text.
pub fn is_headed(fields: &[Field], text: &[u8]) -> bool
    ensures { result ≡ is_headed fields.now text.now }
{
    match fields {
        [field, ..] => field.as_slice() == text,
        [] => false,
    }
}

/// Whether a row is the line before the tasks.
fn is_mark(row: &Row) -> bool
    ensures { result ≡ is_mark row.now }
{
    is_headed(row.fields.as_slice(), b"-----Related Tasks-----")
}

/// Whether a row below a task says more of it, and isn't a task itself.
fn is_detail(row: &Row) -> bool
    ensures { result ≡ is_detail row.now }
{
    let fields = row.fields.as_slice();
    is_headed(fields, b"Options")
        || begins_with(fields, b"ObsZone=")
        || begins_with(fields, b"STARTS=")
        || begins_with(fields, b"Point=")
        || begins_with(fields, b"Version=")
}

/// Where the line before the tasks stands.
fn mark_at(rows: &[Row]) -> Option<usize>
    ensures { result ≡ position is_mark rows.now }
{
    rows.iter().position(|row| is_mark(row))
}

/// The rows before the line `-----Related Tasks-----`, and those below it.
pub fn split_at_mark(rows: &[Row]) -> (&[Row], &[Row])
    ensures before { result.0.now ≡ waypoint_rows rows.now }
    ensures behind { result.1.now ≡ task_rows rows.now }
{
    match mark_at(rows) {
        Some(at) => (&rows[..at], &rows[at + 1..]),
        None => (rows, &[]),
    }
}

/// The rows from the n-th task on, counted from 0; none where there are no more tasks.
fn from_task(rows: &[Row], n: u32) -> &[Row]
    ensures { result.now ≡ from_task n rows.now }
{
    let mut left = n;
    let mut rest = rows;
    'rows: while let Some((row, others)) = rest.split_first() {
        if !is_detail(row) {
            if left == 0 {
                return rest;
            }
            left -= 1;
        }
        rest = others;
    }
    rest
}

/// Where the next task stands.
fn next_task_at(rows: &[Row]) -> Option<usize>
    ensures { result ≡ position is_task rows.now }
{
    rows.iter().position(|row| !is_detail(row))
}

/// The rows before the next task.
fn details_of(rows: &[Row]) -> &[Row]
    ensures { result.now ≡ rows_before rows.now (position is_task rows.now) }
{
    match next_task_at(rows) {
        Some(end) => &rows[..end],
        None => rows,
    }
}

/// The row of the n-th task, counted from 0, and those below it that say more of it.
fn task_at(rows: &[Row], n: u32) -> Option<(&Row, &[Row])>
    ensures { option_map (λ task. (task.0.now, task.1.now)) result ≡ task_at n rows.now }
{
    match from_task(rows, n) {
        [row, others @ ..] => Some((row, details_of(others))),
        [] => None,
    }
}

/// The only task.
fn only_task(rows: &[Row]) -> Result<(&Row, &[Row]), CupError>
    ensures ok { IfOk result (λ task.
        only (task_at 0 rows.now) (task_at 1 rows.now) ≡ Ok (task.0.now, task.1.now)) }
    ensures refused { IfErr result (λ e.
        only (task_at 0 rows.now) (task_at 1 rows.now) ≡ Err e) }
{
    match task_at(rows, 0) {
        None => Err(CupError::NoTask),
        Some(task) => match task_at(rows, 1) {
            Some(_) => Err(CupError::Several),
            None => Ok(task),
        },
    }
}

/// The task of a number, counted from 1.
fn numbered_task(rows: &[Row], number: u32) -> Result<(&Row, &[Row]), CupError>
    requires { 1 ≤ number }
    ensures ok { IfOk result (λ task.
        numbered (task_at (number - 1) rows.now) ≡ Ok (task.0.now, task.1.now)) }
    ensures refused { IfErr result (λ e. numbered (task_at (number - 1) rows.now) ≡ Err e) }
{
    match task_at(rows, number - 1) {
        Some(task) => Ok(task),
        None => Err(CupError::NoSuchTask),
    }
}

/// The task of a number, from 1 on, or the only one.
pub fn choose(rows: &[Row], which: Option<u32>) -> Result<(&Row, &[Row]), CupError>
    ensures ok { IfOk result (λ task. choice which rows.now ≡ Ok (task.0.now, task.1.now)) }
    ensures refused { IfErr result (λ e. choice which rows.now ≡ Err e) }
{
    match which {
        None => only_task(rows),
        Some(number) => {
            if number == 0 {
                return Err(CupError::NoSuchTask);
            }
            numbered_task(rows, number)
        }
    }
}
