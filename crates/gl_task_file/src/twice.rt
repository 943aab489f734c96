ghost use Rattle.std.specs.Prelude.{◌≡◌, ◌≤◌, None, Some, length, map, option_map, OnOk, IfErr};
ghost use Rattle.std.specs.List.{list_any};
ghost use Rattle.gl_text.specs.Forms.{is_text};
ghost use Rattle.gl_task.specs.Numbers.{first_repeated};
ghost use Rattle.gl_task_file.specs.Twice.{twice_at};

use crate::error::TaskError;
use crate::key::row_of_item;
use gl_task::Entrant;

/// Whether one of the entrants has the number.
fn has_number(entrants: &[Entrant], number: &str) -> bool
    ensures { result ≡ list_any (λ entrant. is_text number.now entrant.number) entrants.now }
{
    entrants
        .iter()
        .any(|entrant| number == entrant.number.as_str())
}

/// The place, from 1 on, of the first entrant with the number of an earlier one.
fn first_repeated(entrants: &[Entrant]) -> Option<u32>
    requires { length entrants.now ≤ 200 }
    ensures { result ≡ first_repeated (map (λ entrant. entrant.number) entrants.now) }
{
    let mut n = 0;
    let mut rest = entrants;
    'numbers: while let Some((entrant, others)) = rest.split_first() {
        let before = &entrants[..n];
        n += 1;
        if has_number(before, entrant.number.as_str()) {
            return Some(n as u32);
        }
        rest = others;
    }
    None
}

/// Tests that no entrant has the number of an earlier one.
pub fn test_numbers(entrants: &[Entrant]) -> Result<(), TaskError>
    requires { length entrants.now ≤ 200 }
    ensures differ { OnOk result
        (first_repeated (map (λ entrant. entrant.number) entrants.now) ≡ None) }
    ensures passes { OnOk result
        (twice_at (first_repeated (map (λ entrant. entrant.number) entrants.now)) ≡ None) }
    ensures refused { IfErr result (λ e.
        twice_at (first_repeated (map (λ entrant. entrant.number) entrants.now)) ≡ Some e) }
{
    match first_repeated(entrants) {
        Some(n) => Err(TaskError::Twice(row_of_item(33, n))),
        None => Ok(()),
    }
}
