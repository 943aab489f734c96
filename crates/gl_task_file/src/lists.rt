ghost use Rattle.std.specs.Prelude.{◌≡◌, ◌≤◌, None, Some, IfOk, IfErr, OnOk, length, map, codes};
ghost use Rattle.std.specs.List.{list_any};
ghost use Rattle.toml.specs.View.{table_view, view};
ghost use Rattle.gl_task_file.specs.Keys.{each_item, first_failed, list_at, right_value};
ghost use Rattle.gl_task_file.specs.Meaning.{asks_free, asks_triangle, is_free, is_triangle};
ghost use Rattle.gl_task_file.specs.Tests.{lists_tests, word_tests};
ghost use Rattle.gl_task_file.specs.Values.{list_word as asked};

use crate::error::TaskError;
use crate::key::{at_most, optional_list, row, row_of_item};
use crate::limit::MOST_LISTS;
use crate::word::{ListWord, list_word};
use toml::{Table, Value};

/// The lists that a task asks for.
#[derive(Clone, Copy, Debug, PartialEq, Eq)]
pub struct Lists {
    pub free: bool,
    pub triangle: bool,
}

/// Whether a word asks for the free distance.
fn is_free(word: &Value) -> bool
    ensures { result ≡ is_free (asked (view word.now)) }
{
    match list_word(word) {
        Some(ListWord::Free) => true,
        Some(ListWord::Triangle) => false,
        None => false,
    }
}

/// Whether a word asks for the triangle.
fn is_triangle(word: &Value) -> bool
    ensures { result ≡ is_triangle (asked (view word.now)) }
{
    match list_word(word) {
        Some(ListWord::Free) => false,
        Some(ListWord::Triangle) => true,
        None => false,
    }
}

/// Tests that a value is one of the words.
#[tactic(auto, unfolding(crate::specs::Tests::word_tests))]
fn test_word(word: &Value, n: u32) -> Result<(), TaskError>
    ensures passes { OnOk result (first_failed (word_tests n (view word.now)) ≡ None) }
    ensures refused { IfErr result (λ e. first_failed (word_tests n (view word.now)) ≡ Some e) }
{
    match list_word(word) {
        Some(_) => Ok(()),
        None => Err(TaskError::Value(row_of_item(6, n))),
    }
}

/// Tests that the values are words.
#[tactic(auto, using(crate::proofs::TestLemmas::behind_all, crate::proofs::TestLemmas::before_all))]
fn test_words(values: &[Value]) -> Result<(), TaskError>
    requires { length values.now ≤ 2 }
    ensures passes { OnOk result
        (first_failed (each_item word_tests 1 (map view values.now)) ≡ None) }
    ensures refused { IfErr result
        (λ e. first_failed (each_item word_tests 1 (map view values.now)) ≡ Some e) }
{
    let mut n = 0;
    let mut rest = values;
    'words: while let Some((word, others)) = rest.split_first() {
        n += 1;
        test_word(word, n)?;
        rest = others;
    }
    Ok(())
}

/// Whether one of some words asks for the free distance.
fn any_free(words: &[Value]) -> bool
    ensures { result ≡ list_any (λ word. is_free (asked (view word))) words.now }
{
    words.iter().any(|word| is_free(word))
}

/// Whether one of some words asks for the triangle.
fn any_triangle(words: &[Value]) -> bool
    ensures { result ≡ list_any (λ word. is_triangle (asked (view word))) words.now }
{
    words.iter().any(|word| is_triangle(word))
}

/// The lists that words ask for.
fn asked_lists(words: &[Value]) -> Lists
    ensures free { result.free ≡ asks_free (map view words.now) }
    ensures triangle { result.triangle ≡ asks_triangle (map view words.now) }
{
    Lists {
        free: any_free(words),
        triangle: any_triangle(words),
    }
}

/// The lists that a task asks for.
#[tactic(auto, unfolding(crate::specs::Tests::lists_tests))]
pub fn read_lists(file: &Table) -> Result<Lists, TaskError>
    ensures free { IfOk result
        (λ lists. lists.free ≡ asks_free (list_at (codes "lists") (table_view file.now))) }
    ensures triangle { IfOk result
        (λ lists. lists.triangle ≡ asks_triangle (list_at (codes "lists") (table_view file.now))) }
    ensures passes { IfOk result
        (λ lists. first_failed (lists_tests (table_view file.now)) ≡ None) }
    ensures refused { IfErr result
        (λ e. first_failed (lists_tests (table_view file.now)) ≡ Some e) }
{
    match optional_list(file, "lists", row(6))? {
        Some(values) => {
            at_most(values, row(6), MOST_LISTS)?;
            test_words(values)?;
            Ok(asked_lists(values))
        }
        None => Ok(Lists {
            free: false,
            triangle: false,
        }),
    }
}
