ghost use Rattle.std.specs.Prelude.{◌≡◌, option_map};
ghost use Rattle.std.specs.List.{filter_map, list_all};
ghost use Rattle.gl_why.specs.Code.Questions.{question_seen};
ghost use Rattle.gl_why.specs.Words.{all_of, fixes_after, is_file, is_numeral, number_of, one_of, question_of, words_of};

use gl_desk::Name;
use gl_text::{is_file_name, is_number, read_u64};

/// The lines for words of another form.
pub const USAGE: &str = "usage: why TASK [NUMBER]\nusage: why fix FILE N ..\n";

/// The greatest number that a word may write.
const GREATEST_NUMBER: u64 = 999_999;

/// What the words ask for.
#[derive(Clone, Copy, Debug)]
pub enum Question<'a> {
    /// The reasons of all entrants of a task file.
    All(&'a Name),
    /// The reasons of the entrant with a number.
    One(&'a Name, &'a Name),
    /// The fixes of a file that have the numbers which these words write.
    Fixes(&'a Name, &'a [Name]),
}

/// Whether a word is the name of a file, and no option.
fn is_file(word: &Name) -> bool
    ensures { result ≡ is_file word.now }
{
    is_file_name(word.as_str()) && !word.as_str().as_bytes().starts_with(b"--")
}

/// The number that a word writes.
pub fn number_of(word: &Name) -> Option<u32>
    ensures { result ≡ number_of word.now }
{
    let number = read_u64(word.as_str().as_bytes())?;
    if number > GREATEST_NUMBER {
        return None;
    }
    Some(number as u32)
}

/// Whether a word writes a number.
fn is_numeral(word: &Name) -> bool
    ensures { result ≡ is_numeral word.now }
{
    number_of(word).is_some()
}

/// Whether each of some words writes a number.
fn are_numerals(words: &[Name]) -> bool
    ensures { result ≡ list_all is_numeral words.now }
{
    words.iter().all(|word| is_numeral(word))
}

/// What is asked of a file by some words that write numbers.
fn fixes_after<'a>(file: &'a Name, numbers: &'a [Name]) -> Option<Question<'a>>
    ensures { option_map question_seen result ≡ fixes_after file.now numbers.now }
{
    if is_file(file) && are_numerals(numbers) {
        Some(Question::Fixes(file, numbers))
    } else {
        None
    }
}

/// What is asked of all entrants of a task file.
fn all_of(file: &Name) -> Option<Question<'_>>
    ensures { option_map question_seen result ≡ all_of file.now }
{
    if is_file(file) {
        Some(Question::All(file))
    } else {
        None
    }
}

/// What is asked of the entrant with a number.
fn one_of<'a>(file: &'a Name, number: &'a Name) -> Option<Question<'a>>
    ensures { option_map question_seen result ≡ one_of file.now number.now }
{
    if is_file(file) && is_number(number.as_str()) {
        Some(Question::One(file, number))
    } else {
        None
    }
}

/// What is asked by the words behind the first one.
fn question_of(words: &[Name]) -> Option<Question<'_>>
    ensures { option_map question_seen result ≡ question_of words.now }
{
    match words {
        [file] => all_of(file),
        [file, number] => one_of(file, number),
        [word, file, numbers @ ..] if word.as_str() == "fix" => fixes_after(file, numbers),
        _ => None,
    }
}

/// What the words ask for.
pub fn read_words(words: &[Name]) -> Option<Question<'_>>
    ensures { option_map question_seen result ≡ words_of words.now }
{
    match words {
        [word, rest @ ..] if word.as_str() == "why" => question_of(rest),
        _ => None,
    }
}
