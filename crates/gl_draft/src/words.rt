ghost use Rattle.std.specs.Prelude.{◌≡◌, option_map};
ghost use Rattle.gl_draft.specs.Code.{asked_by};
ghost use Rattle.gl_draft.specs.Words.{asked_of, is_file, number_in, pair_of, words_of};

use gl_desk::Name;
use gl_text::{is_file_name, read_digits};

/// The line for words of another form.
pub const USAGE: &str = "usage: TASK.CUP | TASK.CUP NUMBER | --late DAY.TOML\n";

/// What is asked of a file.
#[derive(Clone, Copy, Debug, PartialEq, Eq)]
pub enum Asks {
    /// A task file for its task, by the number, if there is one.
    Task(Option<u32>),
    /// The entrants of the recordings that it doesn't name.
    Late,
}

/// What the words ask for: the file, and what is asked of it.
#[derive(Clone, Copy, Debug)]
pub struct Words<'a> {
    pub file: &'a Name,
    pub asks: Asks,
}

/// The number of a task: one to six digits, the first of which isn't 0.
#[tactic(auto, unfolding(crate::specs::Words::number_in))]
fn number_in(word: &[u8]) -> Option<u32>
    ensures { result ≡ number_in word.now }
{
    if word.is_empty() || word.len() > 6 || word[0] == b'0' {
        return None;
    }
    read_digits(word)
}

/// Whether a word is the name of a file, and no option.
fn is_file(word: &Name) -> bool
    ensures { result ≡ is_file word.now }
{
    is_file_name(word.as_str()) && !word.as_str().as_bytes().starts_with(b"--")
}

/// A file and what is asked of it.
fn asked_of(asks: Asks, file: &Name) -> Option<Words<'_>>
    ensures { option_map asked_by result ≡ asked_of asks file.now }
{
    if is_file(file) {
        Some(Words { file, asks })
    } else {
        None
    }
}

/// A file and the number of its task.
fn read_pair<'a>(file: &'a Name, number: &Name) -> Option<Words<'a>>
    ensures { option_map asked_by result ≡ pair_of file.now number.now }
{
    if !is_file(file) {
        return None;
    }
    let task = number_in(number.as_str().as_bytes())?;
    Some(Words {
        file,
        asks: Asks::Task(Some(task)),
    })
}

/// What the words ask for, where they are of a form.
pub fn read_words(words: &[Name]) -> Option<Words<'_>>
    ensures { option_map asked_by result ≡ words_of words.now }
{
    match words {
        [file] => asked_of(Asks::Task(None), file),
        [word, other] => {
            if word.as_str() == "--late" {
                return asked_of(Asks::Late, other);
            }
            read_pair(word, other)
        }
        _ => None,
    }
}
