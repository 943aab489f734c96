ghost use Rattle.std.specs.Prelude.{◌≡◌, option_map};
ghost use Rattle.gl_look.specs.Words.{file_after, is_file, words_of};

use gl_desk::Name;
use gl_text::is_file_name;

/// The line for words of another form.
pub const USAGE: &str = "usage: look-over TASK\n";

/// Whether a word is the name of a file, and no option.
fn is_file(word: &Name) -> bool
    ensures { result ≡ is_file word.now }
{
    is_file_name(word.as_str()) && !word.as_str().as_bytes().starts_with(b"--")
}

/// The file behind a first word.
fn file_after<'a>(word: &Name, file: &'a Name) -> Option<&'a Name>
    ensures { option_map (λ file. file.now) result ≡ file_after word.now file.now }
{
    if word.as_str() == "look-over" && is_file(file) {
        Some(file)
    } else {
        None
    }
}

/// The task file that the words ask to look over.
pub fn read_words(words: &[Name]) -> Option<&Name>
    ensures { option_map (λ file. file.now) result ≡ words_of words.now }
{
    match words {
        [word, file] => file_after(word, file),
        _ => None,
    }
}
