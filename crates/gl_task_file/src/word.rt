ghost use Rattle.std.specs.Prelude.{◌≡◌, option_map};
ghost use Rattle.toml.specs.View.{view};
ghost use Rattle.gl_task_file.specs.Values.{kind, kind_of, list_word, list_word_of};
ghost use Rattle.gl_task_file.specs.Code.Sections.{kind_word, asked_list};

use toml::Value;

/// The kind of a task, as its word says it.
#[derive(Clone, Copy, Debug, PartialEq, Eq)]
pub enum KindWord {
    Racing,
    Area,
}

/// A list that a task may ask for.
#[derive(Clone, Copy, Debug, PartialEq, Eq)]
pub enum ListWord {
    Free,
    Triangle,
}

#[tactic(auto, unfolding(crate::specs::Values::kind_of))]
fn kind_of(text: &str) -> Option<KindWord>
    ensures { option_map kind_word result ≡ kind_of text.now }
{
    if text == "racing" {
        Some(KindWord::Racing)
    } else if text == "area" {
        Some(KindWord::Area)
    } else {
        None
    }
}

/// The kind of a task that a value says.
pub fn kind(value: &Value) -> Option<KindWord>
    ensures { option_map kind_word result ≡ kind (view value.now) }
{
    kind_of(value.as_str()?)
}

#[tactic(auto, unfolding(crate::specs::Values::list_word_of))]
fn list_word_of(text: &str) -> Option<ListWord>
    ensures { option_map asked_list result ≡ list_word_of text.now }
{
    if text == "free" {
        Some(ListWord::Free)
    } else if text == "triangle" {
        Some(ListWord::Triangle)
    } else {
        None
    }
}

/// The list that a value asks for.
pub fn list_word(value: &Value) -> Option<ListWord>
    ensures { option_map asked_list result ≡ list_word (view value.now) }
{
    list_word_of(value.as_str()?)
}
