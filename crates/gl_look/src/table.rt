ghost use Rattle.std.specs.Prelude.{◌≡◌, option_map, is_some, map};
ghost use Rattle.std.specs.Option.{option_and_then};
ghost use Rattle.toml.specs.Data.{as_str, as_table, get_member};
ghost use Rattle.toml.specs.View.{table_view, view};
ghost use Rattle.gl_task_file.specs.Keys.{list_at, list_of, said};
ghost use Rattle.gl_look.specs.Meaning.{has, says};

use toml::{Table, Value};

/// The value under a key.
pub fn value_at<'a>(table: &'a Table, name: &str) -> Option<&'a Value>
    ensures { option_map (λ value. view value.now) result
        ≡ get_member name.now (table_view table.now) }
{
    table.get(name)
}

/// Whether a table has a key.
pub fn has(table: &Table, name: &str) -> bool
    ensures { result ≡ has name.now (table_view table.now) }
{
    value_at(table, name).is_some()
}

/// The text under a key.
pub fn text_at<'a>(table: &'a Table, name: &str) -> Option<&'a str>
    ensures { option_map (λ text. text.now) result
        ≡ option_and_then as_str (get_member name.now (table_view table.now)) }
{
    value_at(table, name)?.as_str()
}

/// Whether a table has a text under a key.
pub fn says(table: &Table, name: &str, text: &str) -> bool
    ensures { result ≡ says name.now text.now (table_view table.now) }
{
    match text_at(table, name) {
        Some(said) => said == text,
        None => false,
    }
}

/// The values of a list.
fn list(value: &Value) -> Option<&[Value]>
    ensures { option_map (λ list. map view list.now) result ≡ list_of (view value.now) }
{
    match value.as_array() {
        Some(values) => Some(values.as_slice()),
        None => None,
    }
}

/// The values of the list under a key; none if there is no list.
pub fn list_under<'a>(table: &'a Table, name: &str) -> &'a [Value]
    ensures { map view result.now ≡ list_at name.now (table_view table.now) }
{
    match value_at(table, name) {
        Some(value) => list(value).unwrap_or(&[]),
        None => &[],
    }
}

/// The table under a key.
pub fn table_under<'a>(table: &'a Table, name: &str) -> Option<&'a Table>
    ensures { option_map (λ found. table_view found.now) result
        ≡ said name.now as_table (table_view table.now) }
{
    value_at(table, name)?.as_table()
}
