ghost use Rattle.std.specs.Prelude.{◌≡◌, ◌≤◌, ◌≤ℤ◌, pos, not, None, Some, option_map, IfOk, IfErr, IfSome, IsTrue, OnOk, is_some, length, map};
ghost use Rattle.std.specs.Option.{ForSome};
ghost use Rattle.toml.specs.Data.{get_member, as_table};
ghost use Rattle.toml.specs.View.{view, table_view};
ghost use Rattle.gl_task_file.specs.declared.error.TaskError.TheVariants.{Missing};
ghost use Rattle.gl_text.specs.Forms.{is_file_name, is_name, is_number};
ghost use Rattle.gl_task_file.specs.Keys.{needed, optional, right_value, said, list_of, key_of, some_item, at_most};
ghost use Rattle.gl_task.specs.Limits.{first_day, last_day};
ghost use Rattle.gl_task_file.specs.Places.{is_same_point, place, place_away_from};
ghost use Rattle.gl_task_file.specs.Values.{day as date, file_name, kind, name as name_of, number, whole};
ghost use Rattle.gl_task_file.specs.Code.Sections.{kind_word};

use crate::day::day;
use crate::error::TaskError;
use crate::value;
use crate::word::{KindWord, kind};
use gl_sphere::Grid;
use gl_task::Key;
use toml::{Table, Value};

/// The key of a row that is in no list.
pub fn row(row: u32) -> Key
    ensures { result ≡ key_of row 0 0 }
{
    Key {
        row,
        item: 0,
        part: 0,
    }
}

/// The key of a row in an item of a list.
pub fn row_of_item(row: u32, item: u32) -> Key
    ensures { result ≡ key_of row item 0 }
{
    Key { row, item, part: 0 }
}

/// The value under a key.
pub fn value_at<'a>(table: &'a Table, name: &str) -> Option<&'a Value>
    ensures { option_map (λ value. view value.now) result
        ≡ get_member name.now (table_view table.now) }
{
    table.get(name)
}

/// The value under a key that has to be there.
pub fn needed<'a>(table: &'a Table, name: &str, key: Key) -> Result<&'a Value, TaskError>
    ensures ok { IfOk result (λ value. get_member name.now (table_view table.now)
        ≡ Some (view value.now)) }
    ensures missing { IfErr result
        (λ e. (get_member name.now (table_view table.now) ≡ None) × (e ≡ Missing key)) }
{
    value_at(table, name).ok_or(TaskError::Missing(key))
}

/// The whole number from `low` to `high` under a key that has to be there.
pub fn needed_whole(
    table: &Table,
    name: &str,
    key: Key,
    low: u32,
    high: u32,
) -> Result<u32, TaskError>
    ensures ok { IfOk result (λ x. said name.now (whole low high) (table_view table.now) ≡ Some x) }
    ensures passes { IfOk result
        (λ x. needed key name.now (whole low high) (table_view table.now) ≡ None) }
    ensures refused { IfErr result
        (λ e. needed key name.now (whole low high) (table_view table.now) ≡ Some e) }
    ensures range { IfOk result (λ x. (low ≤ x) × (x ≤ high)) }
{
    let value = needed(table, name, key)?;
    value::whole(value, low, high).ok_or(TaskError::Value(key))
}

/// The whole number from `low` to `high` under a key, if it is there.
pub fn optional_whole(
    table: &Table,
    name: &str,
    key: Key,
    low: u32,
    high: u32,
) -> Result<Option<u32>, TaskError>
    ensures ok { IfOk result
        (λ found. said name.now (whole low high) (table_view table.now) ≡ found) }
    ensures there { IfOk result
        (λ found. is_some (get_member name.now (table_view table.now)) ≡ is_some found) }
    ensures passes { IfOk result
        (λ found. optional key name.now (whole low high) (table_view table.now) ≡ None) }
    ensures refused { IfErr result
        (λ e. optional key name.now (whole low high) (table_view table.now) ≡ Some e) }
    ensures range { IfOk result (λ found. ForSome found (λ x. (low ≤ x) × (x ≤ high))) }
{
    match value_at(table, name) {
        Some(value) => Ok(Some(value::whole(value, low, high).ok_or(TaskError::Value(key))?)),
        None => Ok(None),
    }
}

/// The place under a key that has to be there.
pub fn needed_place(table: &Table, name: &str, key: Key) -> Result<Grid, TaskError>
    ensures ok { IfOk result (λ x. said name.now place (table_view table.now) ≡ Some x) }
    ensures passes { IfOk result
        (λ x. needed key name.now place (table_view table.now) ≡ None) }
    ensures refused { IfErr result
        (λ e. needed key name.now place (table_view table.now) ≡ Some e) }
{
    let value = needed(table, name, key)?;
    value::place(value).ok_or(TaskError::Value(key))
}

/// The place, which is another point than `from`, under a key that has to be there.
pub fn needed_place_away_from(
    table: &Table,
    name: &str,
    key: Key,
    from: Grid,
) -> Result<Grid, TaskError>
    ensures ok { IfOk result (λ x. said name.now (place_away_from (Some from))
        (table_view table.now) ≡ Some x) }
    ensures passes { IfOk result
        (λ x. needed key name.now (place_away_from (Some from)) (table_view table.now) ≡ None) }
    ensures refused { IfErr result
        (λ e. needed key name.now (place_away_from (Some from)) (table_view table.now) ≡ Some e) }
    ensures apart { IfOk result (λ x. IsTrue (not (is_same_point from x))) }
{
    let value = needed(table, name, key)?;
    value::place_away_from(from, value).ok_or(TaskError::Value(key))
}

/// The table under a key that has to be there.
pub fn needed_table<'a>(table: &'a Table, name: &str, key: Key) -> Result<&'a Table, TaskError>
    ensures ok { IfOk result (λ x. said name.now as_table (table_view table.now)
        ≡ Some (table_view x.now)) }
    ensures passes { IfOk result
        (λ x. needed key name.now as_table (table_view table.now) ≡ None) }
    ensures refused { IfErr result
        (λ e. needed key name.now as_table (table_view table.now) ≡ Some e) }
{
    let value = needed(table, name, key)?;
    value::table(value).ok_or(TaskError::Value(key))
}

/// The table under a key, if it is there.
pub fn optional_table<'a>(
    table: &'a Table,
    name: &str,
    key: Key,
) -> Result<Option<&'a Table>, TaskError>
    ensures ok { IfOk result
        (λ found. said name.now as_table (table_view table.now)
        ≡ option_map (λ x. table_view x.now) found) }
    ensures there { IfOk result
        (λ found. is_some (get_member name.now (table_view table.now)) ≡ is_some found) }
    ensures passes { IfOk result
        (λ found. optional key name.now as_table (table_view table.now) ≡ None) }
    ensures refused { IfErr result
        (λ e. optional key name.now as_table (table_view table.now) ≡ Some e) }
{
    match value_at(table, name) {
        Some(value) => Ok(Some(value::table(value).ok_or(TaskError::Value(key))?)),
        None => Ok(None),
    }
}

/// The values of the list under a key that has to be there.
pub fn needed_list<'a>(table: &'a Table, name: &str, key: Key) -> Result<&'a [Value], TaskError>
    ensures ok { IfOk result (λ x. said name.now list_of (table_view table.now)
        ≡ Some (map view x.now)) }
    ensures passes { IfOk result
        (λ x. needed key name.now list_of (table_view table.now) ≡ None) }
    ensures refused { IfErr result
        (λ e. needed key name.now list_of (table_view table.now) ≡ Some e) }
{
    let value = needed(table, name, key)?;
    value::list(value).ok_or(TaskError::Value(key))
}

/// The values of the list under a key, if it is there.
pub fn optional_list<'a>(
    table: &'a Table,
    name: &str,
    key: Key,
) -> Result<Option<&'a [Value]>, TaskError>
    ensures ok { IfOk result
        (λ found. said name.now list_of (table_view table.now)
        ≡ option_map (λ x. map view x.now) found) }
    ensures there { IfOk result
        (λ found. is_some (get_member name.now (table_view table.now)) ≡ is_some found) }
    ensures passes { IfOk result
        (λ found. optional key name.now list_of (table_view table.now) ≡ None) }
    ensures refused { IfErr result
        (λ e. optional key name.now list_of (table_view table.now) ≡ Some e) }
{
    match value_at(table, name) {
        Some(value) => Ok(Some(value::list(value).ok_or(TaskError::Value(key))?)),
        None => Ok(None),
    }
}

/// The day under a key that has to be there.
pub fn needed_day(table: &Table, name: &str, key: Key) -> Result<i32, TaskError>
    ensures ok { IfOk result (λ x. said name.now date (table_view table.now) ≡ Some x) }
    ensures passes { IfOk result
        (λ x. needed key name.now date (table_view table.now) ≡ None) }
    ensures refused { IfErr result
        (λ e. needed key name.now date (table_view table.now) ≡ Some e) }
    ensures range { IfOk result (λ x. (pos first_day ≤ℤ x) × (x ≤ℤ pos last_day)) }
{
    let value = needed(table, name, key)?;
    day(value).ok_or(TaskError::Value(key))
}

/// The kind of the task under a key that has to be there.
pub fn needed_kind(table: &Table, name: &str, key: Key) -> Result<KindWord, TaskError>
    ensures ok { IfOk result (λ x. said name.now kind (table_view table.now) ≡ Some (kind_word x)) }
    ensures passes { IfOk result
        (λ x. needed key name.now kind (table_view table.now) ≡ None) }
    ensures refused { IfErr result
        (λ e. needed key name.now kind (table_view table.now) ≡ Some e) }
{
    let value = needed(table, name, key)?;
    kind(value).ok_or(TaskError::Value(key))
}

/// The name of a file under a key that has to be there.
pub fn needed_file_name<'a>(table: &'a Table, name: &str, key: Key) -> Result<&'a str, TaskError>
    ensures ok { IfOk result (λ x. said name.now file_name (table_view table.now) ≡ Some x.now) }
    ensures passes { IfOk result
        (λ x. needed key name.now file_name (table_view table.now) ≡ None) }
    ensures refused { IfErr result
        (λ e. needed key name.now file_name (table_view table.now) ≡ Some e) }
    ensures form { IfOk result (λ x. IsTrue (is_file_name x.now)) }
{
    let value = needed(table, name, key)?;
    value::file_name(value).ok_or(TaskError::Value(key))
}

/// The number of an entrant under a key that has to be there.
pub fn needed_number<'a>(table: &'a Table, name: &str, key: Key) -> Result<&'a str, TaskError>
    ensures ok { IfOk result (λ x. said name.now number (table_view table.now) ≡ Some x.now) }
    ensures passes { IfOk result
        (λ x. needed key name.now number (table_view table.now) ≡ None) }
    ensures refused { IfErr result
        (λ e. needed key name.now number (table_view table.now) ≡ Some e) }
    ensures form { IfOk result (λ x. IsTrue (is_number x.now)) }
{
    let value = needed(table, name, key)?;
    value::number(value).ok_or(TaskError::Value(key))
}

/// The name of an entrant under a key that has to be there.
pub fn needed_name<'a>(table: &'a Table, name: &str, key: Key) -> Result<&'a str, TaskError>
    ensures ok { IfOk result (λ x. said name.now name_of (table_view table.now) ≡ Some x.now) }
    ensures passes { IfOk result
        (λ x. needed key name.now name_of (table_view table.now) ≡ None) }
    ensures refused { IfErr result
        (λ e. needed key name.now name_of (table_view table.now) ≡ Some e) }
    ensures form { IfOk result (λ x. IsTrue (is_name x.now)) }
{
    let value = needed(table, name, key)?;
    value::name(value).ok_or(TaskError::Value(key))
}

/// The name of a file under a key, if it is there.
pub fn optional_file_name<'a>(
    table: &'a Table,
    name: &str,
    key: Key,
) -> Result<Option<&'a str>, TaskError>
    ensures ok { IfOk result
        (λ found. said name.now file_name (table_view table.now) ≡ option_map (λ x. x.now) found) }
    ensures passes { IfOk result
        (λ found. optional key name.now file_name (table_view table.now) ≡ None) }
    ensures refused { IfErr result
        (λ e. optional key name.now file_name (table_view table.now) ≡ Some e) }
    ensures form { IfOk result (λ found. IfSome found (λ x. IsTrue (is_file_name x.now))) }
{
    match value_at(table, name) {
        Some(value) => Ok(Some(value::file_name(value).ok_or(TaskError::Value(key))?)),
        None => Ok(None),
    }
}

/// The table that an item of a list is.
pub fn item_table<'a>(value: &'a Value, key: Key) -> Result<&'a Table, TaskError>
    ensures ok { IfOk result (λ table. as_table (view value.now) ≡ Some (table_view table.now)) }
    ensures passes { IfOk result (λ table. right_value key (as_table (view value.now)) ≡ None) }
    ensures refused { IfErr result (λ e. right_value key (as_table (view value.now)) ≡ Some e) }
{
    value::table(value).ok_or(TaskError::Value(key))
}

/// Tests that a needed list has an item.
pub fn some_item(values: &[Value], key: Key) -> Result<(), TaskError>
    ensures there { OnOk result (1 ≤ length values.now) }
    ensures passes { OnOk result (some_item key (map view values.now) ≡ None) }
    ensures refused { IfErr result (λ e. some_item key (map view values.now) ≡ Some e) }
{
    if values.is_empty() {
        return Err(TaskError::Missing(key));
    }
    Ok(())
}

/// Tests that a list has at most so many items.
pub fn at_most(values: &[Value], key: Key, most: usize) -> Result<(), TaskError>
    ensures few { OnOk result (length values.now ≤ most) }
    ensures passes { OnOk result (at_most key most (map view values.now) ≡ None) }
    ensures refused { IfErr result (λ e. at_most key most (map view values.now) ≡ Some e) }
{
    if most < values.len() {
        return Err(TaskError::TooMany(key));
    }
    Ok(())
}
