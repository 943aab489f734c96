ghost use Rattle.std.specs.Prelude.{◌≡◌, ◌<◌, option_map, option_and_then, map, Some, IfSome, IsTrue, not};
ghost use Rattle.gl_sphere.specs.declared.place.Grid.{Grid};
ghost use Rattle.std.specs.Ordering.{int_eq};
ghost use Rattle.toml.specs.Data.{as_table};
ghost use Rattle.toml.specs.View.{view, table_view};
ghost use Rattle.gl_task_file.specs.Keys.{list_of};
ghost use Rattle.gl_text.specs.Forms.{is_file_name, is_name, is_number};
ghost use Rattle.gl_task_file.specs.Places.{grid_of_text, is_same_point, other_point, place, place_away_from};
ghost use Rattle.gl_task.specs.SamePoint.{is_same_vector};
ghost use Rattle.gl_task_file.specs.Values.{whole, text_in_form, file_name, number, name};

use gl_sphere::{Grid, Vec3, read_place, vector};
use gl_text::{is_file_name, is_name, is_number};
use toml::{Table, Value};

/// The whole number of a value, where it is from `low` to `high`.
pub fn whole(value: &Value, low: u32, high: u32) -> Option<u32>
    ensures { result ≡ whole low high (view value.now) }
{
    let number = value.as_integer()?;
    if i64::from(low) <= number && number <= i64::from(high) {
        Some(number as u32)
    } else {
        None
    }
}

/// The text of a value, where it is the name of a file.
pub fn file_name(value: &Value) -> Option<&str>
    ensures value { option_map (λ text. text.now) result ≡ file_name (view value.now) }
    ensures form { IfSome result (λ text. IsTrue (is_file_name text.now)) }
{
    value.as_str().filter(|text| is_file_name(text))
}

/// The text of a value, where it is an entrant's number.
pub fn number(value: &Value) -> Option<&str>
    ensures value { option_map (λ text. text.now) result ≡ number (view value.now) }
    ensures form { IfSome result (λ text. IsTrue (is_number text.now)) }
{
    value.as_str().filter(|text| is_number(text))
}

/// The text of a value, where it is an entrant's name.
pub fn name(value: &Value) -> Option<&str>
    ensures value { option_map (λ text. text.now) result ≡ name (view value.now) }
    ensures form { IfSome result (λ text. IsTrue (is_name text.now)) }
{
    value.as_str().filter(|text| is_name(text))
}

/// The table of a value.
pub fn table(value: &Value) -> Option<&Table>
    ensures { option_map (λ table. table_view table.now) result ≡ as_table (view value.now) }
{
    value.as_table()
}

/// The values of the list of a value.
pub fn list(value: &Value) -> Option<&[Value]>
    ensures { option_map (λ list. map view list.now) result ≡ list_of (view value.now) }
{
    match value.as_array() {
        Some(values) => Some(values.as_slice()),
        None => None,
    }
}

/// The place of a text.
#[tactic(auto, unfolding(crate::specs::Places::grid_of_text))]
fn place_of(text: &str) -> Option<Grid>
    ensures { result ≡ grid_of_text text.now }
{
    read_place(text.as_bytes())
}

/// The place of a value.
pub fn place(value: &Value) -> Option<Grid>
    ensures { result ≡ place (view value.now) }
{
    place_of(value.as_str()?)
}

/// Whether two components of a vector are the same.
fn is_same(a: i32, b: i32) -> bool
    ensures { result ≡ int_eq a b }
{
    a.cmp(&b).is_eq()
}

/// Whether two points are one.
#[tactic(auto, unfolding(gl_task::specs::SamePoint::is_same_vector))]
fn is_same_vector(a: Vec3, b: Vec3) -> bool
    ensures { result ≡ is_same_vector a b }
{
    if !is_same(a.x, b.x) {
        return false;
    }
    if !is_same(a.y, b.y) {
        return false;
    }
    is_same(a.z, b.z)
}

/// Whether two places are one point of the sphere.
fn is_same_point(a: Grid, b: Grid) -> bool
    ensures { result ≡ is_same_point a b }
{
    is_same_vector(vector(a), vector(b))
}

/// A place, where it is another point than the first.
#[tactic(auto, unfolding(crate::specs::Places::other_point))]
fn other_point(from: Grid, to: Grid) -> Option<Grid>
    ensures point { result ≡ other_point from to }
    ensures apart { IfSome result (λ other. IsTrue (not (is_same_point from other))) }
{
    if is_same_point(from, to) {
        None
    } else {
        Some(to)
    }
}

/// The place of a value, where it is another point than `from`.
pub fn place_away_from(from: Grid, value: &Value) -> Option<Grid>
    ensures point { result ≡ place_away_from (Some from) (view value.now) }
    ensures apart { IfSome result (λ other. IsTrue (not (is_same_point from other))) }
{
    other_point(from, place(value)?)
}
