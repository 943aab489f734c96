ghost use Rattle.std.specs.Prelude.{◌≡◌, option_map, position, is_none, map};
ghost use Rattle.std.specs.Char.{to_ascii_lowercase};
ghost use Rattle.std.specs.List.{find, list_all};
ghost use Rattle.gl_sphere.specs.PlaceText.{place_of as pair_of};
ghost use Rattle.gl_text.specs.Forms.{is_text};
ghost use Rattle.gl_cup.specs.Waypoint.{agrees, columns_of, is_damaged, is_either, is_named, is_one_place, is_there, is_title, place_at, place_if, place_in, place_of};

use crate::angle::read_place;
use crate::field::Field;
use crate::row::Row;
use gl_sphere::Grid;

/// Where the columns of a waypoint stand.
#[derive(Clone, Copy, Debug)]
pub struct Columns {
    pub name: usize,
    pub lat: usize,
    pub lon: usize,
}

/// Whether the title of a column is a word, in small letters or capitals.
fn is_title(word: &[u8], field: &[u8]) -> bool
    requires { map to_ascii_lowercase word.now ≡ word.now }
    ensures { result ≡ is_title word.now field.now }
{
    field.eq_ignore_ascii_case(word)
}

/// Where the column stands that has one of two titles.
fn column_of(fields: &[Field], one: &[u8], other: &[u8]) -> Option<usize>
    requires one { map to_ascii_lowercase one.now ≡ one.now }
    requires other { map to_ascii_lowercase other.now ≡ other.now }
    ensures { result ≡ position (is_either one.now other.now) fields.now }
{
    fields.iter().position(|field| is_title(one, field.as_slice())
        || is_title(other, field.as_slice()))
}

/// The columns that a header names.
#[tactic(auto, unfolding(crate::specs::Waypoint::columns_of))]
pub fn read_columns(fields: &[Field]) -> Option<Columns>
    ensures { result ≡ columns_of fields.now }
{
    let name = column_of(fields, b"name", b"title")?;
    let lat = column_of(fields, b"lat", b"latitude")?;
    let lon = column_of(fields, b"lon", b"longitude")?;
    Some(Columns { name, lat, lon })
}

/// The place that the fields of a row say.
#[tactic(auto, unfolding(crate::specs::Waypoint::place_in))]
fn place_in(columns: &Columns, fields: &[Field]) -> Option<Grid>
    ensures { option_map pair_of result ≡ place_in columns.now fields.now }
{
    let lat = fields.get(columns.lat)?;
    let lon = fields.get(columns.lon)?;
    read_place(lat.as_slice(), lon.as_slice())
}

/// The place of a row. None of one that isn't whole.
fn place_at(columns: &Columns, row: &Row) -> Option<Grid>
    ensures { option_map pair_of result ≡ place_at columns.now row.now }
{
    if row.is_whole {
        place_in(columns, row.fields.as_slice())
    } else {
        None
    }
}

/// Whether a row is that of a waypoint with a name.
fn is_named(columns: &Columns, name: &[u8], row: &Row) -> bool
    ensures { result ≡ is_named columns.now name.now row.now }
{
    match row.fields.as_slice().get(columns.name) {
        Some(field) => field.as_slice() == name,
        None => false,
    }
}

/// Whether a row has a name, but no place.
fn is_damaged(columns: &Columns, name: &[u8], row: &Row) -> bool
    ensures { result ≡ is_damaged columns.now name.now row.now }
{
    is_named(columns, name, row) && place_at(columns, row).is_none()
}

/// The first row that has a name, but no place.
pub fn first_damaged<'a>(columns: &Columns, rows: &'a [Row], name: &[u8]) -> Option<&'a Row>
    ensures { option_map (λ row. row.now) result
        ≡ find (is_damaged columns.now name.now) rows.now }
{
    rows.iter().find(|row| is_damaged(columns, name, row))
}

/// The first row with a name.
fn first_named<'a>(columns: &Columns, rows: &'a [Row], name: &[u8]) -> Option<&'a Row>
    ensures { option_map (λ row. row.now) result
        ≡ find (is_named columns.now name.now) rows.now }
{
    rows.iter().find(|row| is_named(columns, name, row))
}

/// Whether two places are one.
fn is_one_place(a: Grid, b: Grid) -> bool
    ensures { result ≡ is_one_place (pair_of a) (pair_of b) }
{
    a.lat == b.lat && a.lon == b.lon
}

/// Whether a place is the one that is known.
fn is_there(place: Grid, other: Option<Grid>) -> bool
    ensures { result ≡ is_there (pair_of place) (option_map pair_of other) }
{
    match other {
        Some(other) => is_one_place(other, place),
        None => false,
    }
}

/// Whether a row has another name, or this place.
fn agrees(columns: &Columns, name: &[u8], place: Grid, row: &Row) -> bool
    ensures { result ≡ agrees columns.now name.now (pair_of place) row.now }
{
    !is_named(columns, name, row) || is_there(place, place_at(columns, row))
}

/// Whether each of some rows has another name, or this place.
fn all_agree(columns: &Columns, rows: &[Row], name: &[u8], place: Grid) -> bool
    ensures { result ≡ list_all (agrees columns.now name.now (pair_of place)) rows.now }
{
    rows.iter().all(|row| agrees(columns, name, place, row))
}

/// A place, where each of some rows has another name or this place.
fn place_if_agreed(columns: &Columns, rows: &[Row], name: &[u8], place: Grid) -> Option<Grid>
    ensures { option_map pair_of result ≡ place_if
        (list_all (agrees columns.now name.now (pair_of place)) rows.now) (pair_of place) }
{
    if all_agree(columns, rows, name, place) {
        Some(place)
    } else {
        None
    }
}

/// The place of the waypoints with a name. None where there is no such waypoint, and where two of
/// them have two places.
#[tactic(auto, unfolding(crate::specs::Waypoint::place_of))]
pub fn place_of(columns: &Columns, rows: &[Row], name: &[u8]) -> Option<Grid>
    ensures { option_map pair_of result ≡ place_of columns.now name.now rows.now }
{
    let row = first_named(columns, rows, name)?;
    let place = place_at(columns, row)?;
    place_if_agreed(columns, rows, name, place)
}
