ghost use Rattle.std.specs.Prelude.{◌≡◌, ◌==◌, ◌++◌, OnOk, option_map, position};
ghost use Rattle.gl_cup.specs.Pair.{are_once, behind_key, foreign_key, has_key, is_foreign, is_key, is_no_altitude, is_nothing};
ghost use Rattle.gl_cup.specs.Pair.{is_passed, key_of, length_behind, passed_by, said, value_of};
ghost use Rattle.gl_text.specs.Forms.{is_text};
ghost use Rattle.std.specs.List.{find, flat_map, list_any};
ghost use Rattle.std.specs.Str.{byte};

use crate::decimal::read_radius;
use crate::field::Field;
use std::alloc::{AllocError, Global};

/// Where the first `=` of a field stands.
fn equals_at(field: &[u8]) -> Option<usize>
    ensures { result ≡ position (λ c. c == byte "=") field.now }
{
    field.iter().position(|byte| *byte == b'=')
}

/// What stands before the first `=` of a field.
fn key_of(field: &[u8]) -> &[u8]
    ensures { result.now ≡ key_of field.now }
{
    match equals_at(field) {
        Some(end) => &field[..end],
        None => field,
    }
}

/// The first field with a key.
fn field_with<'a>(fields: &'a [Field], key: &[u8]) -> Option<&'a Field>
    ensures { option_map (λ field. field.now) result
        ≡ find (λ field. is_text (key_of field) key.now) fields.now }
{
    fields.iter().find(|field| key_of(field.as_slice()) == key)
}

/// What stands behind a key and the byte after it.
fn behind_key<'a>(field: &'a [u8], key: &[u8]) -> Option<&'a [u8]>
    ensures { option_map (λ value. value.now) result ≡ behind_key key.now field.now }
{
    if key.len() < field.len() {
        Some(&field[key.len() + 1..])
    } else {
        None
    }
}

/// What the first field with a key says.
fn value_of<'a>(fields: &'a [Field], key: &[u8]) -> Option<&'a [u8]>
    ensures { option_map (λ value. value.now) result ≡ value_of key.now fields.now }
{
    behind_key(field_with(fields, key)?.as_slice(), key)
}

/// What the first field with a key says, or what stands for it where it is left out.
pub fn said<'a>(fields: &'a [Field], key: &[u8], left_out: &'static [u8]) -> &'a [u8]
    ensures { result.now ≡ said key.now left_out.now fields.now }
{
    match value_of(fields, key) {
        Some(value) => value,
        None => left_out,
    }
}

/// Which keys the fields of a line below a task may have.
#[derive(Clone, Copy, Debug, PartialEq, Eq)]
pub enum Keys {
    /// Those of the line of options.
    Options,
    /// Those of a zone's line.
    Zone,
    /// Any, on a line that says nothing of the task.
    Any,
    /// None, on a line that can't be used.
    None,
}

/// Whether two texts are the same.
pub fn is_text(one: &[u8], other: &[u8]) -> bool
    ensures { result ≡ is_text one.now other.now }
{
    one == other
}

/// The keys of the line of options. Those from `WpDis` on are passed over: there are other rules of
/// scoring here.
const OPTIONS_KEYS: [&[u8]; 12] = [
    b"Options",
    b"NoStart",
    b"TaskTime",
    b"RandomOrder",
    b"WpDis",
    b"NearDis",
    b"NearAlt",
    b"MinDis",
    b"MaxPts",
    b"BeforePts",
    b"AfterPts",
    b"Bonus",
];

/// The keys of a zone's line. `Move` and `Reduce` are passed over.
const ZONE_KEYS: [&[u8]; 11] = [
    b"ObsZone", b"Style", b"R1", b"A1", b"R2", b"A2", b"A12", b"Line", b"AAT", b"Move", b"Reduce",
];

/// Whether a key is one of some.
fn is_among(known: &[&[u8]], key: &[u8]) -> bool
    ensures { result ≡ list_any (λ one. is_text one.now key.now) known.now }
{
    known.iter().any(|one| is_text(one, key))
}

/// Whether a key is one of those that a line may have.
fn is_key(keys: Keys, key: &[u8]) -> bool
    ensures { result ≡ is_key keys key.now }
{
    match keys {
        Keys::Options => is_among(&OPTIONS_KEYS, key),
        Keys::Zone => is_among(&ZONE_KEYS, key),
        Keys::Any => true,
        Keys::None => false,
    }
}

/// The length that stands behind a key.
fn length_behind(field: &[u8], key: &[u8]) -> Option<u32>
    ensures { result ≡ length_behind key.now field.now }
{
    read_radius(behind_key(field, key)?)
}

/// Whether a field says that there is no greatest altitude.
fn is_no_altitude(field: &[u8]) -> bool
    ensures { result ≡ is_no_altitude field.now }
{
    is_text(key_of(field), b"MaxAlt") && length_behind(field, b"MaxAlt") == Some(0)
}

/// Whether a field has a further key whose value changes nothing.
fn is_nothing(field: &[u8]) -> bool
    ensures { result ≡ is_nothing field.now }
{
    is_no_altitude(field) || is_text(field, b"SpeedStyle=0")
}

/// Whether a field has a key that a line of this kind can't have.
fn is_foreign(keys: Keys, field: &[u8]) -> bool
    ensures { result ≡ is_foreign keys field.now }
{
    !is_key(keys, key_of(field)) && !is_nothing(field)
}

/// The key of the first field that has one which the line can't have.
pub fn foreign_key(keys: Keys, fields: &[Field]) -> Option<&[u8]>
    ensures { option_map (λ key. key.now) result ≡ foreign_key keys fields.now }
{
    let field = fields
        .iter()
        .find(|field| is_foreign(keys, field.as_slice()))?;
    Some(key_of(field.as_slice()))
}

/// Whether one of some fields has a key.
fn has_key(fields: &[Field], key: &[u8]) -> bool
    ensures { result ≡ list_any (has_key key.now) fields.now }
{
    fields
        .iter()
        .any(|field| is_text(key_of(field.as_slice()), key))
}

/// Whether the key of each field comes once.
pub fn are_once(fields: &[Field]) -> bool
    ensures { result ≡ are_once fields.now }
{
    let mut rest = fields;
    'fields: while let Some((field, others)) = rest.split_first() {
        if has_key(others, key_of(field.as_slice())) {
            return false;
        }
        rest = others;
    }
    true
}

/// A key that is passed over, and its line.
#[derive(Debug, Drop)]
pub struct PassedKey {
    pub line: u64,
    pub key: Field,
}

/// Whether a field of a line is passed over, and the scorer is told so.
fn is_passed(keys: Keys, field: &[u8]) -> bool
    ensures { result ≡ is_passed keys field.now }
{
    match keys {
        Keys::Any => true,
        _ => is_nothing(field),
    }
}

/// Appends the key of a field, if it is passed over.
fn push_passed(
    alloc: Global,
    passed: &mut Vec<PassedKey>,
    keys: Keys,
    line: u64,
    field: &[u8],
) -> Result<(), AllocError>
    ensures { OnOk result
        (passed.new.items ≡ passed.old.items ++ passed_by keys line field.now) }
{
    if !is_passed(keys, field) {
        return Ok(());
    }
    let key = Field::from_slice(alloc, key_of(field))?;
    passed.push(PassedKey { line, key })?;
    Ok(())
}

/// Appends the keys of fields that are passed over.
pub fn push_all_passed(
    alloc: Global,
    passed: &mut Vec<PassedKey>,
    keys: Keys,
    line: u64,
    fields: &[Field],
) -> Result<(), AllocError>
    ensures { OnOk result
        (passed.new.items ≡ passed.old.items ++ flat_map (passed_by keys line) fields.now) }
{
    'fields: for field in fields {
        push_passed(alloc, passed, keys, line, field.as_slice())?;
    }
    Ok(())
}
