ghost use Rattle.std.specs.Prelude.{◌≡◌, ◌++◌, OnOk, map, option_map, codes};
ghost use Rattle.toml.specs.Data.{as_table};
ghost use Rattle.toml.specs.View.{table_view, view};
ghost use Rattle.gl_task_file.specs.Keys.{list_at, list_of, said, table_at, table_of};
ghost use Rattle.gl_look.specs.Keys.{each_told, item_told, key_told, keys_told, place_of, table_told, tables_told, zone_told};

use crate::key_words::words_of_key;
use crate::meaning::slip_of_key;
use crate::remarks::Remarks;
use crate::scan::Scan;
use crate::table::{list_under, table_under};
use crate::told::{Place, Section, Slip, Subject, Told};
use gl_desk::Name;
use std::alloc::{AllocError, Global};
use toml::{Table, Value};

/// The table of an item in a list, or of a part of a zone.
fn place_of(section: Section, item: usize, n: usize) -> Place
    ensures { result ≡ place_of section item n }
{
    match section {
        Section::Part => Place {
            section,
            item,
            part: n,
        },
        _ => Place {
            section,
            item: n,
            part: 0,
        },
    }
}

/// Remarks what is wrong with a key of a table, if something is.
fn look_at_key(
    alloc: Global,
    remarks: &mut Remarks,
    scan: Scan<'_>,
    place: Place,
    table: &Table,
    key: &str,
) -> Result<(), AllocError>
    ensures { OnOk result
        (remarks.new ≡ remarks.old ++ key_told place (table_view table.now) key.now) }
{
    match slip_of_key(place.section, key, table) {
        Some(slip) => {
            let told = Told {
                subject: Subject::Key(place, Name::from_text(alloc, key)?),
                slip,
            };
            let head = scan.head(alloc, scan.line_of_key(place, key))?;
            remarks.push(told, head, words_of_key(alloc, place.section, key, slip)?)
        }
        None => Ok(()),
    }
}

/// Remarks what is wrong with the keys of a table.
fn look_at_keys(
    alloc: Global,
    remarks: &mut Remarks,
    scan: Scan<'_>,
    place: Place,
    table: &Table,
) -> Result<(), AllocError>
    ensures { OnOk result (remarks.new ≡ remarks.old ++ keys_told place (table_view table.now)) }
{
    'keys: for key in table.keys() {
        look_at_key(alloc, remarks, scan, place, table, key.as_str())?;
    }
    Ok(())
}

/// Remarks what is wrong with the keys of a value, if it is a table.
fn look_at_value(
    alloc: Global,
    remarks: &mut Remarks,
    scan: Scan<'_>,
    place: Place,
    value: &Value,
) -> Result<(), AllocError>
    ensures { OnOk result
        (remarks.new ≡ remarks.old ++ keys_told place (table_of (view value.now))) }
{
    match value.as_table() {
        Some(table) => look_at_keys(alloc, remarks, scan, place, table),
        None => Ok(()),
    }
}

/// Remarks what is wrong with the keys of the items of a list.
fn look_at_items(
    alloc: Global,
    remarks: &mut Remarks,
    scan: Scan<'_>,
    section: Section,
    item: usize,
    values: &[Value],
) -> Result<(), AllocError>
    ensures { OnOk result (remarks.new
        ≡ remarks.old ++ each_told (item_told section item) 1 (map view values.now)) }
{
    let mut n: usize = 0;
    let mut rest = values;
    'items: while let Some((value, others)) = rest.split_first() {
        n += 1;
        look_at_value(alloc, remarks, scan, place_of(section, item, n), value)?;
        rest = others;
    }
    Ok(())
}

/// Remarks what is wrong with the keys of a zone and of its parts.
fn look_at_zone(
    alloc: Global,
    remarks: &mut Remarks,
    scan: Scan<'_>,
    n: usize,
    value: &Value,
) -> Result<(), AllocError>
    ensures { OnOk result (remarks.new ≡ remarks.old ++ zone_told n (view value.now)) }
{
    match value.as_table() {
        Some(table) => {
            look_at_keys(alloc, remarks, scan, place_of(Section::Zone, 0, n), table)?;
            look_at_items(
                alloc,
                remarks,
                scan,
                Section::Part,
                n,
                list_under(table, "part"),
            )
        }
        None => Ok(()),
    }
}

/// Remarks what is wrong with the keys of the zones.
fn look_at_zones(
    alloc: Global,
    remarks: &mut Remarks,
    scan: Scan<'_>,
    values: &[Value],
) -> Result<(), AllocError>
    ensures { OnOk result
        (remarks.new ≡ remarks.old ++ each_told zone_told 1 (map view values.now)) }
{
    let mut n: usize = 0;
    let mut rest = values;
    'zones: while let Some((value, others)) = rest.split_first() {
        n += 1;
        look_at_zone(alloc, remarks, scan, n, value)?;
        rest = others;
    }
    Ok(())
}

/// Remarks what is wrong with the keys of a section.
fn look_at_section(
    alloc: Global,
    remarks: &mut Remarks,
    scan: Scan<'_>,
    section: Section,
    name: &str,
    file: &Table,
) -> Result<(), AllocError>
    ensures { OnOk result
        (remarks.new ≡ remarks.old ++ table_told section name.now (table_view file.now)) }
{
    match table_under(file, name) {
        Some(table) => look_at_keys(alloc, remarks, scan, place_of(section, 0, 0), table),
        None => Ok(()),
    }
}

/// Remarks what is wrong with the keys of a task file.
#[tactic(auto, unfolding(crate::specs::Keys::tables_told))]
pub fn look_at_tables(
    alloc: Global,
    remarks: &mut Remarks,
    scan: Scan<'_>,
    file: &Table,
) -> Result<(), AllocError>
    ensures { OnOk result (remarks.new ≡ remarks.old ++ tables_told (table_view file.now)) }
{
    look_at_keys(alloc, remarks, scan, place_of(Section::Day, 0, 0), file)?;
    look_at_section(alloc, remarks, scan, Section::Start, "start", file)?;
    look_at_zones(alloc, remarks, scan, list_under(file, "zone"))?;
    look_at_section(alloc, remarks, scan, Section::Finish, "finish", file)?;
    look_at_section(alloc, remarks, scan, Section::Rules, "rules", file)?;
    look_at_items(
        alloc,
        remarks,
        scan,
        Section::Entrant,
        0,
        list_under(file, "entrant"),
    )
}
