ghost use Rattle.std.specs.Prelude.{◌≡◌, None, Some, IfOk, IfErr};
ghost use Rattle.gl_sphere.specs.declared.place.Grid.{Grid};
ghost use Rattle.toml.specs.View.{table_view, view};
ghost use Rattle.gl_task_file.specs.Keys.{first_failed, key_of};
ghost use Rattle.gl_task_file.specs.Meaning.{IsPart, IsSector};
ghost use Rattle.gl_task_file.specs.Tests.{part_tests, sector_tests};

use crate::error::TaskError;
use crate::key::{item_table, needed_whole, optional_whole};
use crate::limit::{GREATEST_LENGTH, GREATEST_RADIAL, METRE};
use gl_sphere::{Grid, east, north, vector};
use gl_task::Key;
use gl_zone::{Cylinder, Part, Sector};
use toml::{Table, Value};

/// The key of a row in a part of a zone.
fn row_of_part(row: u32, zone: u32, part: u32) -> Key
    ensures { result ≡ key_of row zone part }
{
    Key {
        row,
        item: zone,
        part,
    }
}

/// A sector of a zone with a centre.
fn read_sector(table: &Table, centre: Grid, zone: u32, part: u32) -> Result<Sector, TaskError>
    ensures ok { IfOk result (IsSector (Some centre) (table_view table.now)) }
    ensures passes { IfOk result
        (λ sector. first_failed (sector_tests zone part (table_view table.now)) ≡ None) }
    ensures refused { IfErr result
        (λ e. first_failed (sector_tests zone part (table_view table.now)) ≡ Some e) }
{
    let inner = optional_whole(
        table,
        "inner",
        row_of_part(17, zone, part),
        0,
        GREATEST_LENGTH,
    )?;
    let inner = inner.unwrap_or(0);
    let least = inner.max(1);
    let outer = needed_whole(
        table,
        "outer",
        row_of_part(18, zone, part),
        least,
        GREATEST_LENGTH,
    )?;
    let from = needed_whole(
        table,
        "from",
        row_of_part(19, zone, part),
        0,
        GREATEST_RADIAL,
    )?;
    let to = needed_whole(table, "to", row_of_part(20, zone, part), 0, GREATEST_RADIAL)?;
    Ok(Sector {
        centre: vector(centre),
        north: north(centre),
        east: east(centre),
        inner: u64::from(inner) * METRE,
        outer: u64::from(outer) * METRE,
        from,
        to,
    })
}

/// A part of a zone with a centre.
#[tactic(auto, unfolding(crate::specs::Tests::part_tests))]
pub fn read_part(value: &Value, centre: Grid, zone: u32, part: u32) -> Result<Part, TaskError>
    ensures ok { IfOk result (IsPart (Some centre) (view value.now)) }
    ensures passes { IfOk result
        (λ sector. first_failed (part_tests zone part (view value.now)) ≡ None) }
    ensures refused { IfErr result
        (λ e. first_failed (part_tests zone part (view value.now)) ≡ Some e) }
{
    let table = item_table(value, row_of_part(15, zone, part))?;
    match optional_whole(
        table,
        "radius",
        row_of_part(16, zone, part),
        1,
        GREATEST_LENGTH,
    )? {
        Some(radius) => Ok(Part::Cylinder(Cylinder {
            centre: vector(centre),
            radius: u64::from(radius) * METRE,
        })),
        None => Ok(Part::Sector(read_sector(table, centre, zone, part)?)),
    }
}
