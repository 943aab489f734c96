ghost use Rattle.std.specs.Prelude.{◌≡◌, ◌≢◌, ◌≤◌, None, Some, IfOk, IfErr, IsTrue, length, map, vec_len, codes};
ghost use Rattle.std.specs.List.{list_all};
ghost use Rattle.gl_sphere.specs.declared.place.Grid.{Grid};
ghost use Rattle.toml.specs.View.{table_view, view};
ghost use Rattle.gl_task_file.specs.declared.error.TaskError.TheVariants.{Memory};
ghost use Rattle.gl_task_file.specs.Keys.{each_item, first_failed, list_at};
ghost use Rattle.gl_task_file.specs.Meaning.{Each, IsPart, IsZone};
ghost use Rattle.gl_task.specs.Ranges.{is_round_its_centre};
ghost use Rattle.gl_task_file.specs.Tests.{part_tests, zone_tests, zones_tests};

use crate::error::TaskError;
use crate::item::{ReadItem, read_items};
use crate::key::{at_most, item_table, needed_list, needed_place, row, row_of_item, some_item};
use crate::limit::MOST_ZONES;
use crate::part::read_part;
use gl_sphere::{Grid, vector};
use gl_text::Items;
use gl_zone::{MOST_PARTS, Part, Zone};
use std::alloc::Global;
use toml::{Table, Value};

/// Reads the parts of a zone with a centre.
#[derive(Clone, Copy)]
struct PartReader {
    centre: Grid,
    zone: u32,
}

impl ReadItem for PartReader {
    type Item = Part;

    ghost tests = { λ reader. part_tests reader.zone };

    ghost says = { λ reader. IsPart (Some reader.centre) };

    fn read_item(&self, _alloc: Global, value: &Value, part: u32) -> Result<Part, TaskError> {
        read_part(value, self.centre, self.zone, part)
    }
}

/// Reads the zones of a task.
#[derive(Clone, Copy)]
struct ZoneReader;

impl ReadItem for ZoneReader {
    type Item = Zone;

    ghost tests = { λ reader. zone_tests };

    ghost says = { λ reader. IsZone };

    #[tactic(auto, unfolding(crate::specs::Tests::zone_tests))]
    fn read_item(&self, alloc: Global, value: &Value, zone: u32) -> Result<Zone, TaskError> {
        let table = item_table(value, row_of_item(13, zone))?;
        let centre = needed_place(table, "at", row_of_item(14, zone))?;
        let values = needed_list(table, "part", row_of_item(15, zone))?;
        some_item(values, row_of_item(15, zone))?;
        at_most(values, row_of_item(15, zone), MOST_PARTS)?;
        let parts = read_items(alloc, &PartReader { centre, zone }, values)?;
        Ok(Zone {
            centre: vector(centre),
            parts: Items::from_vec(parts),
        })
    }
}

/// The zones of a task.
#[tactic(auto, unfolding(crate::specs::Tests::zones_tests), using(crate::proofs::RoundLemmas::zones_are_round))]
pub fn read_zones(alloc: Global, file: &Table) -> Result<Vec<Zone>, TaskError>
    ensures ok { IfOk result
        (λ zones. Each IsZone (list_at (codes "zone") (table_view file.now)) zones.items) }
    ensures some { IfOk result (λ zones. 1 ≤ vec_len zones) }
    ensures few { IfOk result (λ zones. vec_len zones ≤ 8) }
    ensures round { IfOk result (λ zones. IsTrue (list_all is_round_its_centre zones.items)) }
    ensures passes { IfOk result
        (λ zones. first_failed (zones_tests (table_view file.now)) ≡ None) }
    ensures refused { IfErr result (λ e. e ≢ Memory
        → first_failed (zones_tests (table_view file.now)) ≡ Some e) }
{
    let values = needed_list(file, "zone", row(13))?;
    some_item(values, row(13))?;
    at_most(values, row(13), MOST_ZONES)?;
    read_items(alloc, &ZoneReader, values)
}
