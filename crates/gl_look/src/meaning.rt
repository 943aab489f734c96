ghost use Rattle.std.specs.Prelude.{◌≡◌};
ghost use Rattle.toml.specs.View.{table_view};
ghost use Rattle.gl_look.specs.Meaning.{is_day_key, is_entrant_key, is_finish_key, is_meant, is_part_key, is_rule_key, is_section, is_sector_key, is_start_key, is_zone_key, slip_of_key};

use crate::table::{has, says};
use crate::told::{Section, Slip};
use toml::Table;

/// Whether a key stands at the top of a task file.
#[tactic(auto, unfolding(crate::specs::Meaning::is_day_key))]
fn is_day_key(key: &str, table: &Table) -> bool
    ensures { result ≡ is_day_key key.now (table_view table.now) }
{
    key == "date"
        || key == "kind"
        || key == "closes"
        || key == "airspace"
        || key == "lists"
        || (key == "minimum" && !says(table, "kind", "racing"))
}

/// Whether a key is that of a section or a list.
#[tactic(auto, unfolding(crate::specs::Meaning::is_section))]
fn is_section(key: &str) -> bool
    ensures { result ≡ is_section key.now }
{
    key == "start" || key == "zone" || key == "finish" || key == "rules" || key == "entrant"
}

/// Whether a key means something in the start.
#[tactic(auto, unfolding(crate::specs::Meaning::is_start_key))]
fn is_start_key(key: &str, table: &Table) -> bool
    ensures { result ≡ is_start_key key.now (table_view table.now) }
{
    key == "at"
        || key == "towards"
        || key == "half"
        || key == "open"
        || key == "close"
        || key == "wait"
        || (key == "width" && has(table, "wait"))
}

/// Whether a key means something in a zone.
#[tactic(auto, unfolding(crate::specs::Meaning::is_zone_key))]
fn is_zone_key(key: &str) -> bool
    ensures { result ≡ is_zone_key key.now }
{
    key == "at" || key == "part"
}

/// Whether a key is one of a sector.
#[tactic(auto, unfolding(crate::specs::Meaning::is_sector_key))]
fn is_sector_key(key: &str) -> bool
    ensures { result ≡ is_sector_key key.now }
{
    key == "inner" || key == "outer" || key == "from" || key == "to"
}

/// Whether a key means something in a part of a zone.
#[tactic(auto, unfolding(crate::specs::Meaning::is_part_key))]
fn is_part_key(key: &str, table: &Table) -> bool
    ensures { result ≡ is_part_key key.now (table_view table.now) }
{
    key == "radius" || (is_sector_key(key) && !has(table, "radius"))
}

/// Whether a key means something in the finish.
#[tactic(auto, unfolding(crate::specs::Meaning::is_finish_key))]
fn is_finish_key(key: &str, table: &Table) -> bool
    ensures { result ≡ is_finish_key key.now (table_view table.now) }
{
    key == "at" || key == "ring" || ((key == "half" || key == "towards") && !has(table, "ring"))
}

/// Whether a key means something in the local rules.
#[tactic(auto, unfolding(crate::specs::Meaning::is_rule_key))]
fn is_rule_key(key: &str, table: &Table) -> bool
    ensures { result ≡ is_rule_key key.now (table_view table.now) }
{
    key == "ceiling"
        || key == "engine_level"
        || key == "loss"
        || key == "closing"
        || (key == "engine_points" && has(table, "engine_level"))
}

/// Whether a key means something in an entrant.
#[tactic(auto, unfolding(crate::specs::Meaning::is_entrant_key))]
fn is_entrant_key(key: &str) -> bool
    ensures { result ≡ is_entrant_key key.now }
{
    key == "number" || key == "name" || key == "handicap" || key == "file"
}

/// Whether a key means something in a table of a section.
pub fn is_meant(section: Section, key: &str, table: &Table) -> bool
    ensures { result ≡ is_meant section key.now (table_view table.now) }
{
    match section {
        Section::Day => is_section(key) || is_day_key(key, table),
        Section::Start => is_start_key(key, table),
        Section::Zone => is_zone_key(key),
        Section::Part => is_part_key(key, table),
        Section::Finish => is_finish_key(key, table),
        Section::Rules => is_rule_key(key, table),
        Section::Entrant => is_entrant_key(key),
    }
}

/// What is wrong with a key of a table.
pub fn slip_of_key(section: Section, key: &str, table: &Table) -> Option<Slip>
    ensures { result ≡ slip_of_key section key.now (table_view table.now) }
{
    if says(table, key, "FILL IN") {
        Some(Slip::FillIn)
    } else if is_meant(section, key, table) {
        None
    } else {
        Some(Slip::Idle)
    }
}
