use crate::told::Section;

/// A key by its section and its name.
#[derive(Clone, Copy, Debug)]
pub struct KeyName {
    pub section: Section,
    pub key: &'static str,
}

/// A key by its section and its name.
fn named(section: Section, key: &'static str) -> KeyName {
    KeyName { section, key }
}

/// The key of a row at the top or in the start.
fn key_of_low_row(row: u32) -> KeyName {
    match row {
        1 => named(Section::Day, "date"),
        2 => named(Section::Day, "kind"),
        3 => named(Section::Day, "minimum"),
        4 => named(Section::Day, "closes"),
        5 => named(Section::Day, "airspace"),
        6 => named(Section::Day, "lists"),
        7 => named(Section::Day, "start"),
        8 => named(Section::Start, "at"),
        9 => named(Section::Start, "towards"),
        10 => named(Section::Start, "half"),
        11 => named(Section::Start, "open"),
        _ => named(Section::Start, "close"),
    }
}

/// The key of a row in the zones and the finish.
fn key_of_middle_row(row: u32) -> KeyName {
    match row {
        13 => named(Section::Day, "zone"),
        14 => named(Section::Zone, "at"),
        15 => named(Section::Zone, "part"),
        16 => named(Section::Part, "radius"),
        17 => named(Section::Part, "inner"),
        18 => named(Section::Part, "outer"),
        19 => named(Section::Part, "from"),
        20 => named(Section::Part, "to"),
        21 => named(Section::Day, "finish"),
        22 => named(Section::Finish, "at"),
        23 => named(Section::Finish, "ring"),
        24 => named(Section::Finish, "half"),
        _ => named(Section::Finish, "towards"),
    }
}

/// The key of a row in the local rules and the entrants, or of a start that is announced.
fn key_of_high_row(row: u32) -> KeyName {
    match row {
        26 => named(Section::Day, "rules"),
        27 => named(Section::Rules, "ceiling"),
        28 => named(Section::Rules, "engine_level"),
        29 => named(Section::Rules, "engine_points"),
        30 => named(Section::Rules, "loss"),
        31 => named(Section::Rules, "closing"),
        32 => named(Section::Day, "entrant"),
        33 => named(Section::Entrant, "number"),
        34 => named(Section::Entrant, "name"),
        35 => named(Section::Entrant, "handicap"),
        36 => named(Section::Entrant, "file"),
        37 => named(Section::Start, "wait"),
        _ => named(Section::Start, "width"),
    }
}

/// The key of a row of docs/task-file.md.
pub fn key_of_row(row: u32) -> KeyName {
    if row <= 12 {
        key_of_low_row(row)
    } else if row <= 25 {
        key_of_middle_row(row)
    } else {
        key_of_high_row(row)
    }
}

/// What a key at the top may be.
fn hint_of_low_row(row: u32) -> &'static str {
    match row {
        1 => "a day of the calendar in quotes, such as date = \"2026-07-18\"",
        2 => "kind = \"racing\" or kind = \"area\"",
        3 => "a number of seconds from 1 to 100000: three hours are minimum = 10800",
        4 => "seconds from midnight UTC, from 1 to 100000: 20:00 UTC is closes = 72000",
        5 => "the name of a file in quotes, such as airspace = \"AIR.TXT\"",
        6 => "a list of at most two words, lists = [\"free\", \"triangle\"]",
        7 => "a section that begins with [start]",
        11 => "seconds from midnight UTC, from 0 to 100000: 11:30 UTC is open = 41400",
        _ => "seconds from midnight UTC, not before `open` and at most 100000",
    }
}

/// What a key of a list or a section may be.
fn hint_of_list(row: u32) -> &'static str {
    match row {
        13 => "1 to 8 items, each of which begins with [[zone]]",
        15 => "1 to 4 items, each of which begins with [[zone.part]]",
        21 => "a section that begins with [finish]",
        26 => "a section that begins with [rules]",
        _ => "1 to 200 items, each of which begins with [[entrant]]",
    }
}

/// What a key of the zones, the local rules and the entrants may be.
fn hint_of_high_row(row: u32) -> &'static str {
    match row {
        18 => "a number of metres from 1 to 500000, not below `inner`",
        19 | 20 => "thousandths of a degree from 0 to 359999: 90000 is east",
        27 | 30 => "a number of metres from 0 to 32767",
        28 => "a number from 0 to 999",
        29 => "a number of points from 0 to 1000",
        33 => "1 to 8 letters and digits in quotes, such as number = \"K7\"",
        34 => "the pilot's name in quotes, at most 80 bytes",
        35 => "a number from 1 to 2000 in thousandths: handicap = 1025",
        36 => "the name of a file in quotes, such as file = \"K7.IGC\"",
        37 => "a number of seconds from 0 to 3600",
        38 => "a number of seconds from 1 to 3600",
        17 | 31 => "a number of metres from 0 to 500000",
        _ => "a number of metres from 1 to 500000",
    }
}

/// What the value of the key of a row may be.
pub fn hint_of(row: u32) -> &'static str {
    match row {
        8 | 14 | 22 => "a place of 17 characters in quotes, such as at = \"5111220N00101920W\"",
        9 | 25 => "a place of 17 characters in quotes, at another point than `at`",
        13 | 15 | 21 | 26 | 32 => hint_of_list(row),
        1..=7 | 11 | 12 => hint_of_low_row(row),
        _ => hint_of_high_row(row),
    }
}
