use crate::told::{Section, Slip};
use std::alloc::{AllocError, Global};
use strsim::levenshtein;

/// The sections, in the order in which a key is looked for.
const SECTIONS: [Section; 7] = [
    Section::Day,
    Section::Start,
    Section::Zone,
    Section::Part,
    Section::Finish,
    Section::Rules,
    Section::Entrant,
];

/// The keys that may mean something in a table of a section.
fn names_in(section: Section) -> &'static str {
    match section {
        Section::Day => {
            "date kind minimum closes airspace lists start zone finish rules entrant"
        }
        Section::Start => "at towards half open close wait width",
        Section::Zone => "at part",
        Section::Part => "radius inner outer from to",
        Section::Finish => "at ring half towards",
        Section::Rules => "ceiling engine_level engine_points loss closing",
        Section::Entrant => "number name handicap file",
    }
}

/// The words for the place of a table.
pub fn words_of_section(section: Section) -> &'static str {
    match section {
        Section::Day => "at the top, above the first line in brackets",
        Section::Start => "below [start]",
        Section::Zone => "below [[zone]]",
        Section::Part => "below [[zone.part]]",
        Section::Finish => "below [finish]",
        Section::Rules => "below [rules]",
        Section::Entrant => "below [[entrant]]",
    }
}

/// Whether a key may mean something in a table of a section.
fn is_name_in(section: Section, key: &str) -> bool {
    names_in(section).split_whitespace().any(|name| name == key)
}

/// Beside which key one of the same table means nothing, and what it needs.
fn reason(section: Section, key: &str) -> &'static str {
    match section {
        Section::Day => "a racing task has no minimum. Take it out, or write kind = \"area\"",
        Section::Start => "there is no `wait`. Write `wait`, or take `width` out",
        Section::Part => "the part has a `radius` and so is a circle. Take one of the two out",
        Section::Finish => "the finish has a `ring` and so is no line. Take one of the two out",
        Section::Rules => "there is no `engine_level`. Write it, or take `engine_points` out",
        Section::Zone | Section::Entrant => {
            if key.is_empty() {
                "it has no name"
            } else {
                "it isn't used"
            }
        }
    }
}

/// The first section in which a key means something.
fn home_of(key: &str) -> Option<Section> {
    SECTIONS
        .iter()
        .copied()
        .find(|section| is_name_in(*section, key))
}

/// The nearest key there is: how far it is, where it belongs, and its name.
#[derive(Clone, Copy, Debug)]
struct Near {
    edits: usize,
    section: Section,
    name: &'static str,
}

/// The nearer of two.
fn nearer(one: Option<Near>, other: Near) -> Option<Near> {
    match one {
        Some(one) if one.edits <= other.edits => Some(one),
        _ => Some(other),
    }
}

/// The nearest key of a section to one that isn't known, or the one before.
fn nearest_in(
    alloc: Global,
    before: Option<Near>,
    section: Section,
    key: &str,
) -> Result<Option<Near>, AllocError> {
    let mut near = before;
    for name in names_in(section).split_whitespace() {
        let edits = levenshtein(alloc, key, name)?;
        near = nearer(
            near,
            Near {
                edits,
                section,
                name,
            },
        );
    }
    Ok(near)
}

/// The nearest key to one that isn't known, first among those of its own section.
fn nearest(alloc: Global, section: Section, key: &str) -> Result<Option<Near>, AllocError> {
    let mut near = nearest_in(alloc, None, section, key)?;
    for other in SECTIONS {
        near = nearest_in(alloc, near, other, key)?;
    }
    let most = if key.len() < 5 { 1 } else { 2 };
    Ok(near.filter(|near| near.edits <= most))
}

/// What is wrong with a key that no section has.
fn words_of_unknown(alloc: Global, section: Section, key: &str) -> Result<String, AllocError> {
    let small = key.to_ascii_lowercase(alloc)?;
    match nearest(alloc, section, small.as_str())? {
        Some(near) => {
            let place = words_of_section(near.section);
            let name = near.name;
            format!(in alloc; " is no key, and says nothing. Write `{name}`, {place}")
        }
        None => {
            format!(in alloc;
                " is no key, and says nothing. Take it out, or look for its name in docs/task-file.md"
            )
        }
    }
}

/// What is wrong with a key that says nothing where it stands.
fn words_of_idle(alloc: Global, section: Section, key: &str) -> Result<String, AllocError> {
    let here = words_of_section(section);
    if is_name_in(section, key) {
        let reason = reason(section, key);
        return format!(in alloc; " says nothing {here}, since {reason}");
    }
    match home_of(key) {
        Some(home) => {
            let there = words_of_section(home);
            format!(in alloc; " says nothing {here}. Move it: it belongs {there}")
        }
        None => words_of_unknown(alloc, section, key),
    }
}

/// What is wrong with a key, and what to do.
pub fn words_of_key(
    alloc: Global,
    section: Section,
    key: &str,
    slip: Slip,
) -> Result<String, AllocError> {
    match slip {
        Slip::FillIn => {
            let here = words_of_section(section);
            format!(in alloc;
                " is still to be filled in, {here}. Write its value in place of \"FILL IN\""
            )
        }
        _ => words_of_idle(alloc, section, key),
    }
}
