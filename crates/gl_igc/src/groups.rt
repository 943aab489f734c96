ghost use Rattle.std.specs.Prelude.{◌≡◌, ◌<◌, ◌≤◌, length, nat_eq, None, Some, option_map, if◌then◌else◌};
ghost use Rattle.std.specs.List.{starts_with};
ghost use Rattle.std.specs.Option.{option_or};
ghost use Rattle.gl_text.specs.Digits.{columns};
ghost use Rattle.gl_igc.specs.Extension.{extension_of, extension_of_line, group_of, groups_of};
ghost use Rattle.gl_igc.specs.Parts.{extension_view, span_view};
ghost use Rattle.gl_igc.specs.Code.Parts.{with_group};

use crate::extension::{Field, Fields};
use gl_text::read_digits;

/// The first column that a field may have.
const FIRST_FREE_COLUMN: u32 = 36;

/// The bytes of a group: two digits start, two digits finish, three letters.
const GROUP_LENGTH: usize = 7;

/// The field of the group that the text begins with; `None` where a digit is wanting, the start is
/// below column 36 or the finish below the start.
#[tactic(auto, unfolding(crate::specs::Extension::group_of))]
fn read_field(text: &[u8]) -> Option<Field>
    requires { 7 ≤ length text.now }
    ensures { group_of text.now
        ≡ option_map (λ field.
        record { code = columns 5 7 text.now; span = span_view field }) result }
{
    let start = read_digits(&text[..2])?;
    let finish = read_digits(&text[2..4])?;
    if start >= FIRST_FREE_COLUMN && start <= finish {
        Some(Field { start, finish })
    } else {
        None
    }
}

/// The first field with a name, where that of a further group is known.
fn first_field(first: Option<Field>, name: &[u8], code: &[u8], field: Field) -> Option<Field>
    ensures { option_map span_view result
        ≡ option_or (option_map span_view first)
        (if starts_with nat_eq code.now name.now then Some (span_view field) else None) }
{
    if first.is_none() && code.starts_with(name) {
        Some(field)
    } else {
        first
    }
}

/// The fields with that of a further group.
fn with_group(fields: Fields, code: &[u8], field: Field) -> Fields
    ensures { extension_view result
        ≡ with_group (extension_view fields) (record { code = code.now; span = span_view field }) }
{
    Fields {
        lad: first_field(fields.lad, b"LAD", code, field),
        lod: first_field(fields.lod, b"LOD", code, field),
        enl: first_field(fields.enl, b"ENL", code, field),
    }
}

/// The fields of so many groups at the text's front; `None` where a group is cut or damaged.
fn read_groups(count: u32, text: &[u8]) -> Option<Fields>
    ensures { option_map extension_view result
        ≡ option_map extension_of (groups_of count text.now) }
{
    let mut fields = Fields {
        lad: None,
        lod: None,
        enl: None,
    };
    let mut rest = text;
    for _group in 0..count {
        if rest.len() < GROUP_LENGTH {
            return None;
        }
        let field = read_field(rest)?;
        fields = with_group(fields, &rest[4..7], field);
        rest = &rest[7..];
    }
    Some(fields)
}

/// The fields that an undamaged I line gives; `None` of any other line.
#[tactic(auto, unfolding(crate::specs::Extension::extension_of_line))]
pub fn read_fields(line: &[u8]) -> Option<Fields>
    ensures { option_map extension_view result ≡ extension_of_line line.now }
{
    if line.len() < 3 || line[0] != b'I' {
        return None;
    }
    let count = read_digits(&line[1..3])?;
    read_groups(count, &line[3..])
}
