ghost use Rattle.std.specs.Prelude.{◌≡◌, ◌++◌, OnOk};
ghost use Rattle.gl_look.specs.Line.{shown, shown_byte, subject_text};

use crate::told::Subject;
use gl_desk::Name;
use std::alloc::AllocError;

/// A byte of a name, as a line shows it.
fn shown_byte(byte: u8) -> u8
    ensures { result ≡ shown_byte byte }
{
    if byte < 32 || byte == 127 { b'?' } else { byte }
}

/// Appends a name as a line shows it: each control character as a question mark.
pub fn push_shown(line: &mut Vec<u8>, name: &[u8]) -> Result<(), AllocError>
    ensures { OnOk result (line.new.items ≡ line.old.items ++ shown name.now) }
{
    'bytes: for byte in name {
        line.push(shown_byte(*byte))?;
    }
    Ok(())
}

/// Appends the name of a key, an entrant or a file.
fn push_name(line: &mut Vec<u8>, name: &Name) -> Result<(), AllocError>
    ensures { OnOk result (line.new.items ≡ line.old.items ++ shown name.now) }
{
    push_shown(line, name.as_str().as_bytes())
}

/// Appends what a remark is about.
pub fn push_subject(line: &mut Vec<u8>, subject: &Subject) -> Result<(), AllocError>
    ensures { OnOk result (line.new.items ≡ line.old.items ++ subject_text subject.now) }
{
    match subject {
        Subject::Task => Ok(()),
        Subject::Key(_, key) => push_name(line, key),
        Subject::Entrant(number) => {
            line.extend_from_slice(b"entrant ")?;
            push_name(line, number)
        }
        Subject::File(file) => push_name(line, file),
    }
}
