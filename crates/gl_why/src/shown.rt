ghost use Rattle.std.specs.Prelude.{◌≡◌, ◌++◌, OnOk};
ghost use Rattle.gl_why.specs.Line.{shown, shown_byte};

use std::alloc::AllocError;

/// A byte of a name, as a line shows it.
fn shown_byte(byte: u8) -> u8
    ensures { result ≡ shown_byte byte }
{
    if byte < 32 || byte == 127 { b'?' } else { byte }
}

/// Appends a name as a line shows it: each control character as a question mark.
pub fn push_shown(line: &mut Vec<u8>, name: &[u8]) -> Result<(), AllocError>
    ensures { OnOk result (line.new.items ≡ line.old.items ++ shown name.now) }
{
    'bytes: for byte in name {
        line.push(shown_byte(*byte))?;
    }
    Ok(())
}
