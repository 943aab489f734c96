ghost use Rattle.std.specs.Prelude.{◌≡◌, length};
ghost use Rattle.std.specs.List.{list_all};
ghost use Rattle.std.specs.Char.{is_ascii_alphanumeric};
ghost use Rattle.gl_text.specs.Forms.{is_in_file_name, is_file_name, is_number, is_name, is_no_control, is_plain, is_short};

/// The most bytes of the name of a file, of an entrant's number and of an entrant's name.
const LONGEST_FILE_NAME: usize = 128;

const LONGEST_NUMBER: usize = 8;

const LONGEST_NAME: usize = 80;

/// The first byte that is no control character, and the one control character above it.
const SPACE: u8 = 32;

const DELETE: u8 = 127;

/// Whether a text has from 1 to so many bytes.
fn is_short(text: &str, most: usize) -> bool
    ensures { result ≡ is_short text.now most }
{
    1 <= text.len() && text.len() <= most
}

/// Whether a byte may stand in the name of a file.
fn is_in_file_name(byte: u8) -> bool
    ensures { result ≡ is_in_file_name byte }
{
    SPACE <= byte && byte != b'/'
}

/// Whether each byte of a text may stand in the name of a file.
fn has_file_name_bytes(text: &str) -> bool
    ensures { result ≡ list_all is_in_file_name text.now }
{
    text.as_bytes().iter().all(|byte| is_in_file_name(*byte))
}

/// Whether a text is the name of a file: 1 to 128 bytes, none of them below 32 or a slash, and
/// neither `.` nor `..`.
#[tactic(auto, unfolding(crate::specs::Forms::is_file_name))]
pub fn is_file_name(text: &str) -> bool
    ensures { result ≡ is_file_name text.now }
{
    let is_short = is_short(text, LONGEST_FILE_NAME);
    let is_plain = has_file_name_bytes(text);
    let is_folder = text == ".";
    let is_folder_above = text == "..";
    is_short && is_plain && !is_folder && !is_folder_above
}

/// Whether each byte of a text is a letter or a digit of ASCII.
fn has_number_bytes(text: &str) -> bool
    ensures { result ≡ list_all is_ascii_alphanumeric text.now }
{
    text.as_bytes()
        .iter()
        .all(|byte| byte.is_ascii_alphanumeric())
}

/// Whether a text is an entrant's number: 1 to 8 letters and digits of ASCII.
pub fn is_number(text: &str) -> bool
    ensures { result ≡ is_number text.now }
{
    is_short(text, LONGEST_NUMBER) && has_number_bytes(text)
}

/// Whether a byte is no control character.
fn is_no_control(byte: u8) -> bool
    ensures { result ≡ is_no_control byte }
{
    SPACE <= byte && byte != DELETE
}

/// Whether no byte of a text is a control character.
fn has_no_control(text: &str) -> bool
    ensures { result ≡ list_all is_no_control text.now }
{
    text.as_bytes().iter().all(|byte| is_no_control(*byte))
}

/// Whether a text has from 1 to so many bytes, none of them a control character.
pub fn is_plain(text: &str, most: usize) -> bool
    ensures { result ≡ is_plain text.now most }
{
    is_short(text, most) && has_no_control(text)
}

/// Whether a text is an entrant's name: 1 to 80 bytes, none of them a control character.
pub fn is_name(text: &str) -> bool
    ensures { result ≡ is_name text.now }
{
    is_plain(text, LONGEST_NAME)
}
