ghost use Rattle.std.specs.Prelude.{◌≡◌, IsUtf8, MatchOption};
ghost use Rattle.gl_series.specs.Forms.{is_team};

use gl_text::is_plain;
use std::str::from_utf8;

/// The most bytes of a team's name.
const LONGEST_TEAM: usize = 40;

/// The text of some bytes, where they are UTF-8.
pub(crate) fn text_in(bytes: &[u8]) -> Option<&str>
    ensures { MatchOption result (IsUtf8 bytes.now → ⊥)
        (λ text. (text.now ≡ bytes.now) × IsUtf8 bytes.now) }
{
    from_utf8(bytes).ok()
}

/// Whether a text is a team's name: 1 to 40 bytes, none of them a control character.
pub(crate) fn is_team(text: &str) -> bool
    ensures { result ≡ is_team text.now }
{
    is_plain(text, LONGEST_TEAM)
}
