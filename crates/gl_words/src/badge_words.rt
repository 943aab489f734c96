ghost use Rattle.std.specs.Prelude.{◌≡◌, option_map};
ghost use Rattle.gl_words.specs.BadgeWords.{badge_seen};
ghost use Rattle.gl_words.specs.Words.{badge_form};

use gl_desk::Name;
use gl_text::is_file_name;

/// What `badge` and `badgecheck` are given.
#[derive(Clone, Copy, Debug)]
pub struct BadgeWords<'a> {
    /// The file of the recording.
    pub flight: &'a Name,
    /// The file of the proof.
    pub proof: &'a Name,
}

/// What is given in `badge FILE PROOF`, or behind another first word.
pub fn read_badge_words<'a>(first: &str, words: &'a [Name]) -> Option<BadgeWords<'a>>
    ensures { option_map badge_seen result ≡ badge_form first.now words.now }
{
    match words {
        [word, flight, proof]
            if word.as_str() == first
                && is_file_name(flight.as_str())
                && is_file_name(proof.as_str()) => { Some(BadgeWords { flight, proof }) }
        _ => None,
    }
}
