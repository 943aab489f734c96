ghost use Rattle.std.specs.Prelude.{◌≡◌, Some, option_map};
ghost use Rattle.gl_words.specs.NearWords.{near_seen, point_seen};
ghost use Rattle.gl_words.specs.Words.{near_form, near_words, point_form};

use crate::apart::{Apart, read_apart};
use crate::place_word::{PlaceWord, read_place_word};
use gl_desk::Name;
use gl_text::is_file_name;

/// What `near` and `nearcheck` are given.
#[derive(Clone, Copy, Debug)]
pub struct NearWords<'a> {
    /// The file of the first recording.
    pub flight: &'a Name,
    /// The file of the other recording.
    pub other: &'a Name,
    /// How many seconds the fixes of a pair may be apart.
    pub apart: Apart,
    /// The file of the proof.
    pub proof: &'a Name,
}

/// What `point` is given.
#[derive(Clone, Copy, Debug)]
pub struct PointWords<'a> {
    /// The file of the recording.
    pub flight: &'a Name,
    /// The place.
    pub place: PlaceWord<'a>,
}

/// What is given, where the names are those of files.
fn near_words<'a>(
    flight: &'a Name,
    other: &'a Name,
    apart: Apart,
    proof: &'a Name,
) -> Option<NearWords<'a>>
    ensures { option_map near_seen result
        ≡ near_words flight.now other.now (Some apart.seconds) proof.now }
{
    if is_file_name(flight.as_str())
        && is_file_name(other.as_str())
        && is_file_name(proof.as_str())
    {
        Some(NearWords {
            flight,
            other,
            apart,
            proof,
        })
    } else {
        None
    }
}

/// What is given in `near FILE OTHER SECONDS PROOF`, or behind another first word.
pub fn read_near_words<'a>(first: &str, words: &'a [Name]) -> Option<NearWords<'a>>
    ensures { option_map near_seen result ≡ near_form first.now words.now }
{
    match words {
        [word, flight, other, seconds, proof] if word.as_str() == first => {
            near_words(flight, other, read_apart(seconds)?, proof)
        }
        _ => None,
    }
}

/// What is given in `point FILE PLACE`, where the place is one of the sphere.
pub fn read_point(words: &[Name]) -> Option<PointWords<'_>>
    ensures { option_map point_seen result ≡ point_form words.now }
{
    match words {
        [word, flight, place] if word.as_str() == "point" && is_file_name(flight.as_str()) => {
            let place = read_place_word(place)?;
            Some(PointWords { flight, place })
        }
        _ => None,
    }
}
