ghost use Rattle.std.specs.Prelude.{◌≡◌, IfSome, IsNone, None, Some};
ghost use Rattle.gl_sphere.specs.PlaceText.{place_of, place_of_text};

use gl_desk::Name;
use gl_sphere::{Grid, read_place};

/// A word that names a place of the sphere.
#[derive(Clone, Copy, Debug)]
pub struct PlaceWord<'a> {
    pub word: &'a Name,
    pub place: Grid,
    pub ghost reads: { place_of_text word.now ≡ Some (place_of place) },
}

/// The place that a word names.
pub fn read_place_word(word: &Name) -> Option<PlaceWord<'_>>
    ensures same { IfSome result (λ read. read.word.now ≡ word.now) }
    ensures none { IsNone result → place_of_text word.now ≡ None }
{
    let place = read_place(word.as_str().as_bytes())?;
    Some(PlaceWord { word, place })
}
