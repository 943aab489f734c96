ghost use Rattle.std.specs.Prelude.{◌≡◌, ◌≤◌, option_map};
ghost use Rattle.gl_words.specs.Words.{number_within};

use crate::day_number::read_within;
use gl_desk::Name;

/// The most seconds that the fixes of a pair may be apart.
const MOST_SECONDS: u32 = 3_600;

/// How many seconds the fixes of a pair may be apart.
#[derive(Clone, Copy, Debug)]
pub struct Apart {
    pub seconds: u32,
    pub ghost most: { seconds ≤ 3_600 },
}

/// How many seconds a word lets the fixes of a pair be apart.
pub fn read_apart(word: &Name) -> Option<Apart>
    ensures { option_map (λ apart. apart.seconds) result ≡ number_within 0 3_600 word.now }
{
    let seconds = read_within(word, 0, MOST_SECONDS)?;
    Some(Apart { seconds })
}
