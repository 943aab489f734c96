ghost use Rattle.std.specs.Prelude.{◌≡◌, ◌≤◌, IfSome, option_map};
ghost use Rattle.gl_words.specs.Words.{day_number, demo_form, number_within};

use gl_desk::Name;
use gl_text::read_u64;

/// The greatest number of a generated day.
const GREATEST_NUMBER: u32 = 1_000_000;

/// The number of a generated day.
#[derive(Clone, Copy, Debug)]
pub struct DayNumber {
    pub number: u32,
    pub ghost least: { 1 ≤ number },
    pub ghost most: { number ≤ 1_000_000 },
}

/// The number within two limits that a word writes.
pub fn read_within(word: &Name, least: u32, most: u32) -> Option<u32>
    ensures number { result ≡ number_within least most word.now }
    ensures within { IfSome result (λ number. (least ≤ number) × (number ≤ most)) }
{
    let number = read_u64(word.as_str().as_bytes())?;
    if number < u64::from(least) || number > u64::from(most) {
        return None;
    }
    Some(number as u32)
}

/// The number from 1 to 1,000,000 that a word writes.
fn read_number(word: &Name) -> Option<DayNumber>
    ensures { option_map (λ day. day.number) result ≡ day_number word.now }
{
    let number = read_within(word, 1, GREATEST_NUMBER)?;
    Some(DayNumber { number })
}

/// The number in `demo NUMBER`.
pub fn read_demo(words: &[Name]) -> Option<DayNumber>
    ensures { option_map (λ day. day.number) result ≡ demo_form words.now }
{
    match words {
        [word, number] if word.as_str() == "demo" => read_number(number),
        _ => None,
    }
}
