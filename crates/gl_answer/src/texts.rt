ghost use Rattle.std.specs.Prelude.{◌≡◌, ◌++◌, IfOk, OnOk};
ghost use Rattle.gl_answer.specs.Texts.{accepted_line, distance_text, no_flight, no_pair, spaced, usage_line, wrong_line};

use gl_text::{push_fixed, push_u64};
use std::alloc::{AllocError, Global};

/// The line for words that are of no form.
const USAGE: &str = "usage: free FILE | triangle FILE | score TASK PROOF WORKERS | \
    check TASK PROOF | replay FILE SCHEDULE WORKERS | demo NUMBER | series LIST DROP | \
    near FILE OTHER SECONDS PROOF | nearcheck FILE OTHER SECONDS PROOF | point FILE PLACE | \
    badge FILE PROOF | badgecheck FILE PROOF\n";

/// How many digits of a length in centimetres stand behind the point of its metres.
const METRE_PLACES: u32 = 2;

/// The line for words that are of no form.
pub fn usage(alloc: Global) -> Result<Vec<u8>, AllocError>
    ensures { IfOk result (λ line. line.items ≡ usage_line) }
{
    Vec::from_slice(alloc, USAGE.as_bytes())
}

/// Appends each number with a space before it.
fn push_spaced(text: &mut Vec<u8>, numbers: &[u32]) -> Result<(), AllocError>
    ensures { OnOk result (text.new.items ≡ text.old.items ++ spaced numbers.now) }
{
    for &number in numbers {
        text.push(b' ')?;
        push_u64(text, u64::from(number))?;
    }
    Ok(())
}

/// The line where no choice of fixes is legal.
pub fn no_flight(alloc: Global) -> Result<Vec<u8>, AllocError>
    ensures { IfOk result (λ line. line.items ≡ no_flight) }
{
    Vec::from_slice(alloc, b"NO FLIGHT\n")
}

/// The two lines of a distance: behind a word its total in centimetres, as metres, and behind
/// another the numbers of its fixes.
#[tactic(auto, unfolding(crate::specs::Texts::distance_text))]
pub fn distance_lines(
    alloc: Global,
    word: &str,
    total: u64,
    noun: &str,
    fixes: &[u32],
) -> Result<Vec<u8>, AllocError>
    ensures { IfOk result (λ text.
        text.items ≡ distance_text word.now total noun.now fixes.now) }
{
    let mut text = Vec::from_slice(alloc, word.as_bytes())?;
    text.push(b' ')?;
    push_fixed(&mut text, total, METRE_PLACES)?;
    text.extend_from_slice(b" m\n")?;
    text.extend_from_slice(noun.as_bytes())?;
    push_spaced(&mut text, fixes)?;
    text.push(b'\n')?;
    Ok(text)
}

/// The line where no pair of fixes fits.
pub fn no_pair(alloc: Global) -> Result<Vec<u8>, AllocError>
    ensures { IfOk result (λ line. line.items ≡ no_pair) }
{
    Vec::from_slice(alloc, b"NO PAIR\n")
}

/// The line for a proof that is accepted, with the number of its claims.
#[tactic(auto, unfolding(crate::specs::Texts::accepted_line))]
pub fn accepted_line(alloc: Global, claims: usize) -> Result<Vec<u8>, AllocError>
    ensures { IfOk result (λ line. line.items ≡ accepted_line claims) }
{
    let mut line = Vec::from_slice(alloc, b"ACCEPTED ")?;
    push_u64(&mut line, claims as u64)?;
    line.push(b'\n')?;
    Ok(line)
}

/// The line for a proof that isn't accepted: the number of the claim that is wrong, the word for
/// what is wrong with it, and the number of the box that it is about, or 0.
#[tactic(auto, unfolding(crate::specs::Texts::wrong_line))]
pub fn wrong_line(
    alloc: Global,
    claim: usize,
    word: &[u8],
    box_number: u32,
) -> Result<Vec<u8>, AllocError>
    ensures { IfOk result (λ line. line.items ≡ wrong_line claim word.now box_number) }
{
    let mut line = Vec::from_slice(alloc, b"NOT PROVED ")?;
    push_u64(&mut line, claim as u64)?;
    line.extend_from_slice(b" ")?;
    line.extend_from_slice(word)?;
    line.extend_from_slice(b" ")?;
    push_u64(&mut line, u64::from(box_number))?;
    line.push(b'\n')?;
    Ok(line)
}
