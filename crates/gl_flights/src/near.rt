ghost use Rattle.std.specs.Prelude.{◌≡◌, IfErr, IfOk, IfSome};
ghost use Rattle.gl_near.specs.Line.{IsBest, near_text};
ghost use Rattle.gl_near.specs.Pairs.{pairing_of};
ghost use Rattle.gl_near.specs.Search.{boxes_of};
ghost use Rattle.gl_words.specs.NearWords.{near_seen};
ghost use Rattle.gl_answer.specs.declared.status.Status.TheVariants.{Done};
ghost use Rattle.gl_flights.specs.Near.{IsNearestFix, IsNearestSaid, near_promise, pair_text, pairs_of};
ghost use Rattle.gl_answer.specs.Given.{HasAnswered, IsStopped};

use crate::near_files::test_near_files;
use gl_answer::{Answer, Status, answer_halt, append_lines, distance_lines, no_pair};
use gl_desk::{Desk, DeskError};
use gl_igc::Recording;
use gl_near::{NearBest, NearFound, Pairs, nearest_fix, search_near};
use gl_sphere::{Grid, vector};
use gl_words::{Apart, NearWords};
use std::alloc::{AllocError, Global};

/// The pairs of the fixes of two recordings that are at most so many seconds apart.
pub fn pairs_of(
    alloc: Global,
    flights: &(Recording, Recording),
    apart: Apart,
) -> Result<Pairs, AllocError>
    ensures { IfOk result (λ pairs. pairing_of pairs ≡ pairs_of flights.now apart.seconds) }
{
    let (flight, other) = flights;
    Pairs::flights(
        alloc,
        flight.fixes.as_slice(),
        other.fixes.as_slice(),
        apart.seconds,
    )
}

/// What is said of the least distance: it and a pair that has it, or that no pair fits.
fn pair_lines(alloc: Global, best: Option<NearBest>) -> Result<Vec<u8>, AllocError>
    ensures numbers { IfSome best IsBest }
    ensures said { IfOk result (λ text. text.items ≡ pair_text best) }
{
    match best {
        None => no_pair(alloc),
        Some(best) => {
            distance_lines(
                alloc,
                "NEAR",
                best.total,
                "PAIR",
                &[best.first, best.second],
            )
        }
    }
}

/// What is said of how near two flights came, and what was found.
fn search_flights(
    alloc: Global,
    flights: &(Recording, Recording),
    apart: Apart,
) -> Result<(Vec<u8>, NearFound), AllocError>
    ensures { IfOk result (λ found. IsNearestSaid (pairs_of flights.now apart.seconds)
        (record {
          status = Done;
          said = found.0.items;
          appended = near_text found.1.best (boxes_of found.1);
        })) }
{
    let pairs = pairs_of(alloc, flights, apart)?;
    let found = search_near(alloc, &pairs)?;
    let said = pair_lines(alloc, found.best)?;
    Ok((said, found))
}

/// The answer of `near FILE OTHER SECONDS PROOF`: the least distance of two fixes, one of each
/// recording, that are at most SECONDS apart. Its proof is appended to the file.
pub fn near<D: Desk>(alloc: Global, desk: &mut D, words: NearWords<'_>) -> Result<Answer, DeskError>
    ensures right { IfOk result (HasAnswered
        (near_promise (D.told desk.old).folder (near_seen words.entry))
        (D.told desk.old) (D.told desk.new)) }
    ensures stopped { IfErr result (IsStopped
        (near_promise (D.told desk.old).folder (near_seen words.entry))
        (D.told desk.old) (D.told desk.new)) }
{
    let names = desk.names(alloc)?;
    let flights = match test_near_files(alloc, desk, &names, words) {
        Ok(flights) => flights,
        Err(halt) => return answer_halt(alloc, halt),
    };
    let (said, found) = search_flights(alloc, &flights, words.apart)?;
    let lines = found.lines(alloc)?;
    append_lines(alloc, desk, words.proof, lines)?;
    Ok(Answer {
        status: Status::Done,
        text: said,
    })
}

/// The two lines of the least distance of a recording to a place, and of a fix that has it.
pub fn point_of_recording(
    alloc: Global,
    recording: &Recording,
    place: Grid,
) -> Result<Vec<u8>, AllocError>
    ensures { IfOk result (λ text. IsNearestFix recording.now.fixes place text.items) }
{
    let best = nearest_fix(recording.fixes.as_slice(), vector(place));
    distance_lines(alloc, "NEAR", best.total, "FIX", &[best.first])
}
