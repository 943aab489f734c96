ghost use Rattle.std.specs.Prelude.{◌≡◌, IfOk};
ghost use Rattle.gl_answer.specs.Answer.{answer_of};
ghost use Rattle.gl_answer.specs.FileTests.{HasTested};
ghost use Rattle.gl_answer.specs.Halts.{halt_stop};
ghost use Rattle.gl_desk.specs.Answers.{OnlyReads, stop_of};
ghost use Rattle.gl_desk.specs.Desk.{HasFile, ListsNames};
ghost use Rattle.gl_words.specs.NearWords.{near_seen};
ghost use Rattle.gl_flights.specs.Near.{IsNearCheck, IsNearVerdict, box_of_verdict, verdict_answer, word_of_verdict};
ghost use Rattle.gl_flights.specs.NearFiles.{IsNearSeen, near_check_tests};

use crate::near::pairs_of;
use crate::near_file::check_near_file;
use crate::near_files::read_recordings;
use gl_answer::{Answer, Halt, Status, accepted_line, answer_halt, need, need_both, wrong_line};
use gl_desk::{Desk, DeskError, Name};
use gl_near::NearVerdict;
use gl_words::NearWords;
use std::alloc::{AllocError, Global};

/// The word for what is wrong with a claim; it is empty where nothing is.
fn word_of(verdict: NearVerdict) -> &'static [u8]
    ensures { result.now ≡ word_of_verdict verdict }
{
    match verdict {
        NearVerdict::Yes => b"",
        NearVerdict::Pair => b"PAIR",
        NearVerdict::Total => b"TOTAL",
        NearVerdict::Extra(_) => b"EXTRA",
        NearVerdict::Place(_) => b"PLACE",
        NearVerdict::Cell(_) => b"CELL",
        NearVerdict::Open => b"OPEN",
    }
}

/// The number of the box that is wrong, or 0 where it is about none.
fn box_number(verdict: NearVerdict) -> u32
    ensures { result ≡ box_of_verdict verdict }
{
    match verdict {
        NearVerdict::Extra(number) | NearVerdict::Place(number) | NearVerdict::Cell(number) => {
            number
        }
        NearVerdict::Yes | NearVerdict::Pair | NearVerdict::Total | NearVerdict::Open => 0,
    }
}

/// The answer for what is to be said of a claim.
fn verdict_answer(alloc: Global, verdict: NearVerdict) -> Result<Answer, AllocError>
    ensures { IfOk result (λ answer. answer_of answer ≡ verdict_answer verdict) }
{
    if verdict == NearVerdict::Yes {
        return Ok(Answer {
            status: Status::Done,
            text: accepted_line(alloc, 1)?,
        });
    }
    Ok(Answer {
        status: Status::NotProved,
        text: wrong_line(alloc, 1, word_of(verdict), box_number(verdict))?,
    })
}

/// What is to be said of the proof by the two recordings, where the folder lists the three files
/// and these pass the further tests.
fn check_listed<D: Desk>(
    alloc: Global,
    desk: &mut D,
    words: NearWords<'_>,
) -> Result<NearVerdict, Halt>
    requires flight { HasFile (D.told desk.old).folder words.flight.now }
    requires other { HasFile (D.told desk.old).folder words.other.now }
    requires proof { HasFile (D.told desk.old).folder words.proof.now }
    ensures tested { HasTested (IsNearSeen (near_seen words.entry) (D.told desk.old).folder)
        (near_check_tests (near_seen words.entry)) (IsNearVerdict (near_seen words.entry)) result }
    ensures reads { OnlyReads (halt_stop result) (D.told desk.old) (D.told desk.new) }
{
    let flights = read_recordings(alloc, desk, words)?;
    let pairs = pairs_of(alloc, &flights, words.apart)?;
    check_near_file(alloc, desk, words.proof, &pairs)
}

/// What is to be said of the proof, where the files pass the tests of `nearcheck`.
///
/// The tests are made in this order: FILE, OTHER and PROOF are of the folder's names; FILE has at
/// most 16,777,216 bytes, and is a recording; so does OTHER, and it is one of the day of FILE, or
/// of the day before or after it; PROOF has at most 1,073,741,824 bytes, and its text is a proof.
fn check_files<D: Desk>(
    alloc: Global,
    desk: &mut D,
    names: &[Name],
    words: NearWords<'_>,
) -> Result<NearVerdict, Halt>
    requires { ListsNames (D.told desk.old).folder names.now }
    ensures tested { HasTested (IsNearSeen (near_seen words.entry) (D.told desk.old).folder)
        (near_check_tests (near_seen words.entry)) (IsNearVerdict (near_seen words.entry)) result }
    ensures reads { OnlyReads (halt_stop result) (D.told desk.old) (D.told desk.new) }
{
    need_both(names, words.flight, words.other)?;
    need(names, words.proof)?;
    check_listed(alloc, desk, words)
}

/// The answer of `nearcheck FILE OTHER SECONDS PROOF`: whether the proof is that of the two
/// recordings.
pub fn near_check<D: Desk>(
    alloc: Global,
    desk: &mut D,
    words: NearWords<'_>,
) -> Result<Answer, DeskError>
    ensures right { IfOk result (λ answer.
        IsNearCheck (D.told desk.old).folder (near_seen words.entry) (answer_of answer)) }
    ensures reads { OnlyReads (stop_of result) (D.told desk.old) (D.told desk.new) }
{
    let names = desk.names(alloc)?;
    match check_files(alloc, desk, &names, words) {
        Ok(verdict) => Ok(verdict_answer(alloc, verdict)?),
        Err(halt) => answer_halt(alloc, halt),
    }
}
