ghost use Rattle.std.specs.Prelude.{◌≡◌, ◌++◌, Err, IfOk, IfSome, OnOk, length, map};
ghost use Rattle.gl_day.specs.Flight.{steward_rules};
ghost use Rattle.gl_words.specs.DayNames.{names_seen};
ghost use Rattle.gl_answer.specs.Answer.{answer_of};
ghost use Rattle.gl_day_claims.specs.Check.{IsScoredFolder};
ghost use Rattle.gl_demo.specs.Day.{generated_files};
ghost use Rattle.gl_app.specs.Demo.{HasJust, IsCountOf, IsDemo, claims_line, demo_names};
ghost use Rattle.gl_app.specs.Code.Shelf.{folder_on};

use crate::shelf::Shelf;
use gl_answer::{Answer, Halt, Status};
use gl_day::{Checked, Search};
use gl_day_claims::check::check_proof;
use gl_day_claims::score::score;
use gl_demo::{generated_day, task_name};
use gl_desk::{DeskError, Name};
use gl_task::Steward;
use gl_text::push_u64;
use gl_words::{DayNames, DayNumber};
use std::alloc::{AllocError, Global};

/// What the proof of a generated day is called.
const PROOF: &str = "PROOF.TXT";

/// Appends the line with the number of claims.
#[tactic(auto, unfolding(crate::specs::Demo::claims_line))]
fn push_claims(text: &mut Vec<u8>, claims: usize) -> Result<(), AllocError>
    ensures { OnOk result (text.new.items ≡ text.old.items ++ claims_line claims) }
{
    text.extend_from_slice(b"CLAIMS ")?;
    push_u64(text, claims as u64)?;
    text.extend_from_slice(b" ACCEPTED\n")
}

/// How many bytes a file has, if it is there.
fn size_of(shelf: &Shelf, file: &Name) -> u64
    ensures { IfSome (folder_on shelf.now file.now) (λ bytes. result ≡ length bytes) }
{
    match shelf.file(file) {
        Some(bytes) => bytes.len() as u64,
        None => 0,
    }
}

/// How many claims the proof of so many bytes has that `score` wrote: the checker reads it again,
/// and accepts it.
fn accepted_claims(
    alloc: Global,
    shelf: &mut Shelf,
    day: DayNames<'_>,
    bytes: u64,
) -> Result<usize, DeskError>
    requires { IsScoredFolder bytes (folder_on shelf.old) (names_seen day) }
    ensures counted { IfOk result (λ claims.
        (scored : IsScoredFolder bytes (folder_on shelf.old) (names_seen day.entry))
        → IsCountOf scored.answer.appended claims) }
    ensures no_fault { result ≡ Err DeskError.Failed → ⊥ }
{
    match check_proof(alloc, shelf, day, bytes) {
        Ok(Checked::Accepted { claims }) => Ok(claims),
        Ok(Checked::Refused(_)) => unreachable!(),
        Err(Halt::Refused(_)) => unreachable!(),
        Err(Halt::Stopped(stop)) => Err(stop),
    }
}

/// The answer of `demo NUMBER`, where a shelf has the files of that day and no others.
fn announce<S: Search>(
    alloc: Global,
    shelf: &mut Shelf,
    search: &S,
    day: DayNumber,
    names: DayNames<'_>,
    stewards: &mut Vec<Box<dyn Steward>>,
) -> Result<Answer, DeskError>
    requires ready { S.ready search.now }
    requires files { HasJust (generated_files day.number) (folder_on shelf.old) }
    requires names { names_seen names ≡ demo_names }
    ensures right { IfOk result (λ answer. IsDemo
        (map (λ s. steward_rules (opening s) (fed s) (owed s)) stewards.old.items)
        day.number (answer_of answer)) }
    ensures no_fault { result ≡ Err DeskError.Failed → ⊥ }
    ensures kept { map (λ s. steward_rules (opening s) (fed s) (owed s)) stewards.new.items
        ≡ map (λ s. steward_rules (opening s) (fed s) (owed s)) stewards.old.items }
{
    let scored = score(alloc, shelf, search, names, stewards)?;
    let Status::Done = scored.status else {
        unreachable!()
    };
    let bytes = size_of(shelf, names.proof);
    let claims = accepted_claims(alloc, shelf, names, bytes)?;
    let mut text = scored.text;
    push_claims(&mut text, claims)?;
    Ok(Answer {
        status: Status::Done,
        text,
    })
}

/// The answer of `demo NUMBER`: the sheet of the generated day of that number, and how many claims
/// its proof has, which the checker reads again, however large it is. Nothing outside is read, and
/// nothing appended. `search` searches the claims.
pub fn demo<S: Search>(
    alloc: Global,
    search: &S,
    day: DayNumber,
    stewards: &mut Vec<Box<dyn Steward>>,
) -> Result<Answer, DeskError>
    requires { S.ready search.now }
    ensures right { IfOk result (λ answer. IsDemo
        (map (λ s. steward_rules (opening s) (fed s) (owed s)) stewards.old.items)
        day.number (answer_of answer)) }
    ensures no_fault { result ≡ Err DeskError.Failed → ⊥ }
    ensures kept { map (λ s. steward_rules (opening s) (fed s) (owed s)) stewards.new.items
        ≡ map (λ s. steward_rules (opening s) (fed s) (owed s)) stewards.old.items }
{
    let mut shelf = Shelf::new(alloc, generated_day(alloc, day.number)?)?;
    let task = task_name(alloc)?;
    let proof = Name::from_text(alloc, PROOF)?;
    let names = DayNames {
        task: &task,
        proof: &proof,
    };
    announce(alloc, &mut shelf, search, day, names, stewards)
}
