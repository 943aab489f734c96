ghost use Rattle.std.specs.Prelude.{◌++◌, map, IfErr, IfOk, OnOk};
ghost use Rattle.std.specs.List.{flat_map};
ghost use Rattle.gl_proof.specs.Claim.{claim_text, statement_of};
ghost use Rattle.gl_proof.specs.Text.{proof_text};
ghost use Rattle.gl_proof.specs.declared.version.Version.TheVariants.{Two};
ghost use Rattle.gl_words.specs.BadgeWords.{badge_seen};
ghost use Rattle.gl_answer.specs.Appending.{HasAppended, HasAppendedPart};
ghost use Rattle.gl_app.specs.Badge.{badge_promise};
ghost use Rattle.gl_answer.specs.Given.{HasAnswered, IsStopped};

use gl_answer::{Answer, Status, answer_halt, append_piece};
use gl_badge::prove_badges;
use gl_day::{end_line, heading_line};
use gl_day_claims::append_claim;
use gl_desk::{Desk, DeskError, Name};
use gl_flights::test_badge_files;
use gl_proof::Claim;
use gl_words::BadgeWords;
use std::alloc::Global;

/// Appends the lines of claims to a proof, one claim after the other. After an error a first part
/// of them was appended.
fn append_claims<D: Desk>(
    alloc: Global,
    desk: &mut D,
    proof: &Name,
    claims: &[Claim],
) -> Result<(), DeskError>
    ensures appended { OnOk result (HasAppended proof.now
        (flat_map claim_text (map statement_of claims.now))
        (D.told desk.old) (D.told desk.new)) }
    ensures stopped { IfErr result (HasAppendedPart proof.now
        (flat_map claim_text (map statement_of claims.now))
        (D.told desk.old) (D.told desk.new)) }
{
    for claim in claims {
        append_claim(alloc, desk, proof, claim)?;
    }
    Ok(())
}

/// Appends the text of a proof that has these claims. After an error a first part of it was
/// appended.
fn append_proof<D: Desk>(
    alloc: Global,
    desk: &mut D,
    proof: &Name,
    claims: &[Claim],
) -> Result<(), DeskError>
    ensures appended { OnOk result (HasAppended proof.now
        (proof_text Two (map statement_of claims.now)) (D.told desk.old) (D.told desk.new)) }
    ensures stopped { IfErr result (HasAppendedPart proof.now
        (proof_text Two (map statement_of claims.now)) (D.told desk.old) (D.told desk.new)) }
{
    append_piece(alloc, desk, proof, heading_line())?;
    append_claims(alloc, desk, proof, claims)?;
    append_piece(alloc, desk, proof, end_line())
}

/// The answer of `badge FILE PROOF`: which badge limits a flight met. The proof of it is appended
/// to the file.
pub fn badge<D: Desk>(
    alloc: Global,
    desk: &mut D,
    words: BadgeWords<'_>,
) -> Result<Answer, DeskError>
    ensures right { IfOk result (HasAnswered
        (badge_promise (D.told desk.old).folder (badge_seen words.entry))
        (D.told desk.old) (D.told desk.new)) }
    ensures stopped { IfErr result (IsStopped
        (badge_promise (D.told desk.old).folder (badge_seen words.entry))
        (D.told desk.old) (D.told desk.new)) }
{
    let names = desk.names(alloc)?;
    let recording = match test_badge_files(alloc, desk, &names, words) {
        Ok(recording) => recording,
        Err(halt) => return answer_halt(alloc, halt),
    };
    let badges = prove_badges(alloc, &recording)?;
    append_proof(alloc, desk, words.proof, badges.claims.as_slice())?;
    Ok(Answer {
        status: Status::Done,
        text: badges.lines,
    })
}
