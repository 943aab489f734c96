ghost use Rattle.std.specs.Prelude.{◌≡◌, ◌≢◌, ◌↔◌, ◌⊎◌, ◌++◌, ◌<◌, ℕ, List, length, map, IfOk, IfErr, IsErrOf, IsTrue, MatchResult};
ghost use Rattle.gl_proof.specs.Fronts.{Reads};
ghost use Rattle.gl_proof.specs.declared.error.ProofError.{ProofError};
ghost use Rattle.gl_proof.specs.declared.error.ProofError.TheVariants.{Memory};
ghost use Rattle.gl_proof.specs.Claim.{Statement, statement_of};
ghost use Rattle.gl_proof.specs.Code.Fronts.{IsHeadingAt};
ghost use Rattle.gl_proof.specs.Line.{EndLine, ended};
ghost use Rattle.gl_proof.specs.Code.Passage.{NoBox};
ghost use Rattle.gl_proof.specs.Reading.{AreClaimsAt};
ghost use Rattle.gl_proof.specs.Refusal.{IsRefused};
ghost use Rattle.gl_proof.specs.Text.{IsTextOf, statements_of};
ghost use Rattle.gl_proof.specs.declared.version.Version.{Version};

use crate::claim::Claim;
use crate::claim_lines::claim_at;
use crate::error::ProofError;
use crate::front::behind;
use crate::proof::Proof;
use crate::told::later;
use crate::version::Version;
use std::alloc::Global;

/// The line with which a proof ends.
const END: &[u8] = b"END\n";

/// The version that the heading at the front of a text tells, and what follows the heading.
pub(crate) fn heading_at(text: &[u8]) -> Option<(Version, &[u8])>
    ensures { Reads (λ version. version) (IsHeadingAt text.now) result }
{
    if let Some(rest) = behind(text, b"GLIDEPROOF 1\n") {
        return Some((Version::One, rest));
    }
    if let Some(rest) = behind(text, b"GLIDEPROOF 2\n") {
        return Some((Version::Two, rest));
    }
    None
}

/// Whether the line at the front of a text ends a proof.
fn is_end(text: &[u8]) -> bool
    ensures { IsTrue result ↔ ((rest : List ℕ) × (text.now ≡ ended EndLine ++ rest)) }
{
    behind(text, END).is_some()
}

/// The proof of a text whose first claims are read already, the last of them with all its boxes, or
/// why it is none. What follows them is given, and the number of its first line.
pub(crate) fn read_claims(
    alloc: Global,
    version: Version,
    mut claims: Vec<Claim>,
    text: &[u8],
    mut line: u32,
) -> Result<Proof, ProofError>
    requires { 0 < length claims.items → NoBox text.now }
    ensures ok { IfOk result (λ proof. (whole : List ℕ)
        → AreClaimsAt version whole (map statement_of claims.items) text.now line
        → IsTextOf proof.version whole (statements_of proof)) }
    ensures refused { IfErr result (λ error. (whole : List ℕ)
        → AreClaimsAt version whole (map statement_of claims.items) text.now line
        → IsRefused whole error) }
{
    let mut rest = text;
    'claims: while !is_end(rest) {
        let (claim, after, next) = match claim_at(alloc, rest, line) {
            Ok(read) => read,
            Err(error) => return Err(error),
        };
        claims.push(claim)?;
        rest = after;
        line = next;
    }
    if rest.len() > END.len() {
        return Err(ProofError::Line(later(line, 1)));
    }
    Ok(Proof { version, claims })
}

/// The proof of a text, or why it is none.
pub(crate) fn read_lines(alloc: Global, text: &[u8]) -> Result<Proof, ProofError>
    ensures ok { IfOk result (λ proof. IsTextOf proof.version text.now (statements_of proof)) }
    ensures refused { IfErr result (IsRefused text.now) }
{
    let Some((version, rest)) = heading_at(text) else {
        return Err(ProofError::Heading);
    };
    read_claims(alloc, version, Vec::new(alloc), rest, 2)
}

/// Reads a proof from its text, as docs/proof-file.md has it: the one proof, of the one version,
/// with
/// this text. So what was written is read again, and there is no second spelling of a proof.
///
/// [`ProofError::Heading`] comes where the text doesn't begin with the heading of a version and its
/// LF,
/// [`ProofError::Line`] with the first line, ended by LF, that may not stand where it stands, or
/// that begins behind the end, and [`ProofError::Cut`] where neither of these is so and the end is
/// missing; [`ProofError::Memory`] only for want of memory.
pub fn read_proof(alloc: Global, text: &[u8]) -> Result<Proof, ProofError>
    // What is read has this text, and what has this text is read.
    ensures ok { IfOk result (λ proof. IsTextOf proof.version text.now (statements_of proof)) }
    ensures only { (version : Version) (statements : List Statement)
        → IsTextOf version text.now statements
        → MatchResult result
        (λ proof. (proof.version ≡ version) × (statements_of proof ≡ statements))
        (λ error. error ≡ Memory) }

    // What is told is so, and what is so is told.
    ensures refused { IfErr result (IsRefused text.now) }
    ensures exact { (error : ProofError) → error ≢ Memory → IsRefused text.now error
        → IsErrOf result error ⊎ IsErrOf result Memory }
{
    read_lines(alloc, text)
}
