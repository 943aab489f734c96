ghost use Rattle.std.specs.Prelude.{◌≡◌, ◌↔◌, ℕ, List, IfOk, IfSome, IsNone};
ghost use Rattle.gl_near.specs.Pairing.{IsLeast};
ghost use Rattle.gl_near.specs.Pairs.{pairing_of};
ghost use Rattle.gl_near.specs.Certificate.{IsSound, total_of};
ghost use Rattle.gl_near.specs.declared.found.NearWhy.{NearWhy};
ghost use Rattle.gl_near.specs.declared.answer.NearVerdict.{NearVerdict};
ghost use Rattle.gl_near.specs.declared.answer.NearVerdict.TheVariants.{Yes};
ghost use Rattle.gl_near.specs.Verdict.{IsCertifiedClaim, IsCheckedAs, IsVerdict};

use crate::answer::NearVerdict;
use crate::boxes::said_of;
use crate::claim::NearClaim;
use crate::found::NearBest;
use crate::pairs::Pairs;
use std::alloc::{AllocError, Global};

/// What is wrong with the pair of a claim and its total: `Pair` or `Total`, or nothing.
pub(crate) fn fault_of(pairs: &Pairs, best: Option<NearBest>) -> Option<NearVerdict>
    ensures fault { IfSome result (λ verdict. (boxes : List (List (ℕ × ℕ) × NearWhy))
        → IsVerdict (pairing_of pairs.now) best boxes verdict) }
    ensures none { IsNone result → IsSound (pairing_of pairs.now) best }
{
    let best = best?;
    let Some(distance) = pairs.distance(best.first, best.second) else {
        return Some(NearVerdict::Pair);
    };
    if distance != best.total {
        return Some(NearVerdict::Total);
    }
    None
}

/// What is said of a claim. The only error is want of memory.
fn verdict_of(alloc: Global, pairs: &Pairs, claim: &NearClaim) -> Result<NearVerdict, AllocError>
    ensures { IfOk result (IsCheckedAs (pairing_of pairs.now) claim.now) }
{
    if let Some(verdict) = fault_of(pairs, claim.best) {
        return Ok(verdict);
    }
    Ok(NearVerdict::from(said_of(alloc, pairs, claim.best, &claim.closed)?))
}

/// Checks a claim against its pairs: `Yes` exactly where it is a certificate, and else the first
/// thing that is wrong, in the order of [`NearVerdict`] and then of the boxes. Nothing is taken on
/// trust of whoever made the claim. Where the answer is `Yes`, the total is the least distance. The
/// only error is want of memory.
pub fn check_near(alloc: Global, p: &Pairs, c: &NearClaim) -> Result<NearVerdict, AllocError>
    ensures verdict { IfOk result (IsCheckedAs (pairing_of p.now) c.now) }
    ensures only { IfOk result (λ verdict. (other : NearVerdict)
        → IsCheckedAs (pairing_of p.now) c.now other → other ≡ verdict) }
    ensures yes { IfOk result (λ verdict.
        (verdict ≡ Yes) ↔ IsCertifiedClaim (pairing_of p.now) c.now) }
    ensures least { IfOk result (λ verdict.
        verdict ≡ Yes → IsLeast (pairing_of p.now) (total_of c.now.best)) }
{
    verdict_of(alloc, p, c)
}
