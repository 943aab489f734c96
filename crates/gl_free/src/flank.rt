ghost use Rattle.std.specs.Prelude.{◌≡◌, ◌+◌, ◌*◌, ◌<◌, ◌≤◌, ◌^◌, [], ◌∷◌, ◌++◌, List, max, length, take, IfOk, OnOk};
ghost use Rattle.gl_box.specs.Cell.{ends};
ghost use Rattle.gl_igc.specs.declared.fix.Fix.{Fix};
ghost use Rattle.gl_goal.specs.Near.{IsPlaceOf};
ghost use Rattle.gl_free.specs.Code.Arms.{IsTop};
ghost use Rattle.gl_free.specs.Code.Candidates.{IsAmong, IsCandidate, IsFlank, IsPart, Sifts, Starts};
ghost use Rattle.gl_free.specs.Code.Farthest.{IsBeyond, IsFarthest, IsNode};

use crate::arm::{Arm, Part};
use crate::candidate::{Candidate, Inner};
use crate::ends::Ends;
use crate::far::{Far, farthest};
use crate::known::Known;
use crate::node::{Node, halves};
use crate::side::Side;
use gl_box::Span;
use gl_goal::Hulls;
use std::alloc::{AllocError, Global};

/// More than any two legs.
const MORE_THAN_ARMS: u64 = 1 << 41;

/// What is kept of one side of the middle fix: the farthest ends that are known, and candidates for
/// the inner fix.
#[derive(Drop)]
pub(crate) struct Flank {
    pub known: Vec<Known>,
    pub candidates: Vec<Candidate>,
}

/// Where the farthest end from a span is kept.
#[inline]
fn slot_of(span: Span) -> usize
    ensures { result ≤ 2 * span.hi }
{
    let sum = span.lo as usize + span.hi as usize;
    if span.lo == span.hi {
        sum
    } else {
        sum / 2 * 2 + 1
    }
}

/// What two legs have to be above, with one more, to be of use: for a single middle fix the
/// greatest will do.
#[inline]
fn floor(middle: &Node, need: u64, arm: &Arm) -> u64
    ensures at_least { need ≤ result }
    ensures at_most { result ≤ max need arm.now.most }
    ensures wide { middle.now.span.lo < middle.now.span.hi → result ≡ need }
{
    if middle.is_single() {
        need.max(arm.most)
    } else {
        need
    }
}

impl Flank {
    /// With nothing known yet about so many fixes. The only error is want of memory.
    pub(crate) fn new(alloc: Global, fixes: usize) -> Result<Flank, AllocError>
        requires { fixes ≤ 90_000 }
        ensures { IfOk result (λ flank.
            (list : List Fix) → length list ≡ fixes → IsFlank list flank) }
    {
        let nothing = Known {
            span: Span::point(0),
            ends: Ends {
                side: Side::Before,
                lowest: 0,
                highest: -1,
            },
            far: Far { value: 0, place: 0 },
        };
        Ok(Flank {
            known: vec![in alloc; nothing; 2 * fixes]?,
            candidates: Vec::with_capacity(alloc, 2 * fixes)?,
        })
    }

    /// The farthest allowed end from a span.
    #[inline]
    fn farthest(&mut self, hulls: &Hulls, allowed: &Ends, span: Span, guess: u32) -> Far
        requires flank { IsFlank hulls.now self.old }
        requires inside { span.hi < length hulls.now }
        ensures flank { IsFlank hulls.now self.new }
        ensures farthest { IsFarthest hulls.now allowed.now (ends span) result }
        ensures candidates { self.new.candidates ≡ self.old.candidates }
    {
        let slot = slot_of(span);
        let known = self.known[slot];
        if known.span == span && known.ends == *allowed {
            return known.far;
        }
        let far = farthest(hulls, allowed, span, guess);
        self.known[slot] = Known {
            span,
            ends: *allowed,
            far,
        };
        far
    }

    /// Keeps a candidate: among the others, where the middle has more places than one, and as the
    /// greatest, where it is. The only error is want of memory.
    #[inline]
    fn keep(&mut self, middle: &Node, candidate: Candidate, arm: &mut Arm) -> Result<(), AllocError>
        ensures known { self.new.known ≡ self.old.known }
        ensures single { OnOk result (middle.now.span.lo ≡ middle.now.span.hi
            → self.new.candidates.items ≡ self.old.candidates.items) }
        ensures wide { OnOk result (middle.now.span.lo < middle.now.span.hi
            → self.new.candidates.items ≡ self.old.candidates.items ++ candidate ∷ []) }
        ensures greater { arm.old.most < candidate.most → arm.new ≡ record {
          most = candidate.most;
          inner = candidate.span.lo;
          end = candidate.far.place;
        } }
        ensures not_greater { candidate.most ≤ arm.old.most → arm.new ≡ arm.old }
    {
        if candidate.most > arm.most {
            *arm = Arm {
                most: candidate.most,
                inner: candidate.span.lo,
                end: candidate.far.place,
            };
        }
        if !middle.is_single() {
            self.candidates.push(candidate)?;
        }
        Ok(())
    }

    /// Keeps what of a span may have legs above the need, split until it is no wider than the
    /// middle. The only error is want of memory.
    fn put(
        &mut self,
        hulls: &Hulls,
        allowed: &Ends,
        middle: &Node,
        need: u64,
        inner: Inner,
        arm: &mut Arm,
    ) -> Result<(), AllocError>
        requires flank { IsFlank hulls.now self.old }
        requires middle { IsNode hulls.now middle.now }
        requires inside { inner.span.hi < length hulls.now }
        requires beyond { IsBeyond hulls.now allowed.now (ends inner.span) inner.far.value }
        requires limited { inner.far.value ≤ 2 ^ 40 }
        requires top { IsTop hulls.now allowed.now (ends middle.now.span) arm.old }
        ensures flank { OnOk result (IsFlank hulls.now self.new) }
        ensures sifts { OnOk result (Sifts hulls.now allowed.now (ends middle.now.span) need
            (IsPlaceOf (ends inner.span)) self.old.candidates.items self.new.candidates.items
            arm.old.most arm.new) }
    {
        let Inner { span, far: above } = inner;
        if allowed.side.is_out(span, middle.span) {
            return Ok(());
        }
        let need_now = floor(middle, need, arm);
        let leg = middle.leg_from(hulls, span);
        if above.value + leg <= need_now {
            return Ok(());
        }
        let far = self.farthest(hulls, allowed, span, above.place);
        let most = far.value + leg;
        if far.value == 0 || most <= need_now {
            return Ok(());
        }
        if span.width() <= middle.span.width() {
            self.keep(middle, Candidate { span, far, most }, arm)?;
            return Ok(());
        }
        let (lower, upper) = halves(span);
        let lower = Inner { span: lower, far };
        let upper = Inner { span: upper, far };
        self.put(hulls, allowed, middle, need, lower, arm)?;
        self.put(hulls, allowed, middle, need, upper, arm)?;
        Ok(())
    }

    /// Keeps what of a candidate for a wider middle may have legs above the need. The only error is
    /// want of memory.
    #[inline]
    fn sift(
        &mut self,
        hulls: &Hulls,
        allowed: &Ends,
        middle: &Node,
        need: u64,
        candidate: Candidate,
        arm: &mut Arm,
    ) -> Result<(), AllocError>
        requires flank { IsFlank hulls.now self.old }
        requires middle { IsNode hulls.now middle.now }
        requires candidate { IsCandidate hulls.now allowed.now (ends middle.now.span) candidate }
        requires top { IsTop hulls.now allowed.now (ends middle.now.span) arm.old }
        ensures flank { OnOk result (IsFlank hulls.now self.new) }
        ensures sifts { OnOk result (Sifts hulls.now allowed.now (ends middle.now.span) need
            (IsPlaceOf (ends candidate.span)) self.old.candidates.items self.new.candidates.items
            arm.old.most arm.new) }
    {
        let Candidate { span, far, most } = candidate;
        if most <= need || allowed.side.is_out(span, middle.span) {
            return Ok(());
        }
        if span.width() > middle.span.width() {
            let (lower, upper) = halves(span);
            let lower = Inner { span: lower, far };
            let upper = Inner { span: upper, far };
            self.put(hulls, allowed, middle, need, lower, arm)?;
            self.put(hulls, allowed, middle, need, upper, arm)?;
            return Ok(());
        }
        let most = far.value + middle.leg_from(hulls, span);
        if most <= need {
            return Ok(());
        }
        self.keep(middle, Candidate { span, far, most }, arm)?;
        Ok(())
    }

    /// Of the candidates for a wider middle those that may have legs above the need, and the
    /// greatest of them. What comes after the part is cut back. The only error is want of memory.
    pub(crate) fn refine(
        &mut self,
        hulls: &Hulls,
        allowed: &Ends,
        middle: &Node,
        part: Part,
        need: u64,
    ) -> Result<Arm, AllocError>
        requires flank { IsFlank hulls.now self.old }
        requires middle { IsNode hulls.now middle.now }
        requires part { IsPart hulls.now allowed.now (ends middle.now.span)
            self.old.candidates.items part }
        ensures flank { OnOk result (IsFlank hulls.now self.new) }
        ensures sifts { IfOk result (Sifts hulls.now allowed.now (ends middle.now.span) need
            (IsAmong (take part.to self.old.candidates.items) part.from)
            (take part.to self.old.candidates.items) self.new.candidates.items 0) }
    {
        self.candidates.truncate(part.to);
        let mut arm = Arm {
            most: 0,
            inner: 0,
            end: 0,
        };
        for at in part.from..part.to {
            let candidate = self.candidates[at];
            self.sift(hulls, allowed, middle, need, candidate, &mut arm)?;
        }
        Ok(arm)
    }

    /// Starts with the whole as the only candidate, if it has an end that is allowed. The only
    /// error is want of memory.
    pub(crate) fn start(
        &mut self,
        hulls: &Hulls,
        allowed: &Ends,
        whole: Span,
    ) -> Result<Part, AllocError>
        requires flank { IsFlank hulls.now self.old }
        requires first { whole.lo ≡ 0 }
        requires last { whole.hi + 1 ≡ length hulls.now }
        ensures flank { OnOk result (IsFlank hulls.now self.new) }
        ensures starts { IfOk result
            (Starts hulls.now allowed.now (ends whole) self.new.candidates.items) }
    {
        self.candidates.clear();
        let far = self.farthest(hulls, allowed, whole, 0);
        if far.value == 0 {
            return Ok(Part {
                from: 0,
                to: 0,
                most: 0,
            });
        }
        self.candidates.push(Candidate {
            span: whole,
            far,
            most: MORE_THAN_ARMS,
        })?;
        Ok(Part {
            from: 0,
            to: 1,
            most: MORE_THAN_ARMS,
        })
    }
}
