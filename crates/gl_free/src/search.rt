ghost use Rattle.std.specs.Prelude.{◌≡◌, ◌+◌, ◌<◌, ◌≤◌, ◌^◌, length, take, IfOk, OnOk, MatchOption};
ghost use Rattle.gl_box.specs.Cell.{ends};
ghost use Rattle.gl_goal.specs.FreeGoal.{rule_of};
ghost use Rattle.gl_free.specs.Code.Arms.{IsTop};
ghost use Rattle.gl_free.specs.Code.Candidates.{IsPart};
ghost use Rattle.gl_free.specs.Code.Farthest.{IsNode};
ghost use Rattle.gl_free.specs.Code.Search.{AreBelow, AreFlanks, AreFound, AreSides, AreHalvesOf, IsBetter, IsHalted, IsNarrowed, IsValid, Keeps};

use crate::arm::{Arms, Part};
use crate::choice::choose;
use crate::ends::Sides;
use crate::flank::Flank;
use crate::node::{Node, halves};
use crate::stop::Stop;
use gl_box::Span;
use gl_goal::{Best, FreeGoal, Hulls};
use std::alloc::AllocError;

/// What a search has found so far, what it keeps of both sides of the middle fix, and how many
/// candidates it may still look at: at the start of a run so many at least.
#[derive(Drop)]
pub(crate) struct Search {
    pub before: Flank,
    pub after: Flank,
    pub best: Best,
    pub looks: usize,
    pub looks_of_a_run: usize,
}

/// The halves of a middle span, the one first that is farther from the inner fixes of the arms.
#[inline]
fn ordered(hulls: &Hulls, span: Span, arms: Arms) -> (Span, Span)
    requires cut { span.lo < span.hi }
    requires inside { span.hi < length hulls.now }
    requires before { arms.before.inner < length hulls.now }
    requires after { arms.after.inner < length hulls.now }
    ensures { AreHalvesOf (ends span) (ends result.0) (ends result.1) }
{
    let (lower, upper) = halves(span);
    let before = Node::new(hulls, Span::point(arms.before.inner));
    let after = Node::new(hulls, Span::point(arms.after.inner));
    let low = before.chord_from(hulls, lower) + after.chord_from(hulls, lower);
    let high = before.chord_from(hulls, upper) + after.chord_from(hulls, upper);
    if low < high {
        (upper, lower)
    } else {
        (lower, upper)
    }
}

impl Search {
    /// The greatest arms of a middle span, if there may be some that are worth more together than
    /// what was found. What may belong to such arms are then the candidates after both parts. The
    /// only error is want of memory.
    #[inline]
    fn narrow(
        &mut self,
        hulls: &Hulls,
        sides: &Sides,
        middle: &Node,
        before: Part,
        after: Part,
    ) -> Result<Option<Arms>, AllocError>
        requires limited { self.old.best.total < 2 ^ 63 }
        requires middle { IsNode hulls.now middle.now }
        requires flanks { AreFlanks hulls.now self.old }
        requires part_before { IsPart hulls.now sides.now.before (ends middle.now.span)
            self.old.before.candidates.items before }
        requires part_after { IsPart hulls.now sides.now.after (ends middle.now.span)
            self.old.after.candidates.items after }
        requires below { AreBelow hulls.now sides.now (ends middle.now.span) self.old.best.total
            before.most after.most }
        requires found { AreFound hulls.now sides.now (ends middle.now.span) self.old.best.total
            (take before.to self.old.before.candidates.items) before.from
            (take after.to self.old.after.candidates.items) after.from }
        ensures best { self.new.best ≡ self.old.best }
        ensures flanks { OnOk result (AreFlanks hulls.now self.new) }
        ensures kept_before { OnOk result
            (Keeps before self.old.before.candidates.items self.new.before.candidates.items) }
        ensures kept_after { OnOk result
            (Keeps after self.old.after.candidates.items self.new.after.candidates.items) }
        ensures narrowed { IfOk result (λ arms. MatchOption arms
            (¬ IsBetter hulls.now sides.now (ends middle.now.span) self.old.best.total)
            (IsNarrowed hulls.now sides.now (ends middle.now.span) self.new before after)) }
    {
        let looks = (before.to - before.from) + (after.to - after.from);
        self.looks = self.looks.saturating_sub(looks);
        let most = self.best.total + 2;
        if before.most + after.most <= most {
            return Ok(None);
        }
        let need = most.saturating_sub(after.most);
        let before = self
            .before
            .refine(hulls, &sides.before, middle, before, need)?;
        if before.most == 0 {
            return Ok(None);
        }
        let need = most.saturating_sub(before.most);
        let after = self.after.refine(hulls, &sides.after, middle, after, need)?;
        if after.most == 0 {
            return Ok(None);
        }
        Ok(Some(Arms { before, after }))
    }

    /// Looks for better choices with their middle fix in a span, among the candidates of two parts.
    /// Stops at ends of which the last is too low, and answers them, and where no look is left. The
    /// only error is want of memory.
    pub(crate) fn middle(
        &mut self,
        goal: &FreeGoal,
        hulls: &Hulls,
        sides: &Sides,
        span: Span,
        before: Part,
        after: Part,
    ) -> Result<Stop, AllocError>
        requires same { hulls.now ≡ goal.now.hulls }
        requires valid { IsValid (rule_of goal.now) self.old.best }
        requires sides { AreSides sides.now }
        requires inside { span.hi < length hulls.now }
        requires flanks { AreFlanks hulls.now self.old }
        requires part_before { IsPart hulls.now sides.now.before (ends span)
            self.old.before.candidates.items before }
        requires part_after { IsPart hulls.now sides.now.after (ends span)
            self.old.after.candidates.items after }
        requires below { AreBelow hulls.now sides.now (ends span) self.old.best.total
            before.most after.most }
        requires found { AreFound hulls.now sides.now (ends span) self.old.best.total
            (take before.to self.old.before.candidates.items) before.from
            (take after.to self.old.after.candidates.items) after.from }
        ensures valid { OnOk result (IsValid (rule_of goal.now) self.new.best) }
        ensures raised { OnOk result (self.old.best.total ≤ self.new.best.total) }
        ensures flanks { OnOk result (AreFlanks hulls.now self.new) }
        ensures kept_before { OnOk result
            (Keeps before self.old.before.candidates.items self.new.before.candidates.items) }
        ensures kept_after { OnOk result
            (Keeps after self.old.after.candidates.items self.new.after.candidates.items) }
        ensures halted { IfOk result (IsHalted hulls.now sides.now (ends span) goal.now.loss
            self.new.best.total) }
    {
        if self.looks == 0 {
            return Ok(Stop::GivenUp);
        }
        let node = Node {
            span,
            hull: hulls.hull(span),
        };
        let Some(arms) = self.narrow(hulls, sides, &node, before, after)? else {
            return Ok(Stop::Done);
        };
        if node.is_single() {
            return Ok(Stop::after(choose(goal, &mut self.best, span.lo, arms)));
        }
        let before = Part {
            from: before.to,
            to: self.before.candidates.len(),
            most: arms.before.most,
        };
        let after = Part {
            from: after.to,
            to: self.after.candidates.len(),
            most: arms.after.most,
        };
        let (first, second) = ordered(hulls, span, arms);
        let stop = self.middle(goal, hulls, sides, first, before, after)?;
        if !stop.is_done() {
            return Ok(stop);
        }
        let stop = self.middle(goal, hulls, sides, second, before, after)?;
        Ok(stop)
    }
}
