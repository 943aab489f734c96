ghost use Rattle.std.specs.Prelude.{◌≡◌, ◌<◌, length, slice_set, IfNone, IfSome};
ghost use Rattle.std.specs.Bool.{OnFalse};
ghost use Rattle.gl_box.specs.Cell.{ends};
ghost use Rattle.gl_goal.specs.Goal.{whole_cell};
ghost use Rattle.gl_goal.specs.TriangleGoal.{triangle_rule};
ghost use Rattle.gl_triangle.specs.Code.Legs.{AreAtMost, AreLegs};
ghost use Rattle.gl_triangle.specs.Code.Node.{AreNumbered, HoldsNone, HoldsNoMore, IsNode, fixes_of};
ghost use Rattle.gl_triangle.specs.Code.Order.{IsOrder};
ghost use Rattle.gl_triangle.specs.Code.Spans.{AreWithin, axis_of, cell_of};

use crate::legs::Legs;
use crate::order::Order;
use crate::spans::{Corner, Spans};
use gl_box::Span;
use gl_goal::TriangleGoal;

/// Spans that may hold a better triangle than what was found, the least and the greatest number of
/// the fixes in each, the legs between them, and how long fair legs are there at most.
#[derive(Clone, Copy)]
pub(crate) struct Node {
    pub spans: Spans,
    pub numbers: Spans,
    pub legs: Legs,
    pub bound: u64,
}

/// Whether some places of the spans may be in their order, on a flight that closes past the first
/// and the last of their fixes.
#[inline]
fn is_possible(goal: &TriangleGoal, order: &Order, spans: &Spans, numbers: &Spans) -> bool
    requires within { AreWithin (fixes_of goal.now) numbers.now }
    requires numbers { AreNumbered order.now spans.now numbers.now }
    ensures { OnFalse result (HoldsNone goal.now order.now (cell_of spans.now)) }
{
    spans.first.lo <= spans.second.hi
        && spans.first.lo.max(spans.second.lo) <= spans.third.hi
        && goal.closes(numbers.least_high(), numbers.greatest_low())
}

impl Node {
    /// The spans, where they may hold a triangle that is worth more than `known`.
    #[inline]
    fn of(spans: Spans, numbers: Spans, legs: Legs, known: u64) -> Option<Node>
        ensures spans { IfSome result (λ node. node.spans ≡ spans) }
        ensures numbers { IfSome result (λ node. node.numbers ≡ numbers) }
        ensures legs { IfSome result (λ node. node.legs ≡ legs) }
        ensures bound { IfSome result (λ node. AreAtMost legs node.bound) }
        ensures above { IfSome result (λ node. known < node.bound) }
        ensures none { IfNone result (AreAtMost legs known) }
    {
        let bound = legs.promise(known)?;
        Some(Node {
            spans,
            numbers,
            legs,
            bound,
        })
    }

    /// The span of all places at each corner, where it may hold a triangle that is worth more than
    /// `known`.
    pub fn whole(goal: &TriangleGoal, order: &Order, known: u64) -> Option<Node>
        requires { IsOrder (fixes_of goal.now) order.now }
        ensures node { IfSome result (IsNode (fixes_of goal.now) order.now) }
        ensures whole { IfSome result (λ node.
            cell_of node.spans ≡ whole_cell (triangle_rule goal.now).axes) }
        ensures above { IfSome result (λ node. known < node.bound) }
        ensures none { IfNone result
            (HoldsNoMore goal.now order.now (whole_cell (triangle_rule goal.now).axes) known) }
    {
        let hulls = order.hulls(goal);
        let spans = Spans::whole(hulls);
        Node::of(spans, spans, Legs::between(hulls, &spans), known)
    }

    /// The node with another span at a corner, where it may hold a triangle that is worth more than
    /// `known`.
    #[inline]
    pub fn narrowed(
        &self,
        goal: &TriangleGoal,
        order: &Order,
        corner: Corner,
        span: Span,
        known: u64,
    ) -> Option<Node>
        requires order { IsOrder (fixes_of goal.now) order.now }
        requires node { IsNode (fixes_of goal.now) order.now self.now }
        requires inside { span.hi < length (fixes_of goal.now) }
        ensures node { IfSome result (IsNode (fixes_of goal.now) order.now) }
        ensures spans { IfSome result (λ node. cell_of node.spans
            ≡ slice_set (cell_of self.now.spans) (axis_of corner) (ends span)) }
        ensures above { IfSome result (λ node. known < node.bound) }
        ensures none { IfNone result (HoldsNoMore goal.now order.now
            (slice_set (cell_of self.now.spans) (axis_of corner) (ends span)) known) }
    {
        let spans = self.spans.with(corner, span);
        let numbers = self.numbers.with(corner, order.numbers(goal, span));
        if !is_possible(goal, order, &spans, &numbers) {
            return None;
        }
        let legs = self.legs.remeasured(order.hulls(goal), &spans, corner);
        Node::of(spans, numbers, legs, known)
    }
}
