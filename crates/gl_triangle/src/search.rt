ghost use Rattle.std.specs.Prelude.{◌≡◌, ◌≤◌, ◌++◌, ◌⊎◌, ◌↔◌, [], IfOk, IsNone, IsTrue, OnOk};
ghost use Rattle.std.specs.Option.{option_to_list};
ghost use Rattle.gl_goal.specs.Goal.{HasNoLegal, IsOptimum};
ghost use Rattle.gl_goal.specs.TriangleGoal.{triangle_rule};
ghost use Rattle.gl_goal.specs.Best.{IsSound, total_of};
ghost use Rattle.gl_triangle.specs.Code.Node.{IsNode, IsVisited, fixes_of};
ghost use Rattle.gl_triangle.specs.Code.Order.{IsOrder};
ghost use Rattle.gl_triangle.specs.Code.Search.{IsUnderWay, worth_of};

use crate::found::{consider, worth};
use crate::node::Node;
use crate::order::Order;
use crate::warm::warm_start;
use gl_box::Span;
use gl_goal::{Best, TriangleGoal};
use gl_places::ByPlace;
use std::alloc::{AllocError, Global};

/// Room for open nodes: each cut adds one, and a span is cut at most 17 times.
const OPEN_ROOM: usize = 64;

/// How many nodes are looked at in time order. The flights that were measured take at most a tenth
/// of them.
const LOOKS_IN_TIME: u32 = 500_000;

/// Two nodes, if they are there, the one with the greater bound last.
#[inline]
fn in_order(lower: Option<Node>, upper: Option<Node>) -> (Option<Node>, Option<Node>)
    ensures { (result ≡ (lower, upper)) ⊎ (result ≡ (upper, lower)) }
{
    match (&lower, &upper) {
        (Some(low), Some(high)) if high.bound <= low.bound => (upper, lower),
        _ => (lower, upper),
    }
}

/// Puts a node, if there is one, on top. The only error is want of memory.
#[inline]
fn push_some(nodes: &mut Vec<Node>, node: Option<Node>) -> Result<(), AllocError>
    ensures { OnOk result (nodes.new.items ≡ nodes.old.items ++ option_to_list node) }
{
    if let Some(node) = node {
        nodes.push(node)?;
    }
    Ok(())
}

/// Looks at a node, unless what was found since it was put there is as good as anything in it: its
/// halves that may hold a better triangle are put on top, and a single choice of places is
/// considered. The only error is want of memory.
#[inline]
fn visit(
    goal: &TriangleGoal,
    order: &Order,
    node: &Node,
    best: &mut Option<Best>,
    nodes: &mut Vec<Node>,
) -> Result<(), AllocError>
    requires order { IsOrder (fixes_of goal.now) order.now }
    requires node { IsNode (fixes_of goal.now) order.now node.now }
    requires sound { IsSound (triangle_rule goal.now) best.old }
    ensures sound { IsSound (triangle_rule goal.now) best.new }
    ensures grows { worth_of best.old ≤ worth_of best.new }
    ensures visited { OnOk result (IsVisited goal.now order.now node.now (worth_of best.new)
        nodes.old.items nodes.new.items) }
{
    let known = worth(best);
    if node.bound <= known {
        return Ok(());
    }
    let Some(corner) = node.spans.corner_to_cut(order.hulls(goal)) else {
        consider(goal, order.in_time(goal, node.spans.lowest()), best);
        return Ok(());
    };
    let span = node.spans.at(corner);
    let middle = span.lo + (span.hi - span.lo) / 2;
    let lower = Span {
        lo: span.lo,
        hi: middle,
    };
    let upper = Span {
        lo: middle + 1,
        hi: span.hi,
    };
    let low = node.narrowed(goal, order, corner, lower, known);
    let high = node.narrowed(goal, order, corner, upper, known);
    let (less, greater) = in_order(low, high);
    push_some(nodes, less)?;
    push_some(nodes, greater)
}

/// Begins with all places at each corner. The only error is want of memory.
fn begin(
    alloc: Global,
    goal: &TriangleGoal,
    order: &Order,
    best: &Option<Best>,
) -> Result<Vec<Node>, AllocError>
    requires order { IsOrder (fixes_of goal.now) order.now }
    requires sound { IsSound (triangle_rule goal.now) best.now }
    ensures { IfOk result (λ nodes. IsUnderWay goal.now order.now best.now nodes.items) }
{
    let mut nodes = Vec::with_capacity(alloc, OPEN_ROOM)?;
    push_some(&mut nodes, Node::whole(goal, order, worth(best)))?;
    Ok(nodes)
}

/// Goes on until no node is open. The only error is want of memory.
fn run(
    goal: &TriangleGoal,
    order: &Order,
    best: &mut Option<Best>,
    nodes: &mut Vec<Node>,
) -> Result<(), AllocError>
    requires order { IsOrder (fixes_of goal.now) order.now }
    requires way { IsUnderWay goal.now order.now best.old nodes.old.items }
    ensures { OnOk result (IsUnderWay goal.now order.now best.new []) }
{
    while let Some(node) = nodes.pop() {
        visit(goal, order, &node, best, nodes)?;
    }
    Ok(())
}

/// Looks in time order, so often at most. Answers whether no node is open any more. The only error
/// is want of memory.
fn look(
    alloc: Global,
    goal: &TriangleGoal,
    looks: u32,
    best: &mut Option<Best>,
) -> Result<bool, AllocError>
    requires { IsSound (triangle_rule goal.now) best.old }
    ensures sound { OnOk result (IsSound (triangle_rule goal.now) best.new) }
    ensures done { IfOk result (λ is_done.
        IsTrue is_done → IsUnderWay goal.now Order.InTime best.new []) }
{
    let mut nodes = begin(alloc, goal, &Order::InTime, best)?;
    for _ in 0..looks {
        let Some(node) = nodes.pop() else {
            return Ok(true);
        };
        visit(goal, &Order::InTime, &node, best, &mut nodes)?;
    }
    Ok(false)
}

/// Halves the fixes by place, until no node is open. The only error is want of memory.
fn search_by_place(
    alloc: Global,
    goal: &TriangleGoal,
    best: &mut Option<Best>,
) -> Result<(), AllocError>
    requires { IsSound (triangle_rule goal.now) best.old }
    ensures sound { OnOk result (IsSound (triangle_rule goal.now) best.new) }
    ensures optimum { OnOk result (IsOptimum (triangle_rule goal.now) (total_of best.new)) }
{
    let order = Order::ByPlace(ByPlace::new(alloc, goal.hulls())?);
    let mut nodes = begin(alloc, goal, &order, best)?;
    run(goal, &order, best, &mut nodes)
}

/// The greatest triangle of a goal, with a tuple that reaches it; `None` exactly where no tuple is
/// legal. Keeps no boxes. The only error is want of memory.
///
/// Spans of time are halved first. On a flight that comes to the same places again and again no
/// span of time is small, so after many looks the fixes are halved by place instead.
pub fn best_triangle(alloc: Global, goal: &TriangleGoal) -> Result<Option<Best>, AllocError>
    ensures reached { IfOk result (λ best. IsSound (triangle_rule goal.now) best) }
    ensures optimum { IfOk result
        (λ best. IsOptimum (triangle_rule goal.now) (total_of best)) }
    ensures none { IfOk result
        (λ best. IsNone best ↔ HasNoLegal (triangle_rule goal.now)) }
{
    let mut best = warm_start(alloc, goal)?;
    if !look(alloc, goal, LOOKS_IN_TIME, &mut best)? {
        search_by_place(alloc, goal, &mut best)?;
    }
    Ok(best)
}
