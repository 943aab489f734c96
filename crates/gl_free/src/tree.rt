ghost use Rattle.std.specs.Prelude.{◌≡◌, ℕ, ◌+◌, ◌*◌, ◌<◌, ◌≤◌, ◌^◌, All, IfOk, length, vec_len};
ghost use Rattle.gl_box.specs.Cell.{ends};
ghost use Rattle.gl_places.specs.ByPlace.{IsByPlace};
ghost use Rattle.gl_free.specs.Code.Ways.{AreAtMost, IsBranch, IsFound, IsKnown, IsTarget, IsThere, IsTree, IsWay, Lengthens, onward, way_to};

use crate::beaten::is_beaten;
use crate::branch::Branch;
use crate::node::halves;
use crate::way::{Longest, Most, Target};
use gl_box::Span;
use gl_goal::{Hull, Hulls, max_sq};
use gl_places::ByPlace;
use gl_sphere::{GREATEST_SQUARE, dist, sq};
use std::alloc::{AllocError, Global};

/// No way is longer, with one more.
const MOST_WAY: u64 = 1 << 40;

/// Spans of fewer fixes are looked at fix by fix.
const FEW: u32 = 32;

/// How long the way to each fix is, with one more, 0 where there is none, and what is known of the
/// spans of the order by place.
#[derive(Drop)]
pub(crate) struct Tree {
    pub ways: Vec<u64>,
    pub branches: Vec<Branch>,
}

/// Where a span is kept.
#[inline]
fn slot_of(span: Span) -> usize
    ensures { result ≤ 2 * span.hi }
{
    let sum = span.lo as usize + span.hi as usize;
    if span.lo == span.hi {
        sum
    } else {
        sum / 2 * 2 + 1
    }
}

/// What is true of each fix.
fn unknown() -> Branch
    ensures lo { result.numbers.lo ≡ 0 }
    ensures hi { result.numbers.hi ≡ 90_000 }
    ensures most { result.most ≡ MOST_WAY }
{
    Branch {
        span: Span::point(0),
        numbers: Span { lo: 0, hi: 90_000 },
        most: MOST_WAY,
    }
}

/// A span with what is known of its halves.
fn join(span: Span, lower: &Branch, upper: &Branch) -> Branch
    ensures span { result.span ≡ span }
    ensures lower_lo { result.numbers.lo ≤ lower.now.numbers.lo }
    ensures upper_lo { result.numbers.lo ≤ upper.now.numbers.lo }
    ensures lower_hi { lower.now.numbers.hi ≤ result.numbers.hi }
    ensures upper_hi { upper.now.numbers.hi ≤ result.numbers.hi }
    ensures lower_most { lower.now.most ≤ result.most }
    ensures upper_most { upper.now.most ≤ result.most }
{
    Branch {
        span,
        numbers: Span {
            lo: lower.numbers.lo.min(upper.numbers.lo),
            hi: lower.numbers.hi.max(upper.numbers.hi),
        },
        most: lower.most.max(upper.most),
    }
}

/// Writes a span, its halves, their halves and so on into a table. Answers what is known of the
/// span.
fn fill(numbers: &[u32], ways: &[u64], branches: &mut [Branch], span: Span) -> Branch
    requires inside { span.hi < length numbers.now }
    requires numbers { All (λ number. number < length ways.now) numbers.now }
    requires limited { All (λ way. way ≤ 2 ^ 40) ways.now }
    requires sized { length branches.old ≡ 2 * length numbers.now }
    requires branches { All (IsBranch numbers.now ways.now) branches.old }
    ensures span { result.span ≡ span }
    ensures branch { IsBranch numbers.now ways.now result }
    ensures sized { length branches.new ≡ 2 * length numbers.now }
    ensures branches { All (IsBranch numbers.now ways.now) branches.new }
{
    if span.lo == span.hi {
        let number = numbers[span.lo as usize];
        let branch = Branch {
            span,
            numbers: Span::point(number),
            most: ways[number as usize],
        };
        branches[slot_of(span)] = branch;
        return branch;
    }
    let (lower, upper) = halves(span);
    let low = fill(numbers, ways, branches, lower);
    let high = fill(numbers, ways, branches, upper);
    let branch = join(span, &low, &high);
    branches[slot_of(span)] = branch;
    branch
}

/// The table with all spans.
fn filled(numbers: &[u32], ways: &[u64], branches: Vec<Branch>) -> Vec<Branch>
    requires some { 0 < length numbers.now }
    requires few { length numbers.now ≤ 90_000 }
    requires numbers { All (λ number. number < length ways.now) numbers.now }
    requires limited { All (λ way. way ≤ 2 ^ 40) ways.now }
    requires sized { length branches.items ≡ 2 * length numbers.now }
    requires branches { All (IsBranch numbers.now ways.now) branches.items }
    ensures sized { length result.items ≡ 2 * length numbers.now }
    ensures branches { All (IsBranch numbers.now ways.now) result.items }
{
    let mut branches = branches;
    let whole = Span {
        lo: 0,
        hi: (numbers.len() - 1) as u32,
    };
    fill(numbers, ways, branches.as_mut_slice(), whole);
    branches
}

impl Tree {
    /// What is known of the ways to all fixes. The only error is want of memory.
    pub(crate) fn new(
        alloc: Global,
        hulls: &Hulls,
        by_place: &ByPlace,
        ways: Vec<u64>,
    ) -> Result<Tree, AllocError>
        requires some { 0 < length hulls.now }
        requires few { length hulls.now ≤ 90_000 }
        requires order { IsByPlace hulls.now by_place.now }
        requires long { length ways.items ≡ length hulls.now }
        requires limited { All (λ way. way ≤ 2 ^ 40) ways.items }
        ensures tree { IfOk result (IsTree hulls.now by_place.now) }
        ensures ways { IfOk result (λ tree. tree.ways ≡ ways) }
    {
        let branches = vec![in alloc; unknown(); 2 * ways.len()]?;
        let branches = filled(&by_place.numbers, &ways, branches);
        Ok(Tree { ways, branches })
    }

    /// How long a way by a fix of a span is at most.
    #[inline]
    fn most_of(&self, hulls: &Hulls, by_place: &ByPlace, target: &Target, span: Span) -> Most
        requires tree { IsTree hulls.now by_place.now self.now }
        requires target { IsTarget hulls.now target.now }
        requires inside { span.hi < length hulls.now }
        ensures { AreAtMost hulls.now by_place.now.numbers.items self.now.ways.items target.now
            (ends span) result }
    {
        let branch = self.branches[slot_of(span)];
        if branch.span.lo > span.lo || branch.span.hi < span.hi {
            return Most {
                way: MOST_WAY,
                chord: GREATEST_SQUARE,
            };
        }
        let number = Span::point(target.number);
        if target.side.is_out(branch.numbers, number) {
            return Most { way: 0, chord: 0 };
        }
        Most {
            way: branch.most,
            chord: max_sq(&by_place.hulls.hull(span), &Hull::point(target.at)),
        }
    }

    /// Raises what was found to the way by a fix.
    #[inline]
    fn consider(&self, hulls: &Hulls, target: &Target, from: u32, found: &mut Longest)
        requires long { length self.now.ways.items ≡ length hulls.now }
        requires limited { All (λ way. way ≤ 2 ^ 40) self.now.ways.items }
        requires target { IsTarget hulls.now target.now }
        requires from { from < length hulls.now }
        requires known { IsKnown found.old }
        ensures { Lengthens hulls.now self.now.ways.items target.now (λ number. number ≡ from)
            found.old found.new }
    {
        let way = self.ways[from as usize];
        let (from_there, to_here) = (Span::point(from), Span::point(target.number));
        if way == 0 || target.side.is_out(from_there, to_here) {
            return;
        }
        let chord = sq(hulls.fix(from).at, target.at);
        if !is_beaten(Most { way, chord }, found) {
            *found = Longest {
                length: way + dist(chord),
                from,
                way,
                chord,
            };
        }
    }

    /// Raises what was found to the ways by the fixes of a span.
    fn scan(
        &self,
        hulls: &Hulls,
        by_place: &ByPlace,
        target: &Target,
        span: Span,
        found: &mut Longest,
    )
        requires tree { IsTree hulls.now by_place.now self.now }
        requires target { IsTarget hulls.now target.now }
        requires inside { span.hi < length hulls.now }
        requires known { IsKnown found.old }
        ensures { Lengthens hulls.now self.now.ways.items target.now
            (IsThere by_place.now.numbers.items (ends span)) found.old found.new }
    {
        for place in span.lo..span.hi + 1 {
            self.consider(hulls, target, by_place.numbers[place as usize], found);
        }
    }

    /// Raises what was found to the ways by the fixes of a span, which are at most so long.
    fn search(
        &self,
        hulls: &Hulls,
        by_place: &ByPlace,
        target: &Target,
        span: Span,
        most: Most,
        found: &mut Longest,
    )
        requires tree { IsTree hulls.now by_place.now self.now }
        requires target { IsTarget hulls.now target.now }
        requires inside { span.hi < length hulls.now }
        requires most { AreAtMost hulls.now by_place.now.numbers.items self.now.ways.items
            target.now (ends span) most }
        requires known { IsKnown found.old }
        ensures { Lengthens hulls.now self.now.ways.items target.now
            (IsThere by_place.now.numbers.items (ends span)) found.old found.new }
    {
        if is_beaten(most, found) {
            return;
        }
        if span.width() < FEW {
            self.scan(hulls, by_place, target, span, found);
            return;
        }
        let (lower, upper) = halves(span);
        let low = self.most_of(hulls, by_place, target, lower);
        let high = self.most_of(hulls, by_place, target, upper);
        if low.chord < high.chord {
            self.search(hulls, by_place, target, upper, high, found);
            self.search(hulls, by_place, target, lower, low, found);
        } else {
            self.search(hulls, by_place, target, lower, low, found);
            self.search(hulls, by_place, target, upper, high, found);
        }
    }

    /// The longest way to a fix, if it is longer than the floor. `guess` is the number of a fix
    /// before it that may be on it.
    pub(crate) fn longest(
        &self,
        hulls: &Hulls,
        by_place: &ByPlace,
        target: &Target,
        floor: u64,
        guess: u32,
    ) -> Longest
        requires tree { IsTree hulls.now by_place.now self.now }
        requires target { IsTarget hulls.now target.now }
        requires guess { guess < length hulls.now }
        ensures found { IsFound hulls.now self.now.ways.items target.now floor result }
        ensures above { (from : ℕ) → IsWay self.now.ways.items target.now from
            → onward hulls.now self.now.ways.items target.now from ≤ result.length }
    {
        let mut found = Longest {
            length: floor,
            from: 0,
            way: 0,
            chord: 0,
        };
        self.consider(hulls, target, guess, &mut found);
        let whole = Span {
            lo: 0,
            hi: hulls.len() - 1,
        };
        let most = self.most_of(hulls, by_place, target, whole);
        self.search(hulls, by_place, target, whole, most, &mut found);
        found
    }

    /// How long a way to a fix is at most, with one more leg.
    pub(crate) fn bound(&self, hulls: &Hulls, by_place: &ByPlace, target: &Target) -> u64
        requires tree { IsTree hulls.now by_place.now self.now }
        requires target { IsTarget hulls.now target.now }
        ensures { (from : ℕ) → IsWay self.now.ways.items target.now from
            → onward hulls.now self.now.ways.items target.now from ≤ result }
    {
        let whole = Span {
            lo: 0,
            hi: hulls.len() - 1,
        };
        let most = self.most_of(hulls, by_place, target, whole);
        if most.way == 0 {
            return 0;
        }
        most.way + dist(most.chord)
    }
}
