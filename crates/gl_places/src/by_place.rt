ghost use Rattle.std.specs.Prelude.{◌≡◌, ℕ, ◌<◌, ◌≤◌, All, IfOk, IsPermutation, length, max, min, slice_index, vec_len};
ghost use Rattle.gl_goal.specs.Free.{numbers_from};
ghost use Rattle.gl_places.specs.ByPlace.{IsByPlace};

use gl_box::Span;
use gl_goal::Hulls;
use gl_igc::Fix;
use std::alloc::{AllocError, Global};

/// The fixes of a flight in an order in which those of each half, of each half of a half and so on
/// lie together.
#[derive(Drop)]
pub struct ByPlace {
    /// The number of the fix at each place.
    pub numbers: Vec<u32>,
    /// The hulls over the fixes in this order.
    pub hulls: Hulls,
}

/// What parts fixes: a component of their points, or their numbers.
#[derive(Clone, Copy, PartialEq, Eq)]
enum Key {
    X,
    Y,
    Z,
    Number,
}

/// The least and the greatest of some values.
#[derive(Clone, Copy)]
struct Extent {
    least: i32,
    greatest: i32,
}

impl Extent {
    /// That of no values.
    const EMPTY: Extent = Extent {
        least: i32::MAX,
        greatest: i32::MIN,
    };

    /// Takes a value in.
    fn take(&mut self, value: i32) {
        self.least = self.least.min(value);
        self.greatest = self.greatest.max(value);
    }

    /// How far the greatest value is above the least.
    fn width(&self) -> i64 {
        i64::from(self.greatest) - i64::from(self.least)
    }
}

/// What a fix is parted by.
fn key_of(fixes: &[Fix], key: Key, number: u32) -> i64 {
    match (key, fixes.get(number as usize)) {
        (Key::X, Some(fix)) => i64::from(fix.at.x),
        (Key::Y, Some(fix)) => i64::from(fix.at.y),
        (Key::Z, Some(fix)) => i64::from(fix.at.z),
        _ => i64::from(number),
    }
}

/// The component in which some fixes lie farthest apart, or their numbers where all are at one
/// place.
fn widest(fixes: &[Fix], numbers: &[u32]) -> Key {
    let (mut x, mut y, mut z) = (Extent::EMPTY, Extent::EMPTY, Extent::EMPTY);
    for &number in numbers {
        if let Some(fix) = fixes.get(number as usize) {
            x.take(fix.at.x);
            y.take(fix.at.y);
            z.take(fix.at.z);
        }
    }
    let (x, y, z) = (x.width(), y.width(), z.width());
    if x.max(y).max(z) <= 0 {
        Key::Number
    } else if x >= y && x >= z {
        Key::X
    } else if y >= z {
        Key::Y
    } else {
        Key::Z
    }
}

/// Orders the numbers of fixes so that those of each half, of each half of a half and so on lie
/// together.
fn gather(fixes: &[Fix], numbers: &mut [u32])
    ensures { IsPermutation numbers.old numbers.new }
{
    if numbers.len() < 2 {
        return;
    }
    let key = widest(fixes, numbers);
    numbers.sort_unstable_by_key(|&number| key_of(fixes, key, number));
    let middle = (numbers.len() - 1) / 2;
    let (lower, upper) = numbers.split_at_mut(middle + 1);
    gather(fixes, lower);
    gather(fixes, upper);
}

/// The numbers of fixes in such an order.
fn gathered(fixes: &[Fix], numbers: Vec<u32>) -> Vec<u32>
    ensures { IsPermutation numbers.items result.items }
{
    let mut numbers = numbers;
    gather(fixes, numbers.as_mut_slice());
    numbers
}

/// All fixes, in time order. The only error is want of memory.
fn fixes_in_time(alloc: Global, hulls: &Hulls) -> Result<Vec<Fix>, AllocError>
    requires { length hulls.now ≤ 90_000 }
    ensures { IfOk result (λ fixes. fixes.items ≡ hulls.now) }
{
    let mut fixes = Vec::with_capacity(alloc, hulls.len() as usize)?;
    for number in 0..hulls.len() {
        fixes.push(*hulls.fix(number))?;
    }
    Ok(fixes)
}

/// The numbers of so many fixes, in time order. The only error is want of memory.
fn numbers_below(alloc: Global, count: u32) -> Result<Vec<u32>, AllocError>
    requires { count ≤ 90_000 }
    ensures { IfOk result (λ numbers. numbers.items ≡ numbers_from 0 count) }
{
    let mut numbers = Vec::with_capacity(alloc, count as usize)?;
    for number in 0..count {
        numbers.push(number)?;
    }
    Ok(numbers)
}

/// Two ends, moved apart so far that a number lies between them.
#[inline]
fn around(ends: Span, number: u32) -> Span
    ensures lo { result.lo ≡ min ends.lo number }
    ensures hi { result.hi ≡ max ends.hi number }
{
    if number < ends.lo {
        Span {
            lo: number,
            hi: ends.hi,
        }
    } else {
        Span {
            lo: ends.lo,
            hi: ends.hi.max(number),
        }
    }
}

impl ByPlace {
    /// The fixes of a flight by place, of those in time order. The only error is want of memory.
    pub fn new(alloc: Global, hulls: &Hulls) -> Result<ByPlace, AllocError>
        requires some { 0 < length hulls.now }
        requires few { length hulls.now ≤ 90_000 }
        ensures { IfOk result (IsByPlace hulls.now) }
    {
        let fixes = fixes_in_time(alloc, hulls)?;
        let numbers = gathered(&fixes, numbers_below(alloc, hulls.len())?);
        let hulls = Hulls::new(alloc, &fixes, &numbers)?;
        Ok(ByPlace { numbers, hulls })
    }

    /// The least and the greatest number in a span.
    pub fn numbers_in(&self, span: Span) -> Span
        requires within { span.hi < vec_len self.now.numbers }
        requires most { vec_len self.now.numbers ≤ 90_000 }
        ensures between { (place : ℕ) → span.lo ≤ place → place ≤ span.hi
            → (result.lo ≤ slice_index self.now.numbers.items place)
            × (slice_index self.now.numbers.items place ≤ result.hi) }
        ensures below { (most : ℕ) → All (λ number. number < most) self.now.numbers.items
            → result.hi < most }
    {
        let mut ends = Span::point(self.numbers[span.lo as usize]);
        for place in span.lo..span.hi + 1 {
            ends = around(ends, self.numbers[place as usize]);
        }
        ends
    }
}
