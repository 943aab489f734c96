ghost use Rattle.std.specs.Prelude.{◌≤◌};

use gl_points::Frac;
use std::alloc::{AllocError, Global};

/// How many steps the division of two numbers into one another takes at most.
const STEPS: usize = 200;

/// The denominator from which a fraction is written as a decimal.
const LONG: u128 = 1_000;

/// The greatest number that divides two numbers, and at least 1.
fn greatest_divisor(num: u128, den: u128) -> u128
    ensures { 1 ≤ result }
{
    let mut greater = num;
    let mut lesser = den;
    for _ in 0..STEPS {
        if lesser == 0 {
            break;
        }
        let rest = greater % lesser;
        greater = lesser;
        lesser = rest;
    }
    greater.max(1)
}

/// A number with three decimals, rounded.
fn decimal(alloc: Global, whole: u128, rest: u128, den: u128) -> Result<String, AllocError> {
    let thousandths = rest.saturating_mul(1_000).saturating_add(den / 2) / den.max(1);
    let all = whole.saturating_mul(1_000).saturating_add(thousandths);
    let number = all / 1_000;
    let decimals = all % 1_000;
    format!(in alloc; "some {number}.{decimals:03}")
}

/// A fraction, as `222 2/9`; one with a long denominator as `some 190.339`.
pub fn fraction_words(alloc: Global, fraction: &Frac) -> Result<String, AllocError> {
    let divisor = greatest_divisor(fraction.num, fraction.den);
    let den = (fraction.den / divisor).max(1);
    let num = fraction.num / divisor;
    let whole = num / den;
    let rest = num % den;
    if rest == 0 {
        return format!(in alloc; "{whole}");
    }
    if den >= LONG {
        return decimal(alloc, whole, rest, den);
    }
    if whole == 0 {
        format!(in alloc; "{rest}/{den}")
    } else {
        format!(in alloc; "{whole} {rest}/{den}")
    }
}

/// A share, as `all`, `none` or `5/9`.
pub fn share_words(alloc: Global, share: &Frac) -> Result<String, AllocError> {
    if share.num == 0 {
        String::from_str(alloc, "none")
    } else if share.num == share.den {
        String::from_str(alloc, "all")
    } else {
        fraction_words(alloc, share)
    }
}
