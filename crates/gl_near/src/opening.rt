ghost use Rattle.std.specs.Prelude.{◌≡◌, ◌+◌, ◌≤◌, ◌<◌, [], ◌∷◌, length, map, All, IfOk, Some, slice_get};
ghost use Rattle.gl_box.specs.Cell.{ends, spans_of};
ghost use Rattle.gl_near.specs.Pairing.{AreRising, flights, place, whole_cell};
ghost use Rattle.gl_near.specs.Pairs.{pairing_of};

use crate::pairs::{FlightAndPlace, Pairs, TwoFlights};
use gl_box::{Cell, Span, Tuple};
use gl_goal::Hulls;
use gl_igc::Fix;
use gl_sphere::Vec3;
use std::alloc::{AllocError, Global};

/// The numbers of all fixes, in order. The only error is want of memory.
fn all_numbers(alloc: Global, fixes: &[Fix]) -> Result<Vec<u32>, AllocError>
    requires { length fixes.now ≤ 90_000 }
    ensures count { IfOk result (λ numbers. length numbers.items ≡ length fixes.now) }
    ensures within { IfOk result (λ numbers.
        All (λ number. number < length fixes.now) numbers.items) }
    ensures named { IfOk result (λ numbers.
        map (slice_get fixes.now) numbers.items ≡ map Some fixes.now) }
{
    let mut numbers = Vec::with_capacity(alloc, fixes.len())?;
    for number in 0..fixes.len() as u32 {
        numbers.push(number)?;
    }
    Ok(numbers)
}

/// The hulls of a whole flight. The only error is want of memory.
fn hulls_of(alloc: Global, fixes: &[Fix]) -> Result<Hulls, AllocError>
    requires some { 0 < length fixes.now }
    requires most { length fixes.now ≤ 90_000 }
    ensures { IfOk result (λ hulls. hulls ≡ fixes.now) }
{
    let numbers = all_numbers(alloc, fixes)?;
    Hulls::new(alloc, fixes, numbers.as_slice())
}

/// The span of all fixes of a flight.
fn all_of(hulls: &Hulls) -> Span
    requires some { 0 < length hulls.now }
    requires most { length hulls.now ≤ 90_000 }
    ensures lo { result.lo ≡ 0 }
    ensures hi { result.hi + 1 ≡ length hulls.now }
{
    Span {
        lo: 0,
        hi: hulls.len() - 1,
    }
}

impl Pairs {
    /// The pairs of fixes of two flights whose seconds differ by at most `apart`, up to 3,600. Each
    /// flight has 1 to 90,000 fixes, and its seconds rise. The only error is want of memory.
    pub fn flights(alloc: Global, a: &[Fix], b: &[Fix], apart: u32) -> Result<Pairs, AllocError>
        requires some { 0 < length a.now }
        requires most { length a.now ≤ 90_000 }
        requires rising { AreRising a.now }
        requires some_other { 0 < length b.now }
        requires most_others { length b.now ≤ 90_000 }
        requires others_rising { AreRising b.now }
        requires apart { apart ≤ 3_600 }
        ensures { IfOk result (λ pairs. pairing_of pairs ≡ flights a.now b.now apart) }
    {
        let one = hulls_of(alloc, a)?;
        let other = hulls_of(alloc, b)?;
        Ok(Pairs::Two(TwoFlights { one, other, apart }))
    }

    /// The pairs of a fix of a flight, of 1 to 90,000 fixes, and a place. The only error is want of
    /// memory.
    pub fn place(alloc: Global, a: &[Fix], x: Vec3) -> Result<Pairs, AllocError>
        requires some { 0 < length a.now }
        requires most { length a.now ≤ 90_000 }
        ensures { IfOk result (λ pairs. pairing_of pairs ≡ place a.now x) }
    {
        let flight = hulls_of(alloc, a)?;
        Ok(Pairs::One(FlightAndPlace { flight, point: x }))
    }

    /// The spans of all numbers on both sides.
    fn spans(&self) -> (Span, Span)
        ensures { whole_cell (pairing_of self.now) ≡ ends result.0 ∷ ends result.1 ∷ [] }
    {
        match self {
            Pairs::Two(two) => (all_of(&two.one), all_of(&two.other)),
            Pairs::One(one) => (all_of(&one.flight), Span::point(0)),
        }
    }

    /// The cell of all pairs.
    pub fn whole(&self) -> Cell
        ensures { spans_of result ≡ whole_cell (pairing_of self.now) }
    {
        let (first, second) = self.spans();
        let mut cell = Cell::point(&Tuple::first(2));
        cell.set(0, first);
        cell.set(1, second);
        cell
    }
}
