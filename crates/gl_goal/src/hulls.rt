use crate::entry::Entry;
use crate::hull::Hull;
use crate::table::{fill, hull_over, index_of, singles};
use gl_box::Span;
use gl_igc::Fix;
use std::alloc::{AllocError, Global};
use std::marker::Model;

/// The hulls of the spans of a list of fixes, which contracts see as that list. Those of the whole,
/// of its halves, of their halves and so on are kept, and found at once.
#[derive(Debug, Drop)]
pub struct Hulls {
    fixes: Vec<Fix>,
    table: Vec<Entry>,
}

impl Model for Hulls {
    ghost use Rattle.std.specs.Prelude.{List};
    ghost use Rattle.gl_igc.specs.declared.fix.Fix.{Fix};
    ghost use Rattle.gl_goal.specs.Table.{IsTable};

    ghost Value = { List Fix };

    ghost view = { λ hulls. hulls.fixes.items };

    ghost invariant = { λ hulls. IsTable hulls.fixes.items hulls.table.items };
}

impl Hulls {
    ghost use Rattle.std.specs.Prelude.{◌≡◌, ◌+◌, ◌≤◌, ◌<◌, length, map, All, IfOk, IfSome, Some, slice_get};
    ghost use Rattle.gl_box.specs.Cell.{ends};
    ghost use Rattle.gl_goal.specs.Box.{IsLeastBox, fixes_in, hull_of};
    ghost use Rattle.gl_goal.specs.Hull.{box_of};

    /// The hulls over the fixes with these numbers. The only error is want of memory.
    pub fn new(alloc: Global, fixes: &[Fix], numbers: &[u32]) -> Result<Hulls, AllocError>
        requires some { 0 < length numbers.now }
        requires most { length numbers.now ≤ 90_000 }
        requires named { All (λ number. number < length fixes.now) numbers.now }
        ensures { IfOk result (λ hulls. map Some hulls ≡ map (slice_get fixes.now) numbers.now) }
    {
        let mut picked = Vec::with_capacity(alloc, numbers.len())?;
        for &number in numbers {
            picked.push(fixes[number as usize])?;
        }
        let mut table = singles(alloc, picked.as_slice())?;
        let whole = Span {
            lo: 0,
            hi: (picked.len() - 1) as u32,
        };
        fill(picked.as_slice(), table.as_mut_slice(), whole);
        Ok(Hulls {
            fixes: picked,
            table,
        })
    }

    /// How many fixes there are, at most 90,000.
    pub fn len(&self) -> u32
        ensures { result ≡ length self.now }
    {
        self.fixes.len() as u32
    }

    /// The fix at a place.
    #[inline]
    pub fn fix(&self, place: u32) -> &Fix
        requires { place < length self.now }
        ensures { slice_get self.now place ≡ Some result.now }
    {
        &self.fixes[place as usize]
    }

    /// The span of all fixes.
    pub(crate) fn whole(&self) -> Span
        requires { 0 < length self.now }
        ensures lo { result.lo ≡ 0 }
        ensures hi { result.hi + 1 ≡ length self.now }
    {
        Span {
            lo: 0,
            hi: (self.fixes.len() - 1) as u32,
        }
    }

    /// The least hull of the fixes of a span, where it is kept.
    #[inline]
    pub fn kept(&self, span: Span) -> Option<&Hull>
        requires { span.hi < length self.now }
        ensures { IfSome result
            (λ hull. box_of hull.now ≡ hull_of (fixes_in self.now (ends span))) }
    {
        let entry = &self.table[index_of(span)];
        if entry.span == span {
            Some(&entry.hull)
        } else {
            None
        }
    }

    /// The least hull of the fixes of a span. Takes no memory.
    #[inline]
    pub fn hull(&self, span: Span) -> Hull
        requires { span.hi < length self.now }
        ensures value { box_of result ≡ hull_of (fixes_in self.now (ends span)) }
        ensures least { IsLeastBox (box_of result) (fixes_in self.now (ends span)) }
    {
        let entry = &self.table[index_of(span)];
        if entry.span == span {
            entry.hull
        } else {
            hull_over(&self.fixes[span.lo as usize..=span.hi as usize])
        }
    }
}
