ghost use Rattle.std.specs.Prelude.{◌≡◌, ◌≤◌, ◌-◌};

/// The places from `lo` to `hi` of a list, both ends inside.
#[derive(Clone, Copy, Debug, PartialEq, Eq)]
pub struct Span {
    pub lo: u32,
    pub hi: u32,
    pub ghost ordered: { lo ≤ hi },
}

impl Span {
    /// The span of one place.
    pub fn point(place: u32) -> Span
        ensures lo { result.lo ≡ place }
        ensures hi { result.hi ≡ place }
    {
        Span {
            lo: place,
            hi: place,
        }
    }

    /// How far the last place is from the first one: 0 where there is a single place.
    pub fn width(&self) -> u32
        ensures { result ≡ self.now.hi - self.now.lo }
    {
        self.hi - self.lo
    }
}
