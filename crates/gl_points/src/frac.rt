ghost use Rattle.std.specs.Prelude.{◌≤◌};

/// A fraction of whole numbers, not reduced: two fractions of one value may differ in both.
#[derive(Clone, Copy, Debug)]
pub struct Frac {
    /// What is divided.
    pub num: u128,
    /// What it is divided by, above 0.
    pub den: u128,
    pub ghost divides: { 1 ≤ den },
}

impl Frac {
    ghost use Rattle.std.specs.Prelude.{◌≡◌, ℕ, ◌<◌, ◌*◌, ◌^◌};
    ghost use Rattle.gl_points.specs.Fraction.{◌÷◌, ◌⊗◌, IsAtMost, is_at_most, is_same, lesser, rounded, whole};
    ghost use Rattle.gl_points.specs.Code.Fractions.{greater};
    ghost use Rattle.gl_points.specs.Limits.{point_limit};
    ghost use Rattle.gl_points.specs.Worth.{worth};

    /// Nothing.
    pub const ZERO: Frac = Frac { num: 0, den: 1 };

    /// A whole number.
    pub fn whole(number: u32) -> Frac
        ensures { worth result ≡ whole number }
    {
        Frac {
            num: u128::from(number),
            den: 1,
        }
    }

    /// Two thirds of this fraction.
    pub(crate) fn two_thirds(&self) -> Frac
        requires num { self.now.num < 2 ^ 63 }
        requires den { self.now.den < 2 ^ 62 }
        ensures { worth result ≡ (2 ÷ 3) ⊗ worth self.now }
    {
        Frac {
            num: 2 * self.num,
            den: 3 * self.den,
        }
    }

    /// Whether this fraction is at most another.
    pub(crate) fn is_at_most(&self, other: &Frac) -> bool
        requires num { self.now.num < 2 ^ 64 }
        requires den { self.now.den < 2 ^ 64 }
        requires other_num { other.now.num < 2 ^ 64 }
        requires other_den { other.now.den < 2 ^ 64 }
        ensures { result ≡ is_at_most (worth self.now) (worth other.now) }
    {
        self.num * other.den <= other.num * self.den
    }

    /// Whether this fraction and another are one number.
    pub(crate) fn is_same(&self, other: &Frac) -> bool
        requires num { self.now.num < 2 ^ 64 }
        requires den { self.now.den < 2 ^ 64 }
        requires other_num { other.now.num < 2 ^ 64 }
        requires other_den { other.now.den < 2 ^ 64 }
        ensures { result ≡ is_same (worth self.now) (worth other.now) }
    {
        self.num * other.den == other.num * self.den
    }

    /// The lesser of two fractions.
    pub fn lesser(self, other: Frac) -> Frac
        requires num { self.num < 2 ^ 64 }
        requires den { self.den < 2 ^ 64 }
        requires other_num { other.num < 2 ^ 64 }
        requires other_den { other.den < 2 ^ 64 }
        ensures worth { worth result ≡ lesser (worth self) (worth other) }
        ensures at_most { IsAtMost (worth result) (worth self) }
        ensures num { (most : ℕ) → self.num ≤ most → other.num ≤ most → result.num ≤ most }
        ensures den { (most : ℕ) → self.den ≤ most → other.den ≤ most → result.den ≤ most }
    {
        if self.is_at_most(&other) { self } else { other }
    }

    /// The greater of two fractions.
    pub(crate) fn greater(self, other: Frac) -> Frac
        requires num { self.num < 2 ^ 64 }
        requires den { self.den < 2 ^ 64 }
        requires other_num { other.num < 2 ^ 64 }
        requires other_den { other.den < 2 ^ 64 }
        ensures worth { worth result ≡ greater (worth self) (worth other) }
        ensures num { (most : ℕ) → self.num ≤ most → other.num ≤ most → result.num ≤ most }
        ensures den { (most : ℕ) → self.den ≤ most → other.den ≤ most → result.den ≤ most }
    {
        if self.is_at_most(&other) { other } else { self }
    }

    /// The nearest whole number, of two that are as near the greater.
    pub(crate) fn rounded(&self) -> u32
        requires at_most { self.now.num ≤ point_limit * self.now.den }
        requires room { self.now.den < 2 ^ 114 }
        ensures rounded { result ≡ rounded (worth self.now) }
        ensures at_most { result ≤ point_limit }
    {
        ((2 * self.num + self.den) / (2 * self.den)) as u32
    }
}
