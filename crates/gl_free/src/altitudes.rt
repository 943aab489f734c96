ghost use Rattle.std.specs.Prelude.{pos, neg_ℤ, ◌≤ℤ◌};

/// Altitudes from the lowest to the highest, in metres.
#[derive(Clone, Copy)]
pub(crate) struct Altitudes {
    pub lowest: i32,
    pub highest: i32,
    pub ghost ordered: { lowest ≤ℤ highest },
    pub ghost above: { neg_ℤ (pos 9_999) ≤ℤ lowest },
    pub ghost below: { highest ≤ℤ pos 32_767 },
}
