ghost use Rattle.std.specs.Prelude.{◌≤◌};

/// How many bytes one call of a desk in memory reads at most.
#[derive(Clone, Copy, Debug)]
pub struct PieceLimit {
    pub most: u64,
    pub ghost some: { 1 ≤ most },
}
