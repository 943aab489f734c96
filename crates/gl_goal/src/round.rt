ghost use Rattle.std.specs.Prelude.{◌<◌, ◌^◌};

/// The legs from each of three to the next, all the way round, in centimetres.
#[derive(Clone, Copy)]
pub(crate) struct Round {
    pub first: u64,
    pub second: u64,
    pub third: u64,
    pub ghost first_below: { first < 2 ^ 40 },
    pub ghost second_below: { second < 2 ^ 40 },
    pub ghost third_below: { third < 2 ^ 40 },
}

impl Round {
    ghost use Rattle.std.specs.Prelude.{◌≡◌, ◌+◌};
    ghost use Rattle.std.specs.List.{sum};
    ghost use Rattle.gl_goal.specs.Fair.{none_above, none_below, some_above, some_below};
    ghost use Rattle.gl_goal.specs.Code.Round.{legs_of};

    /// All three legs together.
    pub fn length(&self) -> u64
        ensures value { result ≡ sum (legs_of self.now) }
        ensures legs { result ≡ self.now.first + self.now.second + self.now.third }
    {
        self.first + self.second + self.third
    }

    /// Whether no leg is shorter than a share, in hundredths of a centimetre.
    #[inline]
    pub fn none_below(&self, share: u64) -> bool
        ensures { result ≡ none_below share (legs_of self.now) }
    {
        share <= 100 * self.first && share <= 100 * self.second && share <= 100 * self.third
    }

    /// Whether no leg is longer than a share, in hundredths of a centimetre.
    #[inline]
    pub fn none_above(&self, share: u64) -> bool
        ensures { result ≡ none_above share (legs_of self.now) }
    {
        100 * self.first <= share && 100 * self.second <= share && 100 * self.third <= share
    }

    /// Whether some leg is shorter than a share, in hundredths of a centimetre.
    #[inline]
    pub fn some_below(&self, share: u64) -> bool
        ensures { result ≡ some_below share (legs_of self.now) }
    {
        100 * self.first < share || 100 * self.second < share || 100 * self.third < share
    }

    /// Whether some leg is longer than a share, in hundredths of a centimetre.
    #[inline]
    pub fn some_above(&self, share: u64) -> bool
        ensures { result ≡ some_above share (legs_of self.now) }
    {
        share < 100 * self.first || share < 100 * self.second || share < 100 * self.third
    }
}
