ghost use Rattle.std.specs.Prelude.{◌≡◌, ◌↔◌, IsTrue};
ghost use Rattle.gl_free.specs.Code.Search.{stop_after};

use crate::pair::Pair;

/// How a search came to its end: with nothing better left, at ends of which the last is too low, or
/// after so many looks that it was given up.
#[derive(Clone, Copy)]
pub(crate) enum Stop {
    Done,
    Low(Pair),
    GivenUp,
}

impl Stop {
    /// After the last choice was made, or ends were met of which the last is too low.
    pub(crate) fn after(low: Option<Pair>) -> Stop
        ensures { result ≡ stop_after low }
    {
        match low {
            None => Stop::Done,
            Some(pair) => Stop::Low(pair),
        }
    }

    /// Whether nothing better is left.
    pub(crate) fn is_done(&self) -> bool
        ensures { IsTrue result ↔ (self.now ≡ Stop.Done) }
    {
        matches!(self, Stop::Done)
    }
}
