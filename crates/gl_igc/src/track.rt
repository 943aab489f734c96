ghost use Rattle.std.specs.Prelude.{map};
ghost use Rattle.gl_igc.specs.Code.Seconds.{AreOwnSeconds};

use crate::fix::Fix;

/// The used fixes of the lines so far, with their own seconds.
#[derive(Drop)]
pub struct Track {
    pub fixes: Vec<Fix>,
    /// The own second of the last used fix.
    pub last: Option<u32>,
    /// How many B lines gave no fix.
    pub skipped: u32,
    /// The line of the first used fix past the limit. From then on the rest stays as it was.
    pub excess: Option<u32>,
    pub ghost own: { AreOwnSeconds (map (λ fix. fix.second) fixes.items) last },
}
