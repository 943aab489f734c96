/// The version of a proof's text, which its first line tells. Both have the same lines, and the
/// claims of
/// both are checked by the same tests.
#[derive(Clone, Copy, Debug, PartialEq, Eq)]
pub enum Version {
    /// Written before large triangles had a rule of their own.
    One,
    /// Written since then.
    Two,
}
