//! What recordings, airspace texts and triangles are like, beside the rules by which they are read
//! and measured. Each function states one law, which holds of every one of them; a call of it does
//! nothing. No program needs this crate, so that its laws cost no proof of what stands above the
//! crates below it.
#![tactic(auto)]

pub mod airspace;
pub mod recordings;
pub mod triangles;
