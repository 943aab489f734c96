//! Badge claims: how far and how high a flight went, whether it reached its declared goal, and
//! which limits of a badge that meets.
#![tactic(auto)]

mod badge;
mod check;
mod claim;
mod claims;
mod declared;
mod gain;
mod gain_goal;
mod grade;
mod near;
mod prove;
mod shown;
mod text;

pub use badge::Badge;
pub use check::check_badges;
pub use claim::BadgeClaim;
pub use claims::badge_claims;
pub use declared::course;
pub use gain::GainGoal;
pub use prove::{Badges, prove_badges};
pub use shown::Course;
pub use text::badge_text;
