//! What is maximised: goals, their tests of boxes of choices, and what certifies that no choice was
//! overlooked. These tests judge many choices of fixes at once, by hulls: the least box that holds
//! the fixes of a span, and how far apart and how near two points of two boxes can be.
#![tactic(auto)]

mod any;
mod any_goal;
mod area;
mod area_goal;
mod axis;
mod best;
mod chords;
mod corners;
mod entry;
mod extent;
mod free;
mod free_goal;
mod goal;
mod hull;
mod hulls;
mod leg;
mod leg_rule;
mod legs;
mod lists;
mod near;
mod numbers;
mod opening;
mod out_goal;
mod outlanding;
mod reach;
mod round;
mod table;
mod triangle;
mod triangle_goal;
mod way;

pub use any::AnyGoal;
pub use area::AreaGoal;
pub use best::{Best, beats, better};
pub use chords::{max_sq, min_sq};
pub use free::FreeGoal;
pub use goal::Goal;
pub use hull::Hull;
pub use hulls::Hulls;
pub use leg::Leg;
pub use leg_rule::fair;
pub use numbers::fix_numbers;
pub use opening::{measured_legs, whole};
pub use outlanding::OutGoal;
pub use triangle::TriangleGoal;
