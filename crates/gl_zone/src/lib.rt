//! Lines and zones of a task: on which side of a line a point lies, when a flight crosses the line
//! forwards, and which zones hold a point. All of it is whole-number arithmetic.
#![tactic(auto)]

mod containment;
mod crossings;
mod direction;
mod line;
mod product;
mod sides;
mod way;
mod zone;

pub use containment::holds;
pub use crossings::crossing;
pub use direction::Direction;
pub use line::Line;
pub use product::scalar_product;
pub use sides::side;
pub use zone::{Cylinder, MOST_PARTS, Part, Sector, WHOLE_TURN, Zone};
