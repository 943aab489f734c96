//! The sphere that every flight is measured on: places in 1/100,000 minute, the points that they
//! stand for in whole centimetres from the centre, and the distance along the surface between two
//! points. All of it is whole-number arithmetic, so that any two machines measure the same
//! distance.
#![tactic(auto)]

mod distance;
mod place;
mod place_text;
mod projection;
mod quick_sine;
mod quick_vector;
mod quotient;
mod series;
mod series_steps;
mod sine;
mod sphere;
mod square_root;

pub use distance::{dist, sq};
pub use place::{Grid, Vec3};
pub use place_text::{read_latitude, read_longitude, read_place, signed};
pub use projection::{east, north, vector};
pub use sine::{wcos, wsin};
pub use sphere::{GREATEST_DISTANCE, GREATEST_SQUARE, HALF_TURN, PI, QUARTER_TURN, RADIUS, UNIT};
pub use square_root::root;
