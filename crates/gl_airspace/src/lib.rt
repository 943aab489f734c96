//! Airspace that flights may not enter: volumes read from a text in the OpenAir form, and the cut
//! of a flight before its first fix inside one.
#![tactic(auto)]

mod air_line;
mod containment;
mod draft;
mod error;
mod front;
mod height;
mod openair;
mod part;
mod place_text;
mod polygon;
mod step;
mod volume;

pub use containment::{cut, inside};
pub use error::AirError;
pub use openair::read_openair;
pub use polygon::Polygon;
pub use volume::{Airspace, Circle, Shape, Volume, empty};
