use crate::area::AreaGoal;
use crate::free::FreeGoal;
use crate::outlanding::OutGoal;
use crate::triangle::TriangleGoal;

/// A goal of any of the kinds that a flight can be asked for.
#[derive(Drop)]
pub enum AnyGoal {
    Area(AreaGoal),
    Out(OutGoal),
    Free(FreeGoal),
    Triangle(TriangleGoal),
}
