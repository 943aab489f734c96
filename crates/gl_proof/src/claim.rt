ghost use Rattle.std.specs.Prelude.{◌≡◌, ◌↔◌, IsNone, length};

use gl_box::Boxes;
use gl_desk::Name;

/// What is the greatest of a flight.
#[derive(Clone, Copy, Debug, PartialEq, Eq)]
pub enum ClaimKind {
    /// The distance through the areas of the task.
    Area,
    /// The distance of an outlanding.
    Out,
    /// The free distance.
    Free,
    /// The way round a triangle.
    Triangle,
}

/// What is claimed of one flight: the greatest total, and the boxes that show that no legal choice
/// has a greater one.
#[derive(Debug, Drop)]
pub struct Claim {
    /// The number of the entrant.
    pub number: Name,
    /// What the total is the greatest of.
    pub kind: ClaimKind,
    /// The greatest total in centimetres, `None` where no choice is legal.
    pub total: Option<u64>,
    /// The numbers of the fixes of a legal choice with this total; none exactly where there is no
    /// total.
    pub fixes: Vec<u32>,
    /// The boxes in the order of the split tree, the lower half first.
    pub cells: Boxes,
    pub ghost named: { IsNone total ↔ (length fixes.items ≡ 0) },
}
