ghost use Rattle.std.specs.Prelude.{◌≡◌, [], None};
ghost use Rattle.gl_pool.specs.Code.Trail.{IsTrail};
ghost use Rattle.gl_pool.specs.Trail.{boxes_in};

use crate::trail::{Trail, empty_trail};
use gl_box::{Cell, Closed};
use gl_goal::Best;
use std::alloc::Global;

/// What one worker has to show for a call: the best tuple that it kept, if it kept one; the cells
/// that it closed; and the cells that it took though they aren't cells of the goal.
#[derive(Debug, Drop)]
pub struct Share {
    pub kept: Option<Best>,
    pub closed: Vec<Closed>,
    pub strange: Vec<Cell>,
}

/// The same, with the closed cells as runs.
#[derive(Drop)]
pub(crate) struct Haul {
    pub(crate) kept: Option<Best>,
    pub(crate) closed: Trail,
    pub(crate) strange: Vec<Cell>,
}

impl Haul {
    /// Nothing to show.
    pub(crate) fn empty(alloc: Global) -> Haul
        ensures kept { result.kept ≡ None }
        ensures closed { boxes_in result.closed ≡ [] }
        ensures trail { IsTrail result.closed [] }
        ensures strange { result.strange.items ≡ [] }
    {
        Haul {
            kept: None,
            closed: empty_trail(alloc),
            strange: Vec::new(alloc),
        }
    }
}
