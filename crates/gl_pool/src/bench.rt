use crate::share::Haul;
use gl_box::Cell;
use gl_goal::Leg;

/// What a worker has before it: the cells that it still has to look at, the last one first; the
/// legs that it has measured; the total that it has seen; and its share so far.
#[derive(Drop)]
pub(crate) struct Bench {
    pub(crate) cells: Vec<Cell>,
    pub(crate) legs: Vec<Leg>,
    pub(crate) seen: Option<u64>,
    pub(crate) share: Haul,
}
