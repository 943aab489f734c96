use crate::hulls::Hulls;
use std::alloc::Global;
use std::sync::Arc;

/// The fixes that may be chosen on one axis of a goal: their numbers, and the hulls over them,
/// which
/// axes with the same numbers share.
#[derive(Debug, Drop)]
pub(crate) struct Axis {
    pub numbers: Vec<u32>,
    pub hulls: Arc<Hulls, Global>,
}
