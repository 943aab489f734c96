ghost use Rattle.std.specs.Prelude.{◌≤ℤ◌, pos};
ghost use Rattle.gl_task.specs.Limits.{last_second};

use gl_task::PilotStart;

/// When a start opens and closes, in seconds, and how it is announced.
#[derive(Clone, Copy)]
pub(crate) struct Times {
    pub(crate) opens: i32,
    pub(crate) close: i32,
    pub(crate) pilot: Option<PilotStart>,
    pub(crate) ghost opens_at_least: { pos 0 ≤ℤ opens },
    pub(crate) ghost ordered: { opens ≤ℤ close },
    pub(crate) ghost close_at_most: { close ≤ℤ pos last_second },
}
