use crate::declaration::Declaration;
use crate::events::Events;
use crate::extension::Fields;
use crate::track::Track;

/// What the lines so far say. It takes one line at a time.
#[derive(Drop)]
pub struct Progress {
    /// The number of the lines.
    pub lines: u32,
    /// Whether the first line that isn't empty begins with `A`.
    pub opening: Option<bool>,
    /// The day of the first date line.
    pub date: Option<i32>,
    /// The fields of the first undamaged I line.
    pub fields: Option<Fields>,
    pub track: Track,
    pub events: Events,
    pub declaration: Declaration,
}
