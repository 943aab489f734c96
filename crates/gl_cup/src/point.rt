use crate::field::Field;
use crate::pair::PassedKey;
use crate::zone::ObsZone;
use gl_sphere::Grid;
use gl_text::Items;

/// A point of a task, with its zone and the line that says the zone.
#[derive(Debug, Drop)]
pub struct CupPoint {
    pub name: Field,
    pub place: Grid,
    pub zone: ObsZone,
    pub line: u64,
}

/// A task as its file says it.
#[derive(Debug, Drop)]
pub struct CupTask {
    /// Its description, perhaps empty.
    pub title: Field,
    /// The start, the turn points and the finish.
    pub points: Items<CupPoint>,
    /// When the start opens, in seconds of the day, if that is said.
    pub opens: Option<u32>,
    /// How long the task takes, in seconds, if that is said.
    pub time: Option<u32>,
    /// The keys below it that are passed over.
    pub passed: Items<PassedKey>,
}
