/// The part of a flight that counts.
#[derive(Clone, Copy, Debug, PartialEq, Eq)]
pub struct Window {
    /// The number of the fix behind the start line.
    pub first: u32,
    /// The number of the last fix: the finish, or the last judged fix.
    pub last: u32,
    /// The time of the start, in seconds as those of the fixes.
    pub start: i32,
}

/// How a flight is judged.
#[derive(Clone, Copy, Debug, PartialEq, Eq)]
pub enum Judged {
    /// The flight finished; `seconds` lie between its start and its finish, perhaps none.
    Finished { window: Window, seconds: u32 },
    /// The flight started and didn't finish; it visited so many zones.
    Outlanded { window: Window, zones: u8 },
    /// The flight didn't start.
    NoStart,
}
