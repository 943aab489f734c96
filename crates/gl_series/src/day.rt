use gl_desk::Name;
use gl_text::Items;

/// What the sheet of a day says of one pilot.
#[derive(Debug, Drop)]
pub struct DayRow {
    /// The competition number: 1 to 8 letters and digits of ASCII.
    pub number: Name,
    /// 1 to 80 bytes without a control character.
    pub name: Name,
    /// The points of the day, 0 to 1,000.
    pub points: u32,
}

/// The sheet of a day: a row for each pilot, in the order of the sheet.
#[derive(Debug, Drop)]
pub struct DaySheet {
    pub rows: Items<DayRow>,
}
