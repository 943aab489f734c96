//! What the sheet is like, beside its rules. Each function states one law, which holds of every
//! sheet; a call of it does nothing.
ghost use Rattle.gl_sheet.specs.Laws.{HasOneSheet};

/// A task and its rows have one sheet: two texts that are both their sheet are one.
pub fn one_sheet()
    ensures { HasOneSheet }
{}
