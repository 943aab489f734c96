//! What lists, sheets and standings are like, beside their rules. Each function states one law,
//! which holds of all of them; a call of it does nothing.
ghost use Rattle.gl_series.specs.declared.error.ListError.TheVariants as list;
ghost use Rattle.gl_series.specs.declared.error.SheetError.TheVariants as sheet;
ghost use Rattle.gl_series.specs.Laws.{HasOneReading, HasOneStanding};
ghost use Rattle.gl_series.specs.SeriesList.{IsList, IsRefused};
ghost use Rattle.gl_series.specs.SheetText.{IsRefusedSheet, IsSheetOf};

/// A text is that of one list, or it is refused for one reason.
pub fn one_list()
    ensures { HasOneReading IsList IsRefused list.Memory }
{}

/// A text is that of one sheet, or it is refused for one reason.
pub fn one_sheet()
    ensures { HasOneReading IsSheetOf IsRefusedSheet sheet.Memory }
{}

/// A list and the sheets of its days have one standing: two that are both theirs are one.
pub fn one_standing()
    ensures { HasOneStanding }
{}
