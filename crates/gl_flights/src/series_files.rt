ghost use Rattle.std.specs.Prelude.{◌≡◌, IfOk};
ghost use Rattle.std.specs.List.{AllZip};
ghost use Rattle.gl_desk.specs.Answers.{OnlyReads};
ghost use Rattle.gl_desk.specs.Desk.{HasFile, IsSeenIn, ListsNames};
ghost use Rattle.gl_desk.specs.Limits.{most_bytes};
ghost use Rattle.gl_series.specs.SeriesList.{IsList, IsSeries};
ghost use Rattle.gl_series.specs.SheetText.{IsSheetOf};
ghost use Rattle.gl_series.specs.Totals.{AreDays};
ghost use Rattle.gl_words.specs.SeriesWords.{series_seen};
ghost use Rattle.gl_answer.specs.ReadFiles.{HasRead, HasReadFile};
ghost use Rattle.gl_answer.specs.FileTests.{HasTested};
ghost use Rattle.gl_answer.specs.Halts.{IsNoFault, halt_stop};
ghost use Rattle.gl_flights.specs.SeriesFiles.{AreSeriesRead, IsDaySeen, IsListRead, IsSeriesSeen, IsSheetRead, SeriesListText, SheetText, day_tests, days_tests, list_cause, series_tests, sheet_cause, tests_of};

use gl_answer::{Cause, Halt, need, read_bytes, refusing_for};
use gl_desk::{Desk, MOST_BYTES, Name};
use gl_series::{DaySheet, ListError, Series, SheetError, read_day, read_list};
use gl_words::SeriesWords;
use std::alloc::Global;

/// Why a text is no list of a championship; `None` for want of memory.
fn list_cause(error: ListError) -> Option<Cause>
    ensures { result ≡ list_cause error }
{
    match error {
        ListError::Heading => Some(Cause::NoListHeading),
        ListError::Line(line) => Some(Cause::WrongListLine(line)),
        ListError::Memory => None,
    }
}

/// Why a text is no sheet of a day; `None` for want of memory.
fn sheet_cause(error: SheetError) -> Option<Cause>
    ensures { result ≡ sheet_cause error }
{
    match error {
        SheetError::Heading => Some(Cause::NoSheetHeading),
        SheetError::Record(number) => Some(Cause::WrongRecord(number)),
        SheetError::Memory => None,
    }
}

/// The list of a text.
fn list_in(alloc: Global, file: &Name, text: &[u8]) -> Result<Series, Halt>
    ensures read { HasRead SeriesListText file.now text.now IsList result }
    ensures no_fault { IsNoFault result }
{
    match read_list(alloc, text) {
        Ok(series) => Ok(series),
        Err(error) => Err(refusing_for(file, list_cause(error))),
    }
}

/// The list of a listed file.
fn read_list_file<D: Desk>(alloc: Global, desk: &mut D, file: &Name) -> Result<Series, Halt>
    requires { HasFile (D.told desk.old).folder file.now }
    ensures read { HasReadFile SeriesListText most_bytes (D.told desk.old).folder file.now
        IsList result }
    ensures reads { OnlyReads (halt_stop result) (D.told desk.old) (D.told desk.new) }
{
    let bytes = read_bytes(alloc, desk, file, MOST_BYTES)?;
    list_in(alloc, file, &bytes)
}

/// The list of a file that passes its tests: LIST is of the folder's names; it has at most
/// 16,777,216 bytes; it is a list.
fn test_list<D: Desk>(
    alloc: Global,
    desk: &mut D,
    names: &[Name],
    file: &Name,
) -> Result<Series, Halt>
    requires { ListsNames (D.told desk.old).folder names.now }
    ensures tested { HasTested (λ seen. IsSeenIn (D.told desk.old).folder file.now seen)
        (tests_of SeriesListText file.now) IsListRead result }
    ensures reads { OnlyReads (halt_stop result) (D.told desk.old) (D.told desk.new) }
{
    need(names, file)?;
    read_list_file(alloc, desk, file)
}

/// The sheet of a text.
fn sheet_in(alloc: Global, file: &Name, text: &[u8]) -> Result<DaySheet, Halt>
    ensures read { HasRead SheetText file.now text.now IsSheetOf result }
    ensures no_fault { IsNoFault result }
{
    match read_day(alloc, text) {
        Ok(sheet) => Ok(sheet),
        Err(error) => Err(refusing_for(file, sheet_cause(error))),
    }
}

/// The sheet of a listed file.
fn read_sheet_file<D: Desk>(alloc: Global, desk: &mut D, file: &Name) -> Result<DaySheet, Halt>
    requires { HasFile (D.told desk.old).folder file.now }
    ensures read { HasReadFile SheetText most_bytes (D.told desk.old).folder file.now
        IsSheetOf result }
    ensures reads { OnlyReads (halt_stop result) (D.told desk.old) (D.told desk.new) }
{
    let bytes = read_bytes(alloc, desk, file, MOST_BYTES)?;
    sheet_in(alloc, file, &bytes)
}

/// The sheet of a day whose file passes its tests: the folder lists it; it has at most 16,777,216
/// bytes; it is a sheet.
fn test_day<D: Desk>(
    alloc: Global,
    desk: &mut D,
    names: &[Name],
    file: &Name,
) -> Result<DaySheet, Halt>
    requires { ListsNames (D.told desk.old).folder names.now }
    ensures tested { HasTested (IsDaySeen (D.told desk.old).folder file.now) day_tests
        IsSheetRead result }
    ensures reads { OnlyReads (halt_stop result) (D.told desk.old) (D.told desk.new) }
{
    need(names, file)?;
    read_sheet_file(alloc, desk, file)
}

/// The sheets of some days, whose files are tested one after the other.
fn test_days<D: Desk>(
    alloc: Global,
    desk: &mut D,
    names: &[Name],
    files: &[Name],
) -> Result<Vec<DaySheet>, Halt>
    requires { ListsNames (D.told desk.old).folder names.now }
    ensures tested { HasTested (AllZip (IsDaySeen (D.told desk.old).folder) files.now)
        days_tests (λ days sheets. AllZip IsSheetRead days sheets.items) result }
    ensures reads { OnlyReads (halt_stop result) (D.told desk.old) (D.told desk.new) }
{
    let mut sheets = Vec::new(alloc);
    for file in files {
        let sheet = test_day(alloc, desk, names, file)?;
        sheets.push(sheet)?;
    }
    Ok(sheets)
}

/// The list and the sheets that `series` needs, where their files pass its tests.
///
/// The tests are made in this order: LIST is of the folder's names; it has at most 16,777,216
/// bytes; it is a list; and then for each day, in the order of the list, the same of its sheet.
pub(crate) fn test_series_files<D: Desk>(
    alloc: Global,
    desk: &mut D,
    names: &[Name],
    words: SeriesWords<'_>,
) -> Result<(Series, Vec<DaySheet>), Halt>
    requires { ListsNames (D.told desk.old).folder names.now }
    ensures tested { HasTested (IsSeriesSeen (series_seen words.entry) (D.told desk.old).folder)
        (series_tests (series_seen words.entry)) AreSeriesRead result }
    ensures fit { IfOk result (λ read. IsSeries read.0 × AreDays read.1.items) }
    ensures reads { OnlyReads (halt_stop result) (D.told desk.old) (D.told desk.new) }
{
    let series = test_list(alloc, desk, names, words.list)?;
    let sheets = test_days(alloc, desk, names, series.days.as_slice())?;
    Ok((series, sheets))
}
