ghost use Rattle.std.specs.Prelude.{◌≡◌, ◌++◌, IfOk, OnOk};
ghost use Rattle.gl_desk.specs.Answers.{OnlyReads, stop_of};
ghost use Rattle.gl_desk.specs.Desk.{ListsNames};
ghost use Rattle.gl_look.specs.Code.Readings.{IsKnownAir};
ghost use Rattle.gl_look.specs.Flights.{AddsTold, IsAirSlipOf, IsAirTextSlip, IsAirTold, IsNamedAirTold, slip_of_air};
ghost use Rattle.gl_look.specs.Keys.{told_if};
ghost use Rattle.gl_look.specs.declared.told.Subject.TheVariants as subject;

use crate::folder::about_file;
use crate::folder_words::words_of_missing_airspace;
use crate::recording::unless_marked;
use crate::remarks::Remarks;
use crate::scan::Scan;
use crate::sight::{Sight, see};
use crate::told::{Place, Section, Slip, Told};
use gl_airspace::{AirError, Airspace, read_openair};
use gl_desk::{Desk, DeskError, Name};
use std::alloc::{AllocError, Global};

/// What is wrong with an airspace text, as it was read.
fn slip_of_air(read: &Result<Airspace, AirError>) -> Option<Slip>
    ensures { result ≡ slip_of_air read.now }
{
    match read {
        Ok(_) => None,
        Err(_) => Some(Slip::NotRead),
    }
}

/// What is read of an airspace text; want of memory apart.
fn read_text(alloc: Global, text: &[u8]) -> Result<Result<Airspace, AirError>, AllocError>
    ensures { IfOk result (IsKnownAir text.now) }
{
    match read_openair(alloc, text) {
        Ok(air) => Ok(Ok(air)),
        Err(AirError::Memory) => Err(AllocError),
        Err(error) => Ok(Err(error)),
    }
}

/// Why an airspace text doesn't read, and what to do.
fn words_of_read(
    alloc: Global,
    slip: Option<Slip>,
    read: &Result<Airspace, AirError>,
) -> Result<String, AllocError> {
    match (slip, read) {
        (None, _) => Ok(String::new(alloc)),
        (Some(Slip::Mark), _) => String::from_str(
            alloc,
            ", the airspace file, begins with a byte-order mark, which none can have. Save it without one",
        ),
        (_, Err(AirError::Line(line))) => format!(in alloc;
            ", the airspace file, line {line}: this doesn't read. docs/airspace.md has what does"
        ),
        (_, Err(AirError::TooMany(line))) => format!(in alloc;
            ", the airspace file, line {line}: this is too much. It may have 256 volumes and 4096 corners"
        ),
        _ => String::from_str(alloc, ", the airspace file, doesn't read"),
    }
}

/// What is wrong with the bytes of an airspace file, and the words for it.
fn look_at_bytes(alloc: Global, text: &[u8]) -> Result<(Option<Slip>, String), AllocError>
    ensures { IfOk result (λ found. IsAirTextSlip text.now found.0) }
{
    let read = read_text(alloc, text)?;
    let slip = unless_marked(text, slip_of_air(&read));
    let words = words_of_read(alloc, slip, &read)?;
    Ok((slip, words))
}

/// What is wrong with an airspace file of which this is seen, and the words for it.
fn look_at_sight(
    alloc: Global,
    names: &[Name],
    file: &Name,
    sight: &Sight,
) -> Result<(Option<Slip>, String), AllocError>
    ensures { IfOk result (λ found. IsAirSlipOf sight.now found.0) }
{
    match sight {
        Sight::Absent => {
            let words = words_of_missing_airspace(alloc, names, file)?;
            Ok((Some(Slip::NoFile), words))
        }
        Sight::TooLarge => {
            let words = String::from_str(
                alloc,
                ", the airspace file, has more than 16777216 bytes. Take the airspace out that is far away",
            )?;
            Ok((Some(Slip::TooLarge), words))
        }
        Sight::Bytes(text) => look_at_bytes(alloc, text),
    }
}

/// Remarks what is wrong with an airspace file, if something is.
fn push_found(
    alloc: Global,
    remarks: &mut Remarks,
    scan: Scan<'_>,
    file: &Name,
    slip: Option<Slip>,
    words: String,
) -> Result<(), AllocError>
    ensures { OnOk result (remarks.new ≡ remarks.old ++ told_if (subject.File file.now) slip) }
{
    let top = Place {
        section: Section::Day,
        item: 0,
        part: 0,
    };
    match slip {
        Some(slip) => {
            let subject = about_file(alloc, file)?;
            let head = scan.head(alloc, scan.line_of_key(top, "airspace"))?;
            remarks.push(Told { subject, slip }, head, words)
        }
        None => Ok(()),
    }
}

/// Remarks what is wrong with an airspace file.
fn look_at_file<D: Desk>(
    alloc: Global,
    desk: &mut D,
    remarks: &mut Remarks,
    scan: Scan<'_>,
    names: &[Name],
    file: &Name,
) -> Result<(), DeskError>
    requires { ListsNames (D.told desk.old).folder names.now }
    ensures told { OnOk result (AddsTold
        (IsAirTold (D.told desk.old).folder names.now file.now) remarks.old remarks.new) }
    ensures reads { OnlyReads (stop_of result) (D.told desk.old) (D.told desk.new) }
{
    let sight = see(alloc, desk, names, file)?;
    let (slip, words) = look_at_sight(alloc, names, file, &sight)?;
    push_found(alloc, remarks, scan, file, slip, words)?;
    Ok(())
}

/// Remarks what is wrong with the airspace file, if the task names one.
pub fn look_at_airspace<D: Desk>(
    alloc: Global,
    desk: &mut D,
    remarks: &mut Remarks,
    scan: Scan<'_>,
    names: &[Name],
    airspace: &Option<Name>,
) -> Result<(), DeskError>
    requires { ListsNames (D.told desk.old).folder names.now }
    ensures told { OnOk result (AddsTold
        (IsNamedAirTold (D.told desk.old).folder names.now airspace.now) remarks.old remarks.new) }
    ensures reads { OnlyReads (stop_of result) (D.told desk.old) (D.told desk.new) }
{
    match airspace {
        Some(file) => look_at_file(alloc, desk, remarks, scan, names, file),
        None => Ok(()),
    }
}
