ghost use Rattle.std.specs.Prelude.{◌≡◌, ◌++◌, ℕ, List, if◌then◌else◌, IfOk, IsPermutation, OnOk, None, Some};
ghost use Rattle.std.specs.Cmp.Lexicographic.{slice_cmp};
ghost use Rattle.std.specs.List.{flat_map, list_any};
ghost use Rattle.std.specs.List.Sorted.{IsSorted};
ghost use Rattle.std.specs.Ordering.{nat_cmp};
ghost use Rattle.gl_text.specs.Forms.{is_text};
ghost use Rattle.gl_look.specs.Folder.{are_far, handicaps_told, has_file, is_far, is_igc, shared_told, slip_of_name, unnamed_told};
ghost use Rattle.gl_look.specs.Keys.{told_if};

use crate::folder_words::{words_of_handicaps, words_of_shared};
use crate::remarks::Remarks;
use crate::scan::Scan;
use crate::told::{Slip, Subject, Told};
use gl_desk::Name;
use gl_task::Entrant;
use std::alloc::{AllocError, Global};

/// Whether two names are one.
fn is_text(name: &Name, other: &Name) -> bool
    ensures { result ≡ is_text name.now other.now }
{
    name.as_str() == other.as_str()
}

/// The name of an entrant, as the subject of a remark.
pub fn about(alloc: Global, entrant: &Entrant) -> Result<Subject, AllocError>
    ensures { IfOk result (λ subject. subject ≡ Subject.Entrant entrant.now.number) }
{
    let number = Name::from_text(alloc, entrant.number.as_str())?;
    Ok(Subject::Entrant(number))
}

/// A file, as the subject of a remark.
pub fn about_file(alloc: Global, file: &Name) -> Result<Subject, AllocError>
    ensures { IfOk result (λ subject. subject ≡ Subject.File file.now) }
{
    Ok(Subject::File(Name::from_text(alloc, file.as_str())?))
}

/// Whether an entrant has a file.
fn has_file(file: &Name, entrant: &Entrant) -> bool
    ensures { result ≡ has_file file.now entrant.now }
{
    is_text(&entrant.file, file)
}

/// Whether one of some entrants has a file.
fn is_named(file: &Name, entrants: &[Entrant]) -> bool
    ensures { result ≡ list_any (has_file file.now) entrants.now }
{
    entrants.iter().any(|entrant| has_file(file, entrant))
}

/// Remarks that one behind an entrant has his file.
fn look_for_share(
    alloc: Global,
    remarks: &mut Remarks,
    scan: Scan<'_>,
    entrant: &Entrant,
    others: &[Entrant],
) -> Result<(), AllocError>
    ensures { OnOk result (remarks.new
        ≡ remarks.old ++ told_if (Subject.Entrant entrant.now.number)
        (if list_any (has_file entrant.now.file) others.now then Some Slip.Shared else None)) }
{
    if !is_named(&entrant.file, others) {
        return Ok(());
    }
    let told = Told {
        subject: about(alloc, entrant)?,
        slip: Slip::Shared,
    };
    let head = scan.head(alloc, scan.line_of_number(entrant.number.as_str()))?;
    let words = words_of_shared(alloc, entrant, others)?;
    remarks.push(told, head, words)
}

/// Remarks which entrants have one file.
pub fn look_for_shares(
    alloc: Global,
    remarks: &mut Remarks,
    scan: Scan<'_>,
    entrants: &[Entrant],
) -> Result<(), AllocError>
    ensures { OnOk result (remarks.new ≡ remarks.old ++ shared_told entrants.now) }
{
    let mut rest = entrants;
    'entrants: while let Some((entrant, others)) = rest.split_first() {
        look_for_share(alloc, remarks, scan, entrant, others)?;
        rest = others;
    }
    Ok(())
}

/// Whether one handicap is more than one and a half times another.
fn is_far(great: &Entrant, small: &Entrant) -> bool
    ensures { result ≡ is_far great.now small.now }
{
    3 * u64::from(small.handicap) < 2 * u64::from(great.handicap)
}

/// Whether the handicap of an entrant is more than one and a half times one of some others.
fn is_far_from_any(great: &Entrant, entrants: &[Entrant]) -> bool
    ensures { result ≡ list_any (is_far great.now) entrants.now }
{
    entrants.iter().any(|small| is_far(great, small))
}

/// Whether one of the handicaps is more than one and a half times another.
fn are_far(entrants: &[Entrant]) -> bool
    ensures { result ≡ are_far entrants.now }
{
    entrants
        .iter()
        .any(|great| is_far_from_any(great, entrants))
}

/// Remarks that the handicaps differ by more than can be meant.
pub fn look_at_handicaps(
    alloc: Global,
    remarks: &mut Remarks,
    scan: Scan<'_>,
    entrants: &[Entrant],
) -> Result<(), AllocError>
    ensures { OnOk result (remarks.new ≡ remarks.old ++ handicaps_told entrants.now) }
{
    if !are_far(entrants) {
        return Ok(());
    }
    let told = Told {
        subject: Subject::Task,
        slip: Slip::Handicaps,
    };
    let head = scan.head(alloc, None)?;
    remarks.push(told, head, words_of_handicaps(alloc, entrants)?)
}

/// Whether a name ends in `.igc`, in small letters or capitals.
fn is_igc(name: &str) -> bool
    ensures { result ≡ is_igc name.now }
{
    let bytes = name.as_bytes();
    bytes.len() >= 4 && bytes[bytes.len() - 4..].eq_ignore_ascii_case(b".igc")
}

/// What is wrong with a file of the folder, as a recording that no entrant names.
fn slip_of_name(entrants: &[Entrant], name: &Name) -> Option<Slip>
    ensures { result ≡ slip_of_name entrants.now name.now }
{
    if is_igc(name.as_str()) && !is_named(name, entrants) {
        Some(Slip::Unnamed)
    } else {
        None
    }
}

/// Remarks that no entrant names a recording.
fn look_at_name(
    alloc: Global,
    remarks: &mut Remarks,
    entrants: &[Entrant],
    name: &Name,
) -> Result<(), AllocError>
    ensures { OnOk result (remarks.new
        ≡ remarks.old ++ told_if (Subject.File name.now) (slip_of_name entrants.now name.now)) }
{
    match slip_of_name(entrants, name) {
        Some(slip) => {
            let subject = about_file(alloc, name)?;
            let words = String::from_str(
                alloc,
                ": no entrant has this recording. Add one for it, or move it out of the folder",
            )?;
            remarks.push(Told { subject, slip }, String::new(alloc), words)
        }
        None => Ok(()),
    }
}

/// Names in the order of their bytes.
fn sorted(names: Vec<Name>) -> Result<Vec<Name>, AllocError>
    ensures same { IfOk result (λ sorted. IsPermutation names.items sorted.items) }
    ensures sorted { IfOk result (λ sorted. IsSorted (slice_cmp nat_cmp) sorted.items) }
{
    let mut names = names;
    names.sort()?;
    Ok(names)
}

/// Remarks which recordings no entrant names, of names in their order.
fn look_at_names(
    alloc: Global,
    remarks: &mut Remarks,
    entrants: &[Entrant],
    names: &[Name],
) -> Result<(), AllocError>
    ensures { OnOk result (remarks.new ≡ remarks.old ++ unnamed_told entrants.now names.now) }
{
    'names: for name in names {
        look_at_name(alloc, remarks, entrants, name)?;
    }
    Ok(())
}

/// Remarks which recordings no entrant names, in the order of their names.
pub fn look_for_unnamed(
    alloc: Global,
    remarks: &mut Remarks,
    entrants: &[Entrant],
    names: Vec<Name>,
) -> Result<(), AllocError>
    ensures { OnOk result ((sorted : List (List ℕ)) × IsPermutation names.items sorted
        × IsSorted (slice_cmp nat_cmp) sorted
        × (remarks.new ≡ remarks.old ++ unnamed_told entrants.now sorted)) }
{
    let names = sorted(names)?;
    look_at_names(alloc, remarks, entrants, &names)
}
