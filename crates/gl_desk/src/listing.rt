ghost use Rattle.std.specs.Prelude.{◌≡◌, ◌+◌, ◌≤◌, ◌++◌, ◌↔◌, ◌⊎◌, [], vec_len, IsTrue, IsSome, IfOk, IfErr, IfSome, OnOk};
ghost use Rattle.std.specs.Option.{option_to_list};
ghost use Rattle.std.specs.Fs.{dir_entry_name, IsFile};
ghost use Rattle.std.specs.IoError.{error_kind};
ghost use Rattle.gl_desk.specs.Code.Outcome.{IsUnnamed};

use crate::name::Name;
use crate::system::SystemError;
use std::alloc::{Alloc, Global};
use std::fs::{DirEntry, FileType};
use std::io::ErrorKind;
use std::rt::Files;
use std::{fs, io};

/// The most entries of a folder that is listed.
const MOST_ENTRIES: u64 = 1_000_000;

/// What a folder with more entries is answered with.
fn too_many_entries() -> io::Error
    ensures { error_kind result ≡ ErrorKind.Other }
{
    io::Error::new(ErrorKind::Other, "too many entries")
}

/// How many entries of a folder were seen, and the names that were listed of them.
#[derive(Drop)]
struct Listing {
    entries: u64,
    names: Vec<Name>,
    ghost most: { entries ≤ 1_000_000 },
    ghost seen: { vec_len names ≤ entries },
}

impl Listing {
    /// Before the first entry.
    fn new(alloc: Global) -> Listing
        ensures entries { result.entries ≡ 0 }
        ensures names { result.names.items ≡ [] }
    {
        Listing {
            entries: 0,
            names: Vec::new(alloc),
        }
    }

    /// Counts an entry, and lists its name where it has one to be listed. An error in its place is
    /// handed on. Beside want of memory the one other error is an entry after the [`MOST_ENTRIES`]
    /// that a folder may have, and it isn't told as want of memory.
    fn add(&mut self, entry: Result<Option<Name>, SystemError>) -> Result<(), SystemError>
        ensures handed_on { IfErr entry (λ error. result ≡ Err error) }
        ensures counted { OnOk result (self.new.entries ≡ self.old.entries + 1) }
        ensures listed { IfOk entry (λ name. OnOk result
            (self.new.names.items ≡ self.old.names.items ++ option_to_list name)) }
        ensures refused { OnOk entry (IfErr result (λ error.
            (self.old.entries ≡ 1_000_000) × (error_kind error.error ≡ ErrorKind.Other)
            ⊎ (error_kind error.error ≡ ErrorKind.OutOfMemory))) }
    {
        let name = entry?;
        if self.entries == MOST_ENTRIES {
            return Err(SystemError::from(too_many_entries()));
        }
        self.entries += 1;
        if let Some(name) = name {
            self.names.push(name).map_err(io::Error::from)?;
        }
        Ok(())
    }
}

impl Listing {
    /// Counts an entry, and lists its name where it is a plain file.
    fn add_entry<Rt: Files + Drop>(
        &mut self,
        alloc: Global,
        entry: Result<DirEntry<Rt>, SystemError>,
    ) -> Result<(), SystemError>
        ensures { OnOk result (self.new.entries ≡ self.old.entries + 1) }
    {
        self.add(listed_name(alloc, entry))
    }
}

/// Whether the listing came upon an entry whose name isn't UTF-8, which it gives without a name.
fn is_unnamed(error: &io::Error) -> bool
    ensures { IsTrue result ↔ IsUnnamed error.now }
{
    error.kind() == ErrorKind::InvalidFilename && error.raw_os_error().is_none()
}

/// The kind of an entry.
fn kind_of<Rt: Files + Drop>(entry: &DirEntry<Rt>) -> Result<FileType, SystemError> {
    Ok(entry.file_type()?)
}

/// The name of an entry of this kind, where it is a plain file. A symbolic link is none.
fn name_if_plain(
    alloc: Global,
    kind: Result<FileType, SystemError>,
    name: &str,
) -> Result<Option<Name>, SystemError>
    ensures plain { IfOk kind (λ kind. IfOk result (λ found. IsSome found ↔ IsFile kind)) }
    ensures name { IfOk result (λ found. IfSome found (λ found_name. found_name ≡ name.now)) }
    ensures handed_on { IfErr kind (λ error. result ≡ Err error) }
{
    if kind?.is_file() {
        Ok(Some(Name::from_text(alloc, name).map_err(io::Error::from)?))
    } else {
        Ok(None)
    }
}

/// What is listed in place of an entry that came to an error: nothing where it has no name, and
/// else the error is handed on.
fn unlisted(error: SystemError) -> Result<Option<Name>, SystemError>
    ensures passed_over { IsUnnamed error.error → result ≡ Ok None }
    ensures handed_on { ¬ IsUnnamed error.error → result ≡ Err error }
{
    match error {
        SystemError { error } if is_unnamed(&error) => Ok(None),
        error => Err(error),
    }
}

/// The name under which an entry is listed, if it is.
fn listed_name<Rt: Files + Drop>(
    alloc: Global,
    entry: Result<DirEntry<Rt>, SystemError>,
) -> Result<Option<Name>, SystemError>
    ensures name { IfOk entry (λ entry. IfOk result (λ found.
        IfSome found (λ name. name ≡ dir_entry_name entry))) }
    ensures passed_over { IfErr entry (λ error. IsUnnamed error.error → result ≡ Ok None) }
    ensures handed_on { IfErr entry (λ error. ¬ IsUnnamed error.error → result ≡ Err error) }
{
    match entry {
        Ok(entry) => name_if_plain(alloc, kind_of(&entry), entry.file_name()),
        Err(error) => unlisted(error),
    }
}

/// The names of the plain files in the current folder of a runtime that allocates.
fn names_there<R: Files + Alloc<A = Global> + Clone + Drop>(
    rt: &R,
    alloc: Global,
) -> Result<Vec<Name>, SystemError>
    ensures { IfOk result (λ names. vec_len names ≤ 1_000_000) }
{
    let mut listing = Listing::new(alloc);
    for entry in fs::read_dir(rt, ".")? {
        listing.add_entry(alloc, entry.map_err(SystemError::from))?;
    }
    Ok(listing.names)
}

/// The names of the plain files in the current folder. More than [`MOST_ENTRIES`] entries of any
/// kind are an error.
pub fn plain_names<Rt: Files>(rt: &Rt, alloc: Global) -> Result<Vec<Name>, SystemError>
    ensures { IfOk result (λ names. vec_len names ≤ 1_000_000) }
{
    names_there(&(rt, alloc), alloc)
}
