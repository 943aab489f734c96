//! A run of the desk of the real system in a real folder, as a test. It says the name, the length
//! and the SHA-1 digest of each file that the folder has, then what can't be read or appended to,
//! then what it appended, all files again, how many more are listed after a thousand are made, and
//! what the desk does over systems that fail in places.
//! The gate runs it in a copy of `data/` and compares what it says with `stdout`.
#![tactic(auto)]

mod faults;
mod odd;

use gl_desk::{Desk, DeskError, HostDesk, Name, ReadError, read_all};
use sha1::Sha1;
use std::alloc::{AllocError, Global};
use std::fs;
use std::os::unix::fs::symlink;

/// How many bytes the longest file has: more than any piece in which a file is read or written.
const LONGEST: u64 = 1_300_000;

/// How many bytes the longest name has.
const LONG_NAME: usize = 200;

/// The desk of the current folder.
type Folder<'a> = HostDesk<&'a HostRuntime>;

/// The length of a file and its digest, or why it wasn't read.
fn describe(alloc: Global, read: Result<Vec<u8>, ReadError>) -> Result<String, AllocError> {
    match read {
        Ok(bytes) => {
            let digest = hex::encode(alloc, Sha1::digest(&bytes))?;
            format!(in alloc; "{} {digest}", bytes.len())
        }
        Err(ReadError::Fault) => String::from_str(alloc, "isn't read: a fault"),
        Err(ReadError::TooLarge) => String::from_str(alloc, "isn't read: too large"),
        Err(ReadError::Memory) => String::from_str(alloc, "isn't read: no memory"),
    }
}

/// Reads a file of at most `limit` bytes, and says its line.
fn show(alloc: Global, desk: &mut Folder, name: &Name, limit: u64) -> Result<(), DeskError> {
    let read = read_all(alloc, desk, name, limit);
    let found = describe(alloc, read)?;
    let line = format!(in alloc; "{} {found}\n", name.as_str())?;
    desk.say(alloc, line.as_bytes())
}

/// Shows each file of the folder, in the order of the names.
fn show_all(alloc: Global, desk: &mut Folder) -> Result<(), DeskError> {
    let mut names = desk.names(alloc)?;
    names.sort()?;
    for name in &names {
        show(alloc, desk, name, LONGEST)?;
    }
    Ok(())
}

/// Appends a piece to a file, and says what came of it.
fn append(alloc: Global, desk: &mut Folder, name: &str, piece: &[u8]) -> Result<(), DeskError> {
    let name = Name::from_text(alloc, name)?;
    let outcome = match desk.append(alloc, &name, piece) {
        Ok(()) => "is appended to",
        Err(DeskError::Failed) => "isn't appended to: a fault",
        Err(DeskError::Memory) => "isn't appended to: no memory",
    };
    let line = format!(in alloc; "{} {outcome}\n", name.as_str())?;
    desk.say(alloc, line.as_bytes())
}

/// Reads from a place that no file of the system has, and says what came of it.
fn read_nowhere(alloc: Global, desk: &mut Folder, name: &Name) -> Result<(), DeskError> {
    let mut into = [0; 8];
    let outcome = match desk.read_at(alloc, name, u64::MAX, &mut into) {
        Ok(_) => "is read past its end",
        Err(DeskError::Failed) => "isn't read past its end: a fault",
        Err(DeskError::Memory) => "isn't read past its end: no memory",
    };
    let line = format!(in alloc; "{} {outcome}\n", name.as_str())?;
    desk.say(alloc, line.as_bytes())
}

/// Appends all bytes of the longest file to another in one piece.
fn copy_longest(alloc: Global, desk: &mut Folder, name: &Name) -> Result<(), DeskError> {
    match read_all(alloc, desk, name, LONGEST) {
        Ok(bytes) => append(alloc, desk, "COPY.BIN", &bytes),
        Err(_) => Ok(()),
    }
}

/// Makes a thousand empty files, and says how many more are listed then.
fn make_a_thousand(alloc: Global, desk: &mut Folder) -> Result<(), DeskError> {
    let before = desk.names(alloc)?.len();
    for number in 0..1000 {
        let name = format!(in alloc; "F{number:03}.BIN")?;
        desk.append(alloc, &Name::from_text(alloc, name.as_str())?, b"")?;
    }
    let more = desk.names(alloc)?.len().saturating_sub(before);
    let line = format!(in alloc; "{more} more files\n")?;
    desk.say(alloc, line.as_bytes())
}

/// The longest file, whose bytes count from 0 to 250 over and over, and an empty one with a long
/// name. The desk has no part in making them.
fn make_files(rt: &HostRuntime) -> Result<(), DeskError> {
    let alloc = rt.alloc();
    let mut bytes = Vec::new(alloc);
    for at in 0..LONGEST {
        bytes.push((at % 251) as u8)?;
    }
    let mut name = String::new(alloc);
    for _ in 0..LONG_NAME {
        name.push('N')?;
    }
    fs::write(rt, "LONG.BIN", bytes.as_slice()).map_err(|_| DeskError::Failed)?;
    fs::write(rt, name.as_str(), b"").map_err(|_| DeskError::Failed)
}

/// A link to a file, and one that leads nowhere.
fn make_links(rt: &HostRuntime) -> Result<(), DeskError> {
    symlink(rt, "ONE.BIN", "LINK.BIN").map_err(|_| DeskError::Failed)?;
    symlink(rt, "NOWHERE.BIN", "LOOSE.BIN").map_err(|_| DeskError::Failed)
}

/// Appends two pieces to a file that is moved between them, and whose name another file takes.
fn append_to_moved(rt: &HostRuntime, alloc: Global, desk: &mut Folder) -> Result<(), DeskError> {
    append(alloc, desk, "GROWS.BIN", b"one")?;
    fs::rename(rt, "GROWS.BIN", "MOVED.BIN").map_err(|_| DeskError::Failed)?;
    append(alloc, &mut HostDesk::new(rt), "GROWS.BIN", b"x")?;
    append(alloc, desk, "GROWS.BIN", b"two")
}

fn main(rt: HostRuntime) -> Result<(), DeskError> {
    let alloc = rt.alloc();
    let mut desk = HostDesk::new(&rt);
    make_files(&rt)?;
    make_links(&rt)?;
    show_all(alloc, &mut desk)?;
    let longest = Name::from_text(alloc, "LONG.BIN")?;
    show(alloc, &mut desk, &longest, LONGEST - 1)?;
    read_nowhere(alloc, &mut desk, &longest)?;
    // The one is missing and can't be opened; the other is a folder, which can be, and can't be
    // read.
    for name in ["MISSING.BIN", "SUB.DIR"] {
        let name = Name::from_text(alloc, name)?;
        show(alloc, &mut desk, &name, LONGEST)?;
    }
    // Something stands under each of these names already, and is left as it is.
    for name in ["SUB.DIR", "ONE.BIN", "LINK.BIN", "LOOSE.BIN", "/dev/null"] {
        append(alloc, &mut desk, name, b"x")?;
        append(alloc, &mut desk, name, b"x")?;
    }
    append(alloc, &mut desk, "NEW.BIN", b"")?;
    append(alloc, &mut desk, "PARTS.BIN", b"one")?;
    append(alloc, &mut desk, "PARTS.BIN", b"two")?;
    copy_longest(alloc, &mut desk, &longest)?;
    append_to_moved(&rt, alloc, &mut desk)?;
    show_all(alloc, &mut desk)?;
    make_a_thousand(alloc, &mut desk)?;
    faults::show_all(&rt)
}
