//! The desk over a system like the real one, but for what is odd about it.

use crate::odd::{Broken, OddSystem};
use gl_desk::{Desk, DeskError, HostDesk, Name, ReadError, read_all};
use std::alloc::{AllocError, Global};
use std::fs;
use std::rt::Files;

/// Says a line.
fn say(rt: &HostRuntime, line: &str) -> Result<(), DeskError> {
    println!(rt; "{line}").map_err(|_| DeskError::Failed)
}

/// How many files are listed where so many entries without a name come after those of the current
/// folder.
fn listed<R: Files + Drop>(real: R, alloc: Global, unnamed: usize) -> Result<usize, DeskError> {
    let mut system = OddSystem::new(real);
    system.unnamed = unnamed;
    Ok(HostDesk::new(system).names(alloc)?.len())
}

/// What has no name is passed over, and counts among the million entries.
fn show_entries(rt: &HostRuntime) -> Result<(), DeskError> {
    let alloc = rt.alloc();
    let files = HostDesk::new(rt).names(alloc)?.len();
    let entries = match fs::read_dir(&(rt, alloc), ".") {
        Ok(entries) => entries.count(),
        Err(_) => return Err(DeskError::Failed),
    };
    let room = 1_000_000usize.saturating_sub(entries);
    for (shows, unnamed) in [
        ("one entry more", 1),
        ("a million entries", room),
        ("a million and one", room.saturating_add(1)),
    ] {
        let told = match listed(rt, alloc, unnamed) {
            Ok(found) if found == files => "the same files",
            Ok(_) => "other files",
            Err(DeskError::Failed) => "a fault",
            Err(DeskError::Memory) => "no memory",
        };
        say(rt, format!(in alloc; "{shows}: {told}")?.as_str())?;
    }
    Ok(())
}

/// Which calls of a desk over a system that is broken in this way fail: the listing, the reading of
/// one file, the appending to another, and saying something.
fn failing_calls<R: Files + Drop>(
    real: R,
    alloc: Global,
    broken: Broken,
) -> Result<String, DeskError> {
    let one = Name::from_text(alloc, "ONE.BIN")?;
    let fresh = Name::from_text(alloc, "FRESH.BIN")?;
    let mut system = OddSystem::new(real);
    system.broken = broken;
    let mut desk = HostDesk::new(system);
    let listing = desk.names(alloc).err() == Some(DeskError::Failed);
    let reading = read_all(alloc, &mut desk, &one, 99).err() == Some(ReadError::Fault);
    let appending = desk.append(alloc, &fresh, b"x") == Err(DeskError::Failed);
    let saying = desk.say(alloc, b"x") == Err(DeskError::Failed);
    Ok(format!(in alloc;
        "{broken:?} is broken: listing {listing}, reading {reading}, appending {appending}, \
        saying {saying}"
    )?)
}

/// Each error of the system is a fault: which calls fail where a part of it is broken.
fn show_broken(rt: &HostRuntime) -> Result<(), DeskError> {
    for broken in [
        Broken::Nothing,
        Broken::Folder,
        Broken::Listing,
        Broken::Kind,
        Broken::Read,
        Broken::Interrupted,
        Broken::Write,
        Broken::FirstNumber,
        Broken::Print,
    ] {
        let told = failing_calls(rt, rt.alloc(), broken)?;
        say(rt, told.as_str())?;
        fs::remove_file(rt, "FRESH.BIN").map_err(|_| DeskError::Failed)?;
    }
    Ok(())
}

/// Appends a piece to a file and says it, by writes of at most so many bytes each: whether both
/// failed, and how many bytes were said.
fn write_by<R: Files + Drop>(
    real: R,
    alloc: Global,
    most: usize,
    piece: &str,
) -> Result<(bool, bool, usize), AllocError> {
    let name = Name::from_text(alloc, "PIECE.BIN")?;
    let mut system = OddSystem::new(real);
    system.most = most;
    let mut desk = HostDesk::new(&system);
    let appended = desk.append(alloc, &name, piece.as_bytes()).is_ok();
    let said = desk.say(alloc, piece.as_bytes()).is_ok();
    Ok((appended, said, system.printed.get()))
}

/// A text longer than any piece that is written at once.
fn long_text(alloc: Global) -> Result<String, AllocError> {
    let mut text = String::new(alloc);
    for _ in 0..300_000 {
        text.push_str("part")?;
    }
    Ok(text)
}

/// A piece is appended and said in parts: whether both were done, how many bytes were said, and how
/// many of the piece the file has.
fn show_parts(rt: &HostRuntime, most: usize, piece: &str) -> Result<(), DeskError> {
    let alloc = rt.alloc();
    let (appended, said, printed) = write_by(rt, alloc, most, piece)?;
    let Ok(file) = fs::read_to_string(&(rt, alloc), "PIECE.BIN") else {
        return Err(DeskError::Failed);
    };
    fs::remove_file(rt, "PIECE.BIN").map_err(|_| DeskError::Failed)?;
    let part = if piece.starts_with(file.as_str()) {
        file.len()
    } else {
        0
    };
    say(
        rt,
        format!(in alloc;
            "{} bytes by {most} at once: appended {appended}, said {said}, {printed} and {part} bytes",
            piece.len()
        )?
        .as_str(),
    )
}

/// Says what the desk does over the odd systems.
pub fn show_all(rt: &HostRuntime) -> Result<(), DeskError> {
    show_entries(rt)?;
    show_broken(rt)?;
    for most in [8, 3, 1, 0] {
        show_parts(rt, most, "by parts")?;
    }
    let long = long_text(rt.alloc())?;
    for most in [2_000_000, 70_000] {
        show_parts(rt, most, long.as_str())?;
    }
    Ok(())
}
