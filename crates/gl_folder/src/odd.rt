use std::alloc::Allocator;
use std::cell::Cell;
use std::fmt::Display;
use std::fs::{Metadata, OpenFile, OpenOptions};
use std::io;
use std::io::{Chain, ErrorKind, Read, Seek, SeekFrom, Write};
use std::rt::Files;

/// What of a system fails.
#[derive(Clone, Copy, Debug, PartialEq, Eq)]
pub enum Broken {
    Nothing,
    /// A folder can't be opened.
    Folder,
    /// A listing breaks off behind its entries.
    Listing,
    /// An entry is gone when its kind is asked for.
    Kind,
    /// A file can be opened, and not read.
    Read,
    /// A file can be opened, and each read of it is interrupted.
    Interrupted,
    /// A file can be opened, and not written to.
    Write,
    /// A file can be written to only under a further number, as if standard output had its first.
    FirstNumber,
    /// Nobody takes what is printed.
    Print,
}

/// A system like the real one, but for what is odd about it.
#[derive(Drop)]
pub struct OddSystem<R> {
    real: R,
    /// How many entries each listing has behind the real ones. Their names aren't UTF-8.
    pub unnamed: usize,
    /// How many bytes a write takes at most.
    pub most: usize,
    pub broken: Broken,
    /// How many bytes were printed. They go nowhere.
    pub printed: Cell<usize>,
}

impl<R> OddSystem<R> {
    /// A system with nothing odd about it, but that it prints nothing.
    pub fn new(real: R) -> OddSystem<R> {
        OddSystem {
            real,
            unnamed: 0,
            most: usize::MAX,
            broken: Broken::Nothing,
            printed: Cell::new(0),
        }
    }

    /// An error of this kind where this part is broken.
    fn check(&self, part: Broken, kind: ErrorKind) -> io::Result<()> {
        check(self.broken, part, kind)
    }
}

/// An error of this kind where what is broken is this part.
fn check(broken: Broken, part: Broken, kind: ErrorKind) -> io::Result<()> {
    if broken == part {
        return Err(io::Error::from(kind));
    }
    Ok(())
}

/// What a listing has behind the real entries: names that aren't UTF-8, each ended by a zero, and
/// then perhaps an error.
#[derive(Drop)]
pub struct Unnamed {
    left: usize,
    breaks: bool,
}

impl Read for Unnamed {
    fn read(&mut self, into: &mut [u8]) -> io::Result<usize> {
        if self.left == 0 && self.breaks {
            return Err(io::Error::from(ErrorKind::Other));
        }
        if self.left == 0 || into.len() < 2 {
            return Ok(0);
        }
        self.left -= 1;
        into[0] = 0xff;
        into[1] = 0;
        Ok(2)
    }
}

/// A file of an odd system.
#[derive(Drop)]
pub struct OddFile<F> {
    file: F,
    most: usize,
    broken: Broken,
    /// Whether it has a further number.
    is_clone: bool,
}

impl<F: Read> Read for OddFile<F> {
    fn read(&mut self, into: &mut [u8]) -> io::Result<usize> {
        check(self.broken, Broken::Read, ErrorKind::Other)?;
        check(self.broken, Broken::Interrupted, ErrorKind::Interrupted)?;
        self.file.read(into)
    }
}

impl<F: Write> Write for OddFile<F> {
    fn write(&mut self, piece: &[u8]) -> io::Result<usize> {
        check(self.broken, Broken::Write, ErrorKind::StorageFull)?;
        if !self.is_clone {
            check(self.broken, Broken::FirstNumber, ErrorKind::Other)?;
        }
        self.file.write(&piece[..self.most.min(piece.len())])
    }

    fn flush(&mut self) -> io::Result<()> {
        self.file.flush()
    }
}

impl<F: Seek> Seek for OddFile<F> {
    fn seek(&mut self, to: SeekFrom) -> io::Result<u64> {
        self.file.seek(to)
    }
}

impl<F: OpenFile> OpenFile for OddFile<F> {
    fn metadata(&self) -> io::Result<Metadata> {
        self.file.metadata()
    }

    fn set_len(&self, size: u64) -> io::Result<()> {
        self.file.set_len(size)
    }

    fn sync_all(&self) -> io::Result<()> {
        self.file.sync_all()
    }

    fn sync_data(&self) -> io::Result<()> {
        self.file.sync_data()
    }

    fn try_clone(&self) -> io::Result<OddFile<F>> {
        Ok(OddFile {
            file: self.file.try_clone()?,
            most: self.most,
            broken: self.broken,
            is_clone: true,
        })
    }
}

impl<R: Files> Files for OddSystem<R> {
    type File = OddFile<R::File>;

    type Dir = Chain<R::Dir, Unnamed>;

    fn open_file(&self, how: &OpenOptions, path: &str) -> io::Result<OddFile<R::File>> {
        Ok(OddFile {
            file: self.real.open_file(how, path)?,
            most: self.most,
            broken: self.broken,
            is_clone: false,
        })
    }

    fn open_dir(&self, path: &str) -> io::Result<Chain<R::Dir, Unnamed>> {
        self.check(Broken::Folder, ErrorKind::PermissionDenied)?;
        let unnamed = Unnamed {
            left: self.unnamed,
            breaks: self.broken == Broken::Listing,
        };
        Ok(self.real.open_dir(path)?.chain(unnamed))
    }

    fn metadata(&self, path: &str) -> io::Result<Metadata> {
        self.real.metadata(path)
    }

    fn symlink_metadata(&self, path: &str) -> io::Result<Metadata> {
        self.check(Broken::Kind, ErrorKind::NotFound)?;
        self.real.symlink_metadata(path)
    }

    fn copy(&self, from: &str, to: &str) -> io::Result<u64> {
        self.real.copy(from, to)
    }

    fn rename(&self, from: &str, to: &str) -> io::Result<()> {
        self.real.rename(from, to)
    }

    fn remove_file(&self, path: &str) -> io::Result<()> {
        self.real.remove_file(path)
    }

    fn create_dir(&self, path: &str) -> io::Result<()> {
        self.real.create_dir(path)
    }

    fn remove_dir(&self, path: &str) -> io::Result<()> {
        self.real.remove_dir(path)
    }

    fn remove_dir_all<B: Allocator>(&self, alloc: B, path: &str) -> io::Result<()> {
        self.real.remove_dir_all(alloc, path)
    }
}

impl<R> Print for OddSystem<R> {
    fn print<D: Display + Drop>(&self, _value: D) -> io::Result<()> {
        Err(io::Error::from(ErrorKind::Unsupported))
    }

    fn println<D: Display + Drop>(&self, _value: D) -> io::Result<()> {
        Err(io::Error::from(ErrorKind::Unsupported))
    }

    fn write_all(&self, _bytes: &[u8]) -> io::Result<()> {
        Err(io::Error::from(ErrorKind::Unsupported))
    }

    fn write_some(&self, bytes: &[u8]) -> io::Result<usize> {
        self.check(Broken::Print, ErrorKind::BrokenPipe)?;
        let count = self.most.min(bytes.len());
        self.printed.set(self.printed.get().wrapping_add(count));
        Ok(count)
    }
}
