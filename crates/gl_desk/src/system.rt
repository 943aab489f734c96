ghost use Rattle.std.specs.Prelude.{◌≡◌, ◌≤◌, length, take, Some, IfOk, IfSome, OnOk, OnErr};
ghost use Rattle.std.specs.Io.KnownBytes.{Appends, Keeps, ReadConsumes};
ghost use Rattle.std.specs.IoError.{error_kind};
ghost use Rattle.gl_desk.specs.Desk.{TakesPrefix};
ghost use Rattle.gl_desk.specs.HostDesk.{IsReadAt};

use std::fs::{File, OpenFile, OpenOptions};
use std::io;
use std::io::{ErrorKind, Read, Seek, SeekFrom, Write};
use std::rt::Files;

/// An error of the system on its way to the desk's count of faults.
///
/// It isn't `Drop`, so no code can lose one: it has to be handed on, up to where it is counted.
#[derive(Debug)]
pub struct SystemError {
    pub error: io::Error,
}

impl From<io::Error> for SystemError {
    ghost from_gives = { λ error spent. spent.error ≡ error };

    fn from(error: io::Error) -> SystemError {
        SystemError { error }
    }
}

/// Opens a file to read it.
pub fn open<Rt: Files>(rt: &Rt, name: &str) -> Result<Rt::File, SystemError> {
    Ok(File::open(rt, name)?)
}

/// Makes a file to append to it. Where something stands under the name already, be it a link that
/// leads nowhere, it is an error.
///
/// Where the standard output is closed, the system gives the file its number, and what is printed
/// would go into the file. So it is handed out under another number, behind those of the three
/// standard streams.
pub fn open_new<Rt: Files>(rt: &Rt, name: &str) -> Result<Rt::File, SystemError> {
    let file = OpenOptions::new()
        .append(true)
        .create_new(true)
        .open(rt, name)?;
    Ok(file.try_clone()?)
}

/// Goes to a place of a file.
fn seek<F: Seek>(file: &mut F, at: u64) -> Result<(), SystemError>
    ensures place { OnOk result (IfSome (F.stream_position file.old)
        (λ _. F.stream_position file.new ≡ Some at)) }
    ensures bytes { Keeps (F.stream_bytes file.old) (F.stream_bytes file.new) }
{
    file.seek(SeekFrom::Start(at))?;
    Ok(())
}

/// Reads into the front of `into`, and answers how many bytes. An error, an interrupted read among
/// them, is never the end of the file.
fn read<F: Read>(file: &mut F, into: &mut [u8]) -> Result<usize, SystemError>
    ensures within { IfOk result (λ n. n ≤ length into.new) }
    ensures bytes { ReadConsumes (F.remaining file.old) (F.remaining file.new) result into.new }
{
    Ok(file.read(into)?)
}

/// Puts into the front of `into` what an open file has from place `at`, and answers how many bytes.
pub fn read_from<F: Read + Seek>(
    file: &mut F,
    at: u64,
    into: &mut [u8],
) -> Result<usize, SystemError>
    ensures within { IfOk result (λ n. n ≤ length into.new) }
    ensures bytes { IfOk result
        (IsReadAt F.stream_position F.stream_bytes F.remaining file.old at into.new) }
{
    seek(file, at)?;
    read(file, into)
}

/// Writes a first part of the piece, and answers how many bytes. An error wrote nothing.
fn write<W: Write>(to: &mut W, piece: &[u8]) -> Result<usize, SystemError>
    ensures bound { IfOk result (λ n. n ≤ length piece.now) }
    ensures bytes { IfOk result (λ n.
        Appends (W.contents to.old) (W.contents to.new) (take n piece.now)) }
    ensures nothing { OnErr result
        (Appends (W.contents to.old) (W.contents to.new) (take 0 piece.now)) }
{
    Ok(to.write(piece)?)
}

/// What a write is answered with that takes nothing of a piece that isn't empty.
fn nothing_taken() -> SystemError
    ensures { error_kind result.error ≡ ErrorKind.WriteZero }
{
    SystemError::from(io::Error::from(ErrorKind::WriteZero))
}

/// Writes all of `piece`, by as many writes as it takes. A write that takes nothing of what is left
/// is an error. After an error a prefix of `piece` was written, perhaps an empty one.
pub fn write_whole<W: Write>(to: &mut W, piece: &[u8]) -> Result<(), SystemError>
    ensures whole { OnOk result (Appends (W.contents to.old) (W.contents to.new) piece.now) }
    ensures prefix { OnErr result
        (TakesPrefix piece.now (Appends (W.contents to.old) (W.contents to.new))) }
{
    let mut at = 0;
    'parts: while at < piece.len() {
        let taken = write(to, &piece[at..])?;
        if taken == 0 {
            return Err(nothing_taken());
        }
        at += taken;
    }
    Ok(())
}
