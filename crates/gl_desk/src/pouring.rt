ghost use Rattle.std.specs.Prelude.{◌≡◌, ◌≤◌, vec_len, Err, IfOk};
ghost use Rattle.gl_desk.specs.Answers.{OnlyReads, reading_stop};
ghost use Rattle.gl_desk.specs.Desk.{HasFile, IsLongerThan};
ghost use Rattle.gl_desk.specs.Pouring.{IsPoured};

use crate::desk::Desk;
use crate::error::ReadError;
use crate::name::Name;
use crate::taker::Taker;
use std::alloc::{AllocError, Global};

/// How many bytes are asked for at once.
const PIECE: usize = 65_536;

/// A buffer of `length` bytes.
fn buffer(alloc: Global, length: usize) -> Result<Vec<u8>, AllocError>
    ensures { IfOk result (λ bytes. vec_len bytes ≡ length) }
{
    vec![in alloc; 0; length]
}

/// Hands a file to a taker in pieces of at most 65,536 bytes, if it has at most `limit` bytes, and
/// answers how many these are. After an error nothing is said of what the taker stands for.
///
/// It holds one piece in memory, and ends after at most `limit + 1` reads, since each but the last
/// takes at least one byte.
pub fn pour<D: Desk, T: Taker>(
    alloc: Global,
    desk: &mut D,
    name: &Name,
    limit: u64,
    to: &mut T,
) -> Result<u64, ReadError>
    requires { HasFile (D.told desk.old).folder name.now }
    ensures poured { IfOk result
        (IsPoured T.stands_for (D.told desk.old).folder name.now to.old to.new) }
    ensures tag { T.tag to.new ≡ T.tag to.old }
    ensures fits { IfOk result (λ count. count ≤ limit) }
    ensures too_large { result ≡ Err ReadError.TooLarge
        → IsLongerThan limit (D.told desk.old).folder name.now }
    ensures reads { OnlyReads (reading_stop result) (D.told desk.old) (D.told desk.new) }
{
    let mut piece = buffer(alloc, PIECE)?;
    let mut count = 0;
    'pieces: loop {
        let read = desk.read_at(alloc, name, count, &mut piece)?;
        if read == 0 {
            return Ok(count);
        }
        if read as u64 > limit - count {
            return Err(ReadError::TooLarge);
        }
        to.take(&piece[..read])?;
        count += read as u64;
    }
}
