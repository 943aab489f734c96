ghost use Rattle.std.specs.Prelude.{◌≡◌, ◌≤◌, [], vec_len, Some, Err, IfOk};
ghost use Rattle.gl_desk.specs.Answers.{OnlyReads, reading_stop};
ghost use Rattle.gl_desk.specs.Desk.{HasFile, IsSeenIn, IsLongerThan};

use crate::desk::Desk;
use crate::error::ReadError;
use crate::name::Name;
use crate::pouring::pour;
use crate::taker::Taker;
use std::alloc::{AllocError, Global};

/// The most bytes of any file that is read but a proof: 16 MiB.
pub const MOST_BYTES: u64 = 16_777_216;

/// The bytes of a file, as far as they were read.
#[derive(Drop)]
struct Gathered {
    bytes: Vec<u8>,
}

impl Taker for Gathered {
    ghost tag = { λ _. [] };

    ghost stands_for = { λ gathered text. gathered.bytes.items ≡ text };

    fn take(&mut self, piece: &[u8]) -> Result<(), AllocError> {
        self.bytes.reserve_exact(piece.len())?;
        self.bytes.extend_from_slice(piece)
    }
}

/// The whole file, where it has at most `limit` bytes.
///
/// It holds no more memory than the bytes read so far and one piece of 65,536 bytes, and ends after
/// at most `limit + 1` reads, since each but the last takes at least one byte.
pub fn read_all<D: Desk>(
    alloc: Global,
    desk: &mut D,
    name: &Name,
    limit: u64,
) -> Result<Vec<u8>, ReadError>
    requires { HasFile (D.told desk.old).folder name.now }
    ensures bytes { IfOk result (λ bytes.
        IsSeenIn (D.told desk.old).folder name.now (Some bytes.items)) }
    ensures fits { IfOk result (λ bytes. vec_len bytes ≤ limit) }
    ensures too_large { result ≡ Err ReadError.TooLarge
        → IsLongerThan limit (D.told desk.old).folder name.now }
    ensures reads { OnlyReads (reading_stop result) (D.told desk.old) (D.told desk.new) }
{
    let mut gathered = Gathered {
        bytes: Vec::new(alloc),
    };
    pour(alloc, desk, name, limit, &mut gathered)?;
    Ok(gathered.bytes)
}
