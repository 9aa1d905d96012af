//! What a socket has to give, a piece at a time.

ghost use Rattle.std.specs.Prelude.{◌≡◌, ◌<◌, ◌≤◌, [], IfOk, OnErr, Err, vec_len};
ghost use Rattle.std.specs.Io.KnownBytes.{Consumes, IsAtEnd, Keeps};
ghost use Rattle.gl_system.specs.declared.piece.ReadFault.TheVariants.{Io, NoMemory};

use std::alloc::{AllocError, Global};
use std::io::{self, Read};

/// Why nothing was read.
#[derive(Debug, Drop)]
pub(crate) enum ReadFault {
    Io(io::Error),
    NoMemory,
}

impl From<io::Error> for ReadFault {
    ghost from_gives = { λ error fault. fault ≡ Io error };

    fn from(error: io::Error) -> ReadFault {
        ReadFault::Io(error)
    }
}

impl From<AllocError> for ReadFault {
    ghost from_gives = { λ _ fault. fault ≡ NoMemory };

    fn from(_error: AllocError) -> ReadFault {
        ReadFault::NoMemory
    }
}

/// What one read gives, at most so many bytes. None is the end. The memory is taken first, so that
/// nothing is read in vain.
pub(crate) fn read_piece<R: Read>(
    alloc: Global,
    most: usize,
    from: &mut R,
) -> Result<Vec<u8>, ReadFault>
    requires { 0 < most }
    ensures most { IfOk result (λ piece. vec_len piece ≤ most) }
    ensures given { IfOk result (λ piece.
        Consumes (R.remaining from.old) (R.remaining from.new) piece.items) }
    ensures end { IfOk result (λ piece. piece.items ≡ [] → IsAtEnd (R.remaining from.new)) }
    ensures err { OnErr result (Keeps (R.remaining from.old) (R.remaining from.new)) }
    ensures no_memory { result ≡ Err ReadFault.NoMemory → from.new ≡ from.old }
{
    let mut piece = Vec::from_elem(alloc, 0, most)?;
    let count = from.read(&mut piece)?;
    piece.truncate(count);
    Ok(piece)
}
