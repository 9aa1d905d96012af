//! Reads, writes and the length of a file, each after a seek.

ghost use Rattle.std.specs.Prelude.{OnOk, IfOk};
ghost use Rattle.gl_system.specs.Place.{IsLength, ReadsAt, WritesAt};

use std::io::{self, Read, Seek, SeekFrom, Write};

/// How many bytes the file has.
pub(crate) fn length<F: Seek>(file: &mut F) -> io::Result<u64>
    ensures { IfOk result (λ n. IsLength F.stream_position F.stream_bytes n file.old) }
{
    file.seek(SeekFrom::End(0))
}

/// Fills the buffer with the bytes at a place. An end too early is an error.
pub(crate) fn read_from<F: Read + Seek>(file: &mut F, at: u64, buf: &mut [u8]) -> io::Result<()>
    ensures { OnOk result
        (ReadsAt F.stream_position F.stream_bytes F.remaining at buf.new file.old file.new) }
{
    file.seek(SeekFrom::Start(at))?;
    file.read_exact(buf)
}

/// Writes the whole piece to a place.
pub(crate) fn write_to<F: Write + Seek>(file: &mut F, at: u64, piece: &[u8]) -> io::Result<()>
    ensures { OnOk result
        (WritesAt F.stream_position F.stream_bytes F.contents at piece.now file.old file.new) }
{
    file.seek(SeekFrom::Start(at))?;
    file.write_all(piece)
}
