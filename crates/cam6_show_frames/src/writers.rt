//! Bytes, written whole.
ghost use Rattle.cam6_show_frames.specs.Front.{WritesFront};

use crate::showing::Unshown;
use cam6_writing::write_bytes as write_whole;
use std::io::Write;

/// Writes all bytes, in as many calls of the writer as it takes. Returns `WriteFault` if a call
/// fails or takes no byte. A part of the bytes from their beginning may then have been written.
pub fn write_bytes<W: Write>(writer: &mut W, bytes: &[u8]) -> Result<(), Unshown>
    ensures { WritesFront result (W.contents writer.old) (W.contents writer.new) bytes.now }
{
    match write_whole(writer, bytes) {
        Ok(()) => Ok(()),
        Err(_) => Err(Unshown::WriteFault),
    }
}
