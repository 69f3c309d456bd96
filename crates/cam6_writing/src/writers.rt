//! Bytes, written whole.
ghost use Rattle.cam6_writing.specs.Front.{WritesFront};

use std::io::Write;

/// The writer failed, or took no byte.
#[derive(Clone, Copy, Debug, PartialEq, Eq)]
pub struct WriteFault;

/// Writes a line, which has to end with an LF already, and flushes. It is one write if the writer
/// takes the line whole. Fails if a write or the flush fails, or a write takes no byte. Then a
/// prefix of the line may be written.
pub fn send<W: Write>(writer: &mut W, line: &[u8]) -> Result<(), WriteFault>
    ensures { WritesFront result (W.contents writer.old) (W.contents writer.new) line.now }
{
    write_bytes(writer, line)?;
    match writer.flush() {
        Ok(()) => Ok(()),
        Err(_) => Err(WriteFault),
    }
}

/// Writes all of the bytes, in as many writes as the writer needs. Doesn't flush. Fails if a write
/// fails or takes no byte. Then a prefix of the bytes may be written.
pub fn write_bytes<W: Write>(writer: &mut W, bytes: &[u8]) -> Result<(), WriteFault>
    ensures { WritesFront result (W.contents writer.old) (W.contents writer.new) bytes.now }
{
    let mut rest = bytes;
    while !rest.is_empty() {
        match writer.write(rest) {
            Ok(0) => return Err(WriteFault),
            Ok(n) => rest = &rest[n..],
            Err(_) => return Err(WriteFault),
        }
    }
    Ok(())
}
