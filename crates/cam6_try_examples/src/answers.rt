//! What comes back, line by line, and the error of a failed allocation.

use std::io;

/// Adds a line, and its LF, to the bytes that come back.
pub fn add_line(answers: &mut Vec<u8>, line: &str) -> io::Result<()> {
    answers.extend_from_slice(line.as_bytes())?;
    answers.push(b'\n')?;
    Ok(())
}

/// Returns the error `OutOfMemory` of a failed allocation.
pub fn no_memory() -> io::Error {
    io::Error::from(io::ErrorKind::OutOfMemory)
}
