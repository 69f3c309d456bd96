//! Marks in an example's texts: repeated texts, bytes by their digits, and named texts.

use crate::faults::Unplayable;
use std::alloc::Global;

/// A text that has a name in its example.
#[derive(Drop)]
pub struct Named {
    pub name: String,
    pub bytes: Vec<u8>,
}

/// Adds a text to `bytes`, with its marks written out. `«8193* »` is so many spaces, `«x C2 A0»`
/// two bytes, `«9*x 0A»` nine LFs, and `«NAME»` the text of this name. It is an error if a mark has
/// no `»`, a wrong number or digits, or no known name.
pub fn write_out(bytes: &mut Vec<u8>, text: &str, named: &[Named]) -> Result<(), Unplayable> {
    for (i, piece) in text.split('«').enumerate() {
        if i == 0 {
            bytes.extend_from_slice(piece.as_bytes())?;
            continue;
        }
        let Some((mark, rest)) = piece.split_once('»') else {
            return Err(Unplayable::Unread);
        };
        write_mark(bytes, mark, named)?;
        bytes.extend_from_slice(rest.as_bytes())?;
    }
    Ok(())
}

/// Returns the bytes of a text with its marks written out, as `write_out` adds them. Fails as it
/// does.
pub fn written_out(alloc: Global, text: &str, named: &[Named]) -> Result<Vec<u8>, Unplayable> {
    let mut bytes = Vec::new(alloc);
    write_out(&mut bytes, text, named)?;
    Ok(bytes)
}

/// Adds what one mark, without its brackets, stands for: a repeated text, a named text, or bytes by
/// their digits, in this order. Any other mark is an error.
fn write_mark(bytes: &mut Vec<u8>, mark: &str, named: &[Named]) -> Result<(), Unplayable> {
    if let Some((times, text)) = mark.split_once('*') {
        let times: u32 = times.parse().map_err(|_| Unplayable::Unread)?;
        for _ in 0..times {
            write_piece(bytes, text)?;
        }
        return Ok(());
    }
    match named.iter().find(|text| text.name.as_str() == mark) {
        Some(text) => Ok(bytes.extend_from_slice(text.bytes.as_slice())?),
        None if mark.starts_with("x ") => write_piece(bytes, mark),
        None => Err(Unplayable::Unread),
    }
}

/// Adds a text to `bytes`. If it begins with `x `, the rest is hexadecimal numbers of bytes, with
/// one space between them. Any other rest is an error.
fn write_piece(bytes: &mut Vec<u8>, text: &str) -> Result<(), Unplayable> {
    let Some(digits) = text.strip_prefix("x ") else {
        return Ok(bytes.extend_from_slice(text.as_bytes())?);
    };
    for byte in digits.split(' ') {
        bytes.push(u8::from_str_radix(byte, 16).map_err(|_| Unplayable::Unread)?)?;
    }
    Ok(())
}
