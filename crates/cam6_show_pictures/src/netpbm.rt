//! Pictures as files of the netpbm programs.
ghost use Rattle.std.specs.Prelude.{◌≡◌, ◌<◌, ◌++◌, IfOk, flat_map, string_bytes};
ghost use Rattle.std.specs.List.{range_with_len};
ghost use Rattle.cam6_show_frames.specs.Front.{WritesFront};
ghost use Rattle.cam6_show_pictures.specs.Look.{most_pixels, pixels_high};
ghost use Rattle.cam6_show_pictures.specs.Netpbm.{header as header_of, light_bytes, netpbm};
ghost use Rattle.cam6_show_pictures.specs.Netpbm.{pixel_row as pixel_row_of};

use crate::looks::{Light, Look};
use cam6_show_frames::{Frame, Screen, Unshown, write_bytes};
use std::alloc::{AllocError, Global};
use std::io::Write;

/// A writer of pictures in the format P6, one after the other, as `ffmpeg -f image2pipe` takes
/// them.
#[derive(Drop)]
pub struct Netpbm<W> {
    writer: W,
    look: Look,
    /// A row of pixels.
    pixels: Vec<u8>,
}

impl<W: Write> Netpbm<W> {
    ghost use Rattle.std.specs.Prelude.{◌≡◌};

    /// Makes a screen that writes each frame with this look to the writer, as a binary PPM picture.
    pub fn new(alloc: Global, writer: W, look: Look) -> Netpbm<W>
        ensures writer { result.writer ≡ writer }
        ensures look { result.look ≡ look }
    {
        Netpbm {
            writer,
            look,
            pixels: Vec::new(alloc),
        }
    }
}

impl<W: Write> Screen for Netpbm<W> {
    ghost use Rattle.std.specs.Prelude.{List, ℕ, Option};
    ghost use Rattle.cam6_show_frames.specs.Front.{WritesFront};
    ghost use Rattle.cam6_show_pictures.specs.Netpbm.{netpbm};

    ghost picture = { λ s frame. netpbm s.look frame };

    ghost contents = { λ s. W.contents s.writer };

    /// Writes the frame as one binary PPM, row by row.
    fn show(&mut self, frame: &Frame) -> Result<(), Unshown> {
        write_picture(&mut self.writer, &mut self.pixels, &self.look, frame)
    }
}

/// Writes the binary PPM picture of a frame. Uses the vector as scratch for each row of pixels.
fn write_picture<W: Write>(
    writer: &mut W,
    pixels: &mut Vec<u8>,
    look: &Look,
    frame: &Frame,
) -> Result<(), Unshown>
    ensures { WritesFront result (W.contents writer.old) (W.contents writer.new)
        (netpbm look.now frame.now) }
{
    let alloc = *pixels.allocator();
    let Ok(text) = header(alloc, look.width(frame), look.height(frame)) else {
        return Err(Unshown::NoMemory);
    };
    write_bytes(writer, text.as_bytes())?;
    write_rows(writer, pixels, look, frame)
}

/// Returns the text of a binary PPM picture before its pixels: `P6`, its width and height in
/// pixels, and 255. Each of the three lines ends with an LF.
fn header(alloc: Global, width: usize, height: usize) -> Result<String, AllocError>
    ensures { IfOk result (λ text. string_bytes text ≡ header_of width height) }
{
    format!(in alloc; "P6\n{width} {height}\n255\n")
}

/// Writes all rows of a frame's pixels, from the top, three bytes to a pixel. Uses the vector as
/// scratch for each of them.
fn write_rows<W: Write>(
    writer: &mut W,
    pixels: &mut Vec<u8>,
    look: &Look,
    frame: &Frame,
) -> Result<(), Unshown>
    ensures { WritesFront result (W.contents writer.old) (W.contents writer.new)
        (flat_map (pixel_row_of look.now frame.now)
        (range_with_len 0 (pixels_high look.now frame.now))) }
{
    for j in 0..look.height(frame) {
        let Ok(()) = pixel_row(pixels, look, frame, j) else {
            return Err(Unshown::NoMemory);
        };
        write_bytes(writer, pixels.as_slice())?;
    }
    Ok(())
}

/// Makes row `j` of a frame's pixels, counted from 0 and from the top, in place of what is in the
/// vector. `j` is less than 8,192.
fn pixel_row(pixels: &mut Vec<u8>, look: &Look, frame: &Frame, j: usize) -> Result<(), AllocError>
    requires row { j < most_pixels }
    ensures { IfOk result (λ _. pixels.new.items ≡ pixel_row_of look.now frame.now j) }
{
    pixels.clear();
    for i in 0..look.width(frame) {
        push_light(pixels, look.light(frame, i, j))?;
    }
    Ok(())
}

/// Pushes the three bytes of a pixel: red, green and blue.
fn push_light(pixels: &mut Vec<u8>, light: Light) -> Result<(), AllocError>
    ensures { IfOk result (λ _. pixels.new.items ≡ pixels.old.items ++ light_bytes light) }
{
    pixels.extend_from_slice(&[light.red, light.green, light.blue])
}
