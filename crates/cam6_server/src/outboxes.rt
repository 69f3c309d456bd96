//! Answers on their way to a writer.
ghost use Rattle.std.specs.Prelude.{◌≡◌, false, true, IfOk, IsErr, OnErr, OnOk};
ghost use Rattle.std.specs.Io.Buffered.{writer_inner};
ghost use Rattle.std.specs.Io.KnownBytes.{Keeps};
ghost use Rattle.cam6_server.specs.Outboxes.{gone, written};

use std::alloc::Global;
use std::io;
use std::io::{BufWriter, ErrorKind, Write};

/// Bytes of answers that are held back at most.
const HELD: usize = 16_384;

/// Answers on their way to a writer. They are held back until there is no room for more, or until
/// they are released. It is broken for good after bytes could not be sent: then it takes none, and
/// sends none.
pub struct Outbox<W: Write + Drop> {
    held: BufWriter<W>,
    is_broken: bool,
}

impl<W: Write + Drop> Outbox<W> {
    /// Makes an outbox that holds nothing back yet. Allocates its buffer of 16 KiB, and fails only
    /// if that fails.
    pub fn new(alloc: Global, writer: W) -> io::Result<Outbox<W>>
        ensures whole { IfOk result (λ outbox. outbox.is_broken ≡ false) }
        ensures bytes { IfOk result (λ outbox.
            Keeps (W.contents writer) (written W.contents outbox)) }
    {
        Ok(Outbox {
            held: BufWriter::with_capacity(alloc, HELD, writer)?,
            is_broken: false,
        })
    }

    /// Returns the writer to which the outbox sends.
    pub fn writer(&self) -> &W
        ensures { result.now ≡ writer_inner self.now.held }
    {
        self.held.get_ref()
    }

    /// Sends all that is held back. If that fails, the outbox is broken, and what wasn't sent is
    /// still held back. Fails at once, and sends nothing, if the outbox is broken already.
    pub fn release(&mut self) -> io::Result<()>
        // Each byte that was written has gone to the writer, in order, and once.
        ensures gone { OnOk result
            (Keeps (written W.contents self.old) (gone W.contents self.new)) }
        // What could not be sent is still held back.
        ensures bytes { Keeps (written W.contents self.old) (written W.contents self.new) }
        ensures breaks { OnErr result (self.new.is_broken ≡ true) }
        ensures whole { OnOk result (self.new.is_broken ≡ false) }
        ensures broken { self.old.is_broken ≡ true → IsErr result × (self.new ≡ self.old) }
    {
        self.still_whole()?;
        let sent = self.held.flush();
        self.is_broken = sent.is_err();
        sent
    }

    /// Fails if the outbox is broken: bytes could not be sent before.
    fn still_whole(&self) -> io::Result<()>
        ensures whole { OnOk result (self.now.is_broken ≡ false) }
        ensures broken { OnErr result (self.now.is_broken ≡ true) }
    {
        if self.is_broken {
            return Err(io::Error::from(ErrorKind::BrokenPipe));
        }
        Ok(())
    }
}

impl<W: Write + Drop> Write for Outbox<W> {
    ghost use Rattle.std.specs.Prelude.{◌≡◌, true, IsErr, OnErr};
    ghost use Rattle.std.specs.Io.{WritesAtMost};
    ghost use Rattle.std.specs.Io.KnownBytes.{Keeps, WriteAppends};
    ghost use Rattle.cam6_server.specs.Outboxes.{written};

    ghost contents = { λ outbox. written W.contents outbox };

    /// Takes bytes, to be sent later, and returns how many it took. If there is no room for more,
    /// first sends what is held back. If that fails, the outbox is broken. Fails if the outbox is
    /// broken already.
    fn write(&mut self, bytes: &[u8]) -> io::Result<usize>
        ensures bound { WritesAtMost result bytes.now }
        ensures bytes { WriteAppends (written W.contents self.old) (written W.contents self.new)
            result bytes.now }
        ensures breaks { OnErr result (self.new.is_broken ≡ true) }
        ensures broken { self.old.is_broken ≡ true → IsErr result × (self.new ≡ self.old) }
    {
        self.still_whole()?;
        let taken = self.held.write(bytes);
        self.is_broken = taken.is_err();
        taken
    }

    /// Does nothing, since `release` sends what is held back. Fails if the outbox is broken.
    fn flush(&mut self) -> io::Result<()>
        ensures bytes { Keeps (written W.contents self.old) (written W.contents self.new) }
        ensures same { self.new ≡ self.old }
        ensures broken { self.old.is_broken ≡ true → IsErr result }
    {
        self.still_whole()
    }
}

impl<W: Write + Drop> Drop for Outbox<W> {
    /// Drops what is still held back, and doesn't send it.
    fn drop(self) {
        let Outbox { held, is_broken: _ } = self;
        drop(held.into_parts());
    }
}
