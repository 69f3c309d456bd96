//! A session with a private machine.
ghost use Rattle.cam6_session.specs.Alone.{AnswersReaderAlone};
ghost use Rattle.cam6_session.specs.Headline.{WritesRepliesAlone};
ghost use Rattle.cam6_session.specs.Spending.{SpendsItsReads};

use crate::sessions::{End, serve};
use cam6_machine::Machine;
use cam6_planes::Side;
use std::alloc::Global;
use std::io::{BufRead, Write};

/// Makes a blank machine whose largest side is `limit`. It does the command of each line of the
/// reader, and answers it by one line. A line without a command is answered by its fault. Ends if
/// the input ends, if something fails, or if the reads run out. Returns which. Each call of
/// `fill_buf` takes one of `reads_left`.
pub fn serve_alone<R: BufRead, W: Write>(
    alloc: Global,
    limit: Side,
    reader: &mut R,
    writer: &mut W,
    reads_left: u64,
) -> End
    ensures served { AnswersReaderAlone limit result (R.remaining reader.old)
        (R.remaining reader.new) (W.contents writer.old) (W.contents writer.new) }
    // For each of the input's lines, in order, the text of the machine's reply or of the line's
    // fault was written, or a prefix of these texts; all of them if the input's end was met.
    ensures headline { WritesRepliesAlone limit result (R.remaining reader.old)
        (W.contents writer.old) (W.contents writer.new) }
    ensures reads_left { SpendsItsReads result reads_left
        (R.remaining reader.old) (R.remaining reader.new) }
{
    let Ok(mut machine) = Machine::new(alloc, limit) else {
        return End::NoMemory { done: false };
    };
    serve(alloc, reader, writer, &mut machine, reads_left)
}
