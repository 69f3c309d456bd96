//! A session or a replay over any reader and writer, with as many reads as the program has.
ghost use Rattle.std.specs.Prelude.{IfOk};
ghost use Rattle.cam6_session.specs.Alone.{AnswersReaderAlone};
ghost use Rattle.cam6_session.specs.Headline.{WritesRepliesAlone};
ghost use Rattle.cam6_session.specs.Spending.{SpendsItsReads};
ghost use Rattle.cam6_cli.specs.Replays.{AnswersReaderShared, IsNew, WritesOutcomesShared};
ghost use Rattle.cam6_cli.specs.Reads.{max_reads};

use crate::modes::Sharing;
use cam6_core::Core;
use cam6_planes::{NoMemory, Side};
use cam6_session::{End, replay, serve_alone};
use std::alloc::Global;
use std::io::{BufRead, Write};

/// Reads of one session at most, that is calls of `fill_buf`.
const READS: u64 = 1_099_511_627_776;

/// Makes a blank machine whose largest side is `limit`. It does the command of each line of the
/// reader, and answers it by one line. A line without a command is answered by its fault. Ends if
/// the input ends, something fails, or 2 to the power of 40 reads are done. Returns which.
pub fn serve_streams<R: BufRead, W: Write>(
    alloc: Global,
    limit: Side,
    reader: &mut R,
    writer: &mut W,
) -> End
    ensures served { AnswersReaderAlone limit result (R.remaining reader.old)
        (R.remaining reader.new) (W.contents writer.old) (W.contents writer.new) }
    // For each of the input's lines, in order, the text of the machine's reply or of the line's
    // fault was written, or a prefix of these texts; all of them if the input's end was met.
    ensures headline { WritesRepliesAlone limit result (R.remaining reader.old)
        (W.contents writer.old) (W.contents writer.new) }
    ensures reads_left { SpendsItsReads result max_reads
        (R.remaining reader.old) (R.remaining reader.new) }
{
    serve_alone(alloc, limit, reader, writer, READS)
}

/// Does the event of each line of the reader, and writes its outcome, or the line's fault, as one
/// line. `sharing` has the numbers of users, boards and cached tables. Each user begins with a
/// blank machine whose largest side is `limit`. Returns how it ended.
pub fn replay_streams<R: BufRead, W: Write>(
    alloc: Global,
    sharing: Sharing,
    limit: Side,
    reader: &mut R,
    writer: &mut W,
) -> End
    ensures served { AnswersReaderShared sharing limit result (R.remaining reader.old)
        (R.remaining reader.new) (W.contents writer.old) (W.contents writer.new) }
    // For each of the input's lines, in order, the text of the event's outcome or of the line's
    // fault was written, or a prefix of these texts. Each user was given the replies of their
    // private machine to their accepted commands.
    ensures headline { WritesOutcomesShared sharing limit result (R.remaining reader.old)
        (R.remaining reader.new) (W.contents writer.old) (W.contents writer.new) }
    ensures reads_left { SpendsItsReads result max_reads
        (R.remaining reader.old) (R.remaining reader.new) }
{
    let Ok(mut core) = new_core(alloc, sharing, limit) else {
        return End::NoMemory { done: false };
    };
    replay(alloc, reader, writer, &mut core, READS)
}

/// Makes a core for `sharing`. Each user has a blank machine whose largest side is `limit`. Fails
/// only if an allocation fails.
fn new_core(alloc: Global, sharing: Sharing, limit: Side) -> Result<Core, NoMemory>
    ensures { IfOk result (λ core. IsNew sharing limit core) }
{
    let limits = vec![in alloc; limit; sharing.users]?;
    Core::new(
        alloc,
        sharing.users,
        sharing.boards,
        sharing.cache,
        limits.as_slice(),
    )
}
