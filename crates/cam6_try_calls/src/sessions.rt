//! Sessions in which the reader, the writer or the desk fails at each of its calls, and one at a desk
//! of the hand-off table that waits by itself. A program's desks wait in a host.

use crate::failing::{Desk, Failure, Ones, Shown};
use cam6_commands::{Command, Done, Fault, Refusal, Reply};
use cam6_handoff::boot;
use cam6_machine::Machine;
use cam6_planes::{NoMemory, Side};
use cam6_session::{AtDesk, End, Unaided, serve};
use std::alloc::Global;
use std::process::Abort;
use std::sync::Wait;
use std::test::Fail;

// A session of four lines, the last without its LF, and the answers of the profile: no cycle is
// set, no JSON, a cycle, and then a run of no steps. With their LFs the lines end after 19, 24, 93
// and 111 bytes, the answers after 13, 25, 40 and 66.
const LINES: &[u8] =
    b"{\"do\":\"run\",\"n\":0}\nnope\n{\"do\":\"cycle\",\"entries\":[{\"a\":\"-\",\"b\":\"-\",\"grid\":\"EVEN\",\"phase\":0}]}\n{\"do\":\"run\",\"n\":0}";

const ANSWERS: &[u8] =
    b"{\"fault\":63}\n{\"fault\":2}\n{\"ok\":\"cycle\"}\n{\"ok\":\"run\",\"position\":0}\n";

/// Returns the answers to the first `lines` lines of the session, or to all four if `lines` is
/// more.
fn answers_to_first(lines: usize) -> &'static [u8] {
    match lines {
        0 => &ANSWERS[..0],
        1 => &ANSWERS[..13],
        2 => &ANSWERS[..25],
        3 => &ANSWERS[..40],
        _ => ANSWERS,
    }
}

/// Returns how many of the marks are `n` or less.
fn reached(marks: &[usize], n: usize) -> usize {
    marks.iter().filter(|mark| **mark <= n).count()
}

/// Asks a machine for a run of no steps. Returns whether its reply is the one after this many lines
/// of the session. The third line sets the cycle. Returns false if memory runs out.
fn stands_after(lines: usize, machine: &mut Machine) -> bool {
    match machine.reply_to(Command::Run { n: 0 }) {
        Ok(reply) => is_reply_after(lines, &reply),
        Err(NoMemory) => false,
    }
}

/// Returns whether a reply to a run of no steps is the one after this many lines of the session.
fn is_reply_after(lines: usize, reply: &Reply) -> bool {
    match reply {
        Reply::Done(Done::Run { position: 0 }) => lines >= 3,
        Reply::Refused(Refusal::Fault(Fault::NoCycle)) => lines < 3,
        _ => false,
    }
}

/// What came of a session: its end, whether the wanted bytes were written, and whether the desk
/// stands where it should.
type Came = (End, bool, bool);

/// How a session goes: how its lines are shown, its reads, and after how many calls its writer fails.
#[derive(Clone, Copy)]
struct Way {
    at_once: usize,
    looks: usize,
    reads_left: u64,
    calls: usize,
    failure: Failure,
}

const WELL: Way = Way {
    at_once: 1_000,
    looks: 1_000,
    reads_left: 1_000,
    calls: 1_000,
    failure: Failure::Error,
};

/// Runs the session in this way at a new desk with memory. Returns how it ended, whether exactly
/// `want` was written, and whether the machine stands as after the first `lines` lines.
fn session(alloc: Global, way: Way, want: &[u8], lines: usize) -> Result<Came, NoMemory> {
    let mut desk = Desk::new(alloc, 9)?;
    let came = session_at(alloc, way, want, lines, &mut desk);
    drop(desk);
    Ok(came)
}

/// Runs the session in this way at this desk. Returns how it ended, whether exactly `want` was
/// written, and whether the machine stands as after the first `lines` lines.
fn session_at(alloc: Global, way: Way, want: &[u8], lines: usize, desk: &mut Desk) -> Came {
    let mut reader = Shown {
        bytes: LINES,
        at_once: way.at_once,
        calls: way.looks,
    };
    let mut writer = Ones {
        bytes: Vec::new(alloc),
        calls: way.calls,
        failure: way.failure,
    };
    let end = serve(alloc, &mut reader, &mut writer, desk, way.reads_left);
    let is_written = writer.bytes.as_slice() == want;
    (end, is_written, stands_after(lines, &mut desk.machine))
}

/// A session ends as it should if its reader fails at a call, or if no reads are left. By hand:
/// each line takes a look for each of its bytes, or for every three and what is left of them, the
/// LF among them. The last line takes one more look, which shows the input's end. So many reads end
/// a session where so many looks do.
#[test]
fn readers_fail_at_each_call(rt: HostRuntime) -> Result<(), Fail> {
    for (at_once, marks) in [(1, [19, 24, 93, 112]), (3, [7, 9, 32, 39])] {
        for calls in 0..114u16 {
            let (looks, reads_left) = (usize::from(calls), u64::from(calls));
            let lines = reached(&marks, looks);
            for (way, end) in [
                (
                    Way {
                        at_once,
                        looks,
                        ..WELL
                    },
                    End::ReadFault,
                ),
                (
                    Way {
                        at_once,
                        reads_left,
                        ..WELL
                    },
                    End::TurnBound,
                ),
            ] {
                let want = if lines < 4 { end } else { End::EndOfInput };
                let got = session(rt.alloc(), way, answers_to_first(lines), lines)?;
                assert_eq!(rt; got, (want, true, true), "{at_once} {calls}");
            }
        }
    }
    Ok(())
}

/// Returns how many bytes of the answers this many calls of the writer write. Each byte takes one
/// call, and flushing an answer another one.
fn bytes_of(calls: usize) -> usize {
    let flushes = reached(&[14, 27, 43, 70], calls);
    calls.saturating_sub(flushes).min(66)
}

/// A session ends as it should if its writer fails at a call. The answer to a line takes a call for
/// each byte, and a flush. A flush takes no byte, so it goes well if a writer takes nothing more.
/// The command of the line being answered is done.
#[test]
fn writers_fail_at_each_call(rt: HostRuntime) -> Result<(), Fail> {
    for (failure, marks) in [
        (Failure::Error, [14, 27, 43, 70]),
        (Failure::Interruption, [14, 27, 43, 70]),
        (Failure::TakesNothing, [13, 26, 42, 69]),
    ] {
        for calls in 0..72 {
            let lines = reached(&marks, calls);
            let fault = End::WriteFault;
            let end = if lines < 4 { fault } else { End::EndOfInput };
            let want = ANSWERS.get(..bytes_of(calls)).unwrap_or(ANSWERS);
            let way = Way {
                calls,
                failure,
                ..WELL
            };
            let got = session(rt.alloc(), way, want, lines.saturating_add(1))?;
            assert_eq!(rt; got, (end, true, true), "{failure:?} {calls}");
        }
    }
    Ok(())
}

/// What came of a session that was served twice: how both ended, what the first wrote and left, and
/// whether both wrote all answers.
type CameAgain = ([End; 2], usize, &'static [u8], bool);

/// Serves the session at this desk, and then, with memory, its rest from `line` on. Returns how
/// both ended, how many bytes the first wrote, which bytes it left unread, and whether both wrote
/// exactly all answers.
fn served_at(alloc: Global, desk: &mut Desk, line: &'static [u8]) -> CameAgain {
    let (mut reader, mut again) = (LINES, line);
    let mut writer = Vec::new(alloc);
    let end = serve(alloc, &mut reader, &mut writer, desk, 100);
    let written = writer.len();
    desk.answers_left = 9;
    let last = serve(alloc, &mut again, &mut writer, desk, 100);
    let is_written = writer.as_slice() == ANSWERS;
    ([end, last], written, reader, is_written)
}

/// Serves the session at a desk that runs out of memory after so many answers, and then, with
/// memory, its rest from `line` on. Returns how both ended, how many bytes the first wrote, which
/// bytes it left unread, and whether both wrote exactly all answers.
fn served_again(alloc: Global, answers: usize, line: &'static [u8]) -> Result<CameAgain, NoMemory> {
    let mut desk = Desk::new(alloc, answers)?;
    let came = served_at(alloc, &mut desk, line);
    drop(desk);
    Ok(came)
}

/// A session ends if its desk runs out of memory for a line. The desk stands where it stood, and
/// the reader after that line. Served again from that line, with memory, it answers the rest.
#[test]
fn desks_find_no_memory_at_each_call(rt: HostRuntime) -> Result<(), Fail> {
    let not_done = End::NoMemory { done: false };
    for (answers, end, written, line, rest) in [
        (0, not_done, 0, LINES, &LINES[19..]),
        (1, not_done, 25, &LINES[24..], &LINES[93..]),
        (2, not_done, 40, &LINES[93..], &LINES[111..]),
        (3, End::EndOfInput, 66, &LINES[111..], &LINES[111..]),
    ] {
        let want = ([end, End::EndOfInput], written, rest, true);
        let got = served_again(rt.alloc(), answers, line)?;
        assert_eq!(rt; got, want, "{answers}");
    }
    Ok(())
}

/// Checks that nothing waits at the desk, and that its lines are answered to the end of the input.
/// No cell of a blank machine has the state 1. The second line isn't JSON, and no cycle is set.
fn check_session<R: Abort + Wait + Copy>(rt: R, alloc: Global, desk: cam6_handoff::Desk) {
    assert!(rt; !desk.is_waiting());
    let mut reader = b"{\"do\":\"count\",\"mask\":2}\nnope\n{\"do\":\"run\",\"n\":0}\n".as_slice();
    let waiter = Unaided { rt };
    let mut desk = AtDesk { waiter, desk };
    let mut writer = Vec::new(alloc);
    let end = serve(alloc, &mut reader, &mut writer, &mut desk, 1_000);
    assert_eq!(rt; end, End::EndOfInput);
    let want = b"{\"count\":0,\"ok\":\"count\"}\n{\"fault\":2}\n{\"fault\":63}\n";
    assert!(rt; writer.as_slice() == want.as_slice());
    let AtDesk {
        waiter: Unaided { rt: _ },
        desk: _,
    } = desk;
}

/// A session is answered at a desk of the hand-off table. A command without steps is answered on
/// the desk's own thread, so it needs no board.
#[test]
fn a_session_is_answered_at_a_desk(rt: HostRuntime) -> Result<(), NoMemory> {
    let (desks, _seats) = boot(rt.alloc(), 1, 1, &[Side::S128])?;
    assert_eq!(rt; desks.len(), 1);
    for desk in desks {
        check_session(rt, rt.alloc(), desk);
    }
    Ok(())
}
