//! Answers on their way to a writer that fails at each of its calls.

use crate::failing::{Failure, Ones};
use cam6_server::Outbox;
use std::alloc::Global;
use std::io;
use std::io::Write;
use std::process::Abort;

// Two answers, of four bytes each. The writer takes a byte at a call, and is flushed after each
// answer that is released, so an answer takes five calls.
const ANSWERS: &[u8] = b"one\ntwo\n";

/// Writes an answer to an outbox, and releases it even if that fails. Returns whether both succeed.
fn goes(outbox: &mut Outbox<Ones>, answer: &[u8]) -> bool {
    let is_taken = outbox.write_all(answer).is_ok();
    outbox.release().is_ok() && is_taken
}

/// Sends two answers to a writer that fails at this call only, counted from 0 over its writes of a
/// byte and its flushes. Returns whether the first is taken and released, whether the second is,
/// and whether the writer has exactly `want`.
fn send_with_one_failure(
    alloc: Global,
    failing_call: usize,
    want: &[u8],
) -> io::Result<(bool, bool, bool)> {
    let writer = Ones {
        bytes: Vec::new(alloc),
        calls: failing_call,
        failure: Failure::Once,
    };
    let mut outbox = Outbox::new(alloc, writer)?;
    let first = goes(&mut outbox, &ANSWERS[..4]);
    let second = goes(&mut outbox, &ANSWERS[4..]);
    let is_got = outbox.writer().bytes.as_slice() == want;
    Ok((first, second, is_got))
}

/// An outbox sends nothing after its writer has failed once, though the writer would take it. What
/// was sent before stays sent.
#[test]
fn an_outbox_is_broken_for_good(rt: HostRuntime) -> io::Result<()> {
    let alloc = rt.alloc();
    for calls in 0..5 {
        let want = &ANSWERS[..calls];
        assert_eq!(rt;
            send_with_one_failure(alloc, calls, want)?,
            (false, false, true)
        );
    }
    for calls in 5..10 {
        let want = &ANSWERS[..calls - 1];
        assert_eq!(rt;
            send_with_one_failure(alloc, calls, want)?,
            (true, false, true)
        );
    }
    assert_eq!(rt;
        send_with_one_failure(alloc, 10, ANSWERS)?,
        (true, true, true)
    );
    Ok(())
}
