//! All users and workers of a part, and what comes back for a line. `docs/EXAMPLES.md` says what each
//! line asks for. Users are numbered from 1, boards from 0. What can't be done as things are is `no`.
ghost use Rattle.cam6_handoff.specs.Holding.{AreIdle};

use crate::shares::Shared;
use crate::threads::{Handle, LOOKS, pause};
use crate::users::User;
use crate::ways::{Event, WorkerWay};
use crate::workers::Worker;
use cam6_cache::TableCache;
use cam6_handoff::{BoardSeat, Desk, boot};
use cam6_planes::{NoMemory, Side};
use cam6_pool::Ended;
use cam6_try_examples::{Sent, add_line};
use std::alloc::{AllocError, Global};
use std::io;
use std::sync::Arc;

/// The most tables that are cached.
const CACHED: usize = 16;

/// The users and the workers, and what these share.
#[derive(Drop)]
pub struct TestHost<R: Handle> {
    shared: Arc<Shared<R>>,
    users: Vec<User>,
    workers: Vec<Worker>,
}

impl<R: Handle + Send + Sync + 'static> TestHost<R> {
    /// Makes a host with a desk for each user, and a seat for each board's worker. No worker has a
    /// thread yet.
    pub fn new(rt: R, way: &WorkerWay) -> Result<TestHost<R>, NoMemory> {
        let alloc = rt.alloc();
        let shared = shared_of(rt, way.event)?;
        let limits = vec![in alloc; Side::S256; way.users]?;
        let (desks, seats) = boot(alloc, way.users, way.boards as u8, limits.as_slice())?;
        let (users, workers) = people_at(alloc, desks, seats)?;
        Ok(TestHost {
            shared,
            users,
            workers,
        })
    }

    /// Starts a worker's thread at each seat, does what each line asks for, and adds its answer as
    /// a line. If `event` is a failure, board 0 fails at `call`, counted from 1 over its loads,
    /// bands and unloads.
    pub fn play(
        &mut self,
        event: Event,
        call: u64,
        sent: &[Sent],
        answers: &mut Vec<u8>,
    ) -> io::Result<()> {
        for (board, worker) in self.workers.iter_mut().enumerate() {
            let fails = matches!(event, Event::Fails { .. }) && board == 0;
            worker.serve(&self.shared, if fails { Some(call) } else { None })?;
        }
        for line in sent {
            let line = str::from_utf8(line.bytes.as_slice()).unwrap_or("");
            let answer = self.answer(line)?;
            add_line(answers, answer.as_str())?;
        }
        Ok(())
    }

    /// Releases a board that is held, tells all workers to end, and joins those that end in time.
    pub fn end(&mut self) {
        self.shared.hold.end(&self.shared.rt);
        self.shared.tell_to_end(true);
        for worker in self.workers.iter_mut() {
            worker.join(&self.shared.rt);
        }
    }

    /// Does what a line asks for, and returns its answer.
    fn answer(&mut self, line: &str) -> io::Result<String> {
        let (word, rest) = line.split_once(' ').unwrap_or((line, ""));
        let (number, rest) = rest.split_once(' ').unwrap_or((rest, ""));
        let index = number.parse().unwrap_or(usize::MAX);
        match word {
            "user" | "start" | "join" => self.of_user(word, index, rest),
            "asked" | "apart" => self.of_gate(word, index, rest),
            "left" => self.left(index, rest.parse().unwrap_or(0)),
            "faults" => self.faults(index),
            _ => {
                let words = self.of_all(word, index)?;
                text(self.shared.rt.alloc(), words)
            }
        }
    }

    /// Does what a line `user`, `start` or `join` asks for at the desk of the user of this number,
    /// counted from 1. `start` asks the command in `line`, `join` waits for its reply, and `user`
    /// does both. Returns the reply, `started`, or `no` if that can't be done.
    fn of_user(&mut self, word: &str, number: usize, line: &str) -> io::Result<String> {
        let rt = self.shared.rt;
        let Some(user) = self.users.get_mut(number.wrapping_sub(1)) else {
            return text(rt.alloc(), "no");
        };
        if word != "join" && !user.start(rt, line)? {
            return text(rt.alloc(), "no");
        }
        if word == "start" {
            return text(rt.alloc(), "started");
        }
        match user.join(&rt)? {
            Some(reply) => Ok(reply),
            None => text(rt.alloc(), "no"),
        }
    }

    /// Returns the answer to a line `asked` or `apart`. That is the list of this user's bands for
    /// which the gate was asked, or `yes` or `no`: whether this user and that in `rest` had
    /// different boards. Users count from 1.
    fn of_gate(&self, word: &str, user: usize, rest: &str) -> io::Result<String> {
        let rt = self.shared.rt;
        let watch = self.shared.watch.lock(&rt);
        if word == "asked" {
            return watch.bands(rt.alloc(), user);
        }
        let is_so = watch.are_apart(user, rest.parse().unwrap_or(0))?;
        text(rt.alloc(), yes_or_no(is_so))
    }

    /// Returns the answer to a line `left` for a board, counted from 0, and a user, from 1. It is
    /// `left` and how many bands are left of the user's command at the seat of a worker that is
    /// joined. It is `none` without a command, and `no` without such a worker.
    fn left(&mut self, board: usize, user: usize) -> io::Result<String> {
        let alloc = self.shared.rt.alloc();
        let Some(worker) = self.workers.get_mut(board) else {
            return text(alloc, "no");
        };
        if worker.left.is_none() {
            return text(alloc, "no");
        }
        match worker.bands_left(user) {
            Some(bands) => Ok(format!(in alloc; "left {bands}")?),
            None => text(alloc, "none"),
        }
    }

    /// Returns the answer to a line `faults` for a board, counted from 0. It is `faults` and how
    /// often the board of a worker that is joined failed, or `no` without such a worker.
    fn faults(&self, board: usize) -> io::Result<String> {
        let alloc = self.shared.rt.alloc();
        match self
            .workers
            .get(board)
            .and_then(|worker| worker.left.as_ref())
        {
            Some(left) => Ok(format!(in alloc; "faults {}", left.faults)?),
            None => text(alloc, "no"),
        }
    }

    /// Does what any other line asks for, and returns its answer. `number` is how many workers
    /// `running` waits for, or the board of `ended` and `serve`, counted from 0. A line of no known
    /// word has the answer `no`.
    fn of_all(&mut self, word: &str, number: usize) -> io::Result<&'static str> {
        let rt = self.shared.rt;
        match word {
            "held" => Ok(yes_or_no(self.shared.hold.is_holding(&rt))),
            "release" => Ok(yes_or_no(self.shared.hold.release(&rt))),
            "evict" => Ok(yes_or_no(self.shared.cache.lock(&rt).evict_oldest())),
            "running" => Ok(yes_or_no(self.are_running(number))),
            "ended" => Ok(self.ended(number)),
            "serve" => self.serve(number),
            "end" => {
                self.end();
                Ok("ended")
            }
            _ => Ok("no"),
        }
    }

    /// Waits until exactly this many workers run. Returns false if that takes more than `LOOKS`
    /// milliseconds.
    fn are_running(&self, count: usize) -> bool {
        for _ in 0..LOOKS {
            if self
                .workers
                .iter()
                .filter(|worker| worker.is_running())
                .count()
                == count
            {
                return true;
            }
            pause(&self.shared.rt);
        }
        false
    }

    /// Waits for the end of the worker at this board, counted from 0, and joins it. Returns
    /// `stopped` or `dead`, or `no` if there is no such worker, or if it has no thread or doesn't
    /// end in time.
    fn ended(&mut self, board: usize) -> &'static str {
        let Some(worker) = self.workers.get_mut(board) else {
            return "no";
        };
        match worker.join(&self.shared.rt) {
            Some(Ended::Stopped) => "stopped",
            Some(Ended::Dead) => "dead",
            None => "no",
        }
    }

    /// Starts a thread again for the worker at this board, counted from 0, with a board that never
    /// fails. From here on, workers without work go on. Returns `started`, or `no` if it has a
    /// thread or there is no such worker.
    fn serve(&mut self, board: usize) -> io::Result<&'static str> {
        let Some(worker) = self.workers.get_mut(board) else {
            return Ok("no");
        };
        self.shared.tell_to_end(false);
        let is_started = worker.serve(&self.shared, None)?;
        Ok(if is_started { "started" } else { "no" })
    }
}

/// Returns `yes` for true and `no` for false.
fn yes_or_no(is_so: bool) -> &'static str {
    if is_so { "yes" } else { "no" }
}

/// Returns a copy of a text.
fn text(alloc: Global, words: &str) -> io::Result<String> {
    Ok(String::from_str(alloc, words)?)
}

/// Makes the state that all threads share, for a way with this event: an empty cache, and a gate
/// and a hold that do what the event says.
fn shared_of<R: Handle>(rt: R, event: Event) -> Result<Arc<Shared<R>>, NoMemory> {
    let cache = TableCache::new(rt.alloc(), CACHED)?;
    let once = match event {
        Event::AtGate(once) => Some(once),
        _ => None,
    };
    let holds_bands = matches!(event, Event::InBand);
    Ok(Arc::new(rt.alloc(), Shared::new(rt, cache, once, holds_bands))?)
}

/// Makes a user for each desk, and a worker for each seat. The seats hold nothing. None has a
/// thread yet.
fn people_at(
    alloc: Global,
    desks: Vec<Desk>,
    seats: Vec<BoardSeat>,
) -> Result<(Vec<User>, Vec<Worker>), AllocError>
    requires { AreIdle seats.items }
{
    let mut users = Vec::with_capacity(alloc, desks.len())?;
    for desk in desks {
        users.push(User::new(desk))?;
    }
    let workers = workers_at(alloc, seats)?;
    Ok((users, workers))
}

/// Makes a worker without a thread for each seat. The seats must hold nothing.
fn workers_at(alloc: Global, seats: Vec<BoardSeat>) -> Result<Vec<Worker>, AllocError>
    requires { AreIdle seats.items }
{
    let mut workers = Vec::with_capacity(alloc, seats.len())?;
    for seat in seats {
        workers.push(Worker::new(seat))?;
    }
    Ok(workers)
}
