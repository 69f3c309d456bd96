//! Where lanes wait, in the order in which they go on. No result depends on it: lanes that it misses
//! are run one by one.

use crate::lane_stacks::ROWS;
use crate::lane_values::LANES;

/// The most instructions that code has.
const MOST_REMAINING: usize = 4096;

/// A place where lanes wait: how many instructions are left, and the row at which their stacks end.
#[derive(Clone, Copy, Debug, PartialEq, Eq)]
pub struct LanesWaiting {
    pub remaining: u16,
    pub top: u16,
}

/// Returns a place with `remaining` instructions left and stacks that end at row `top`. Numbers
/// above 4,096 and 64 become these, as no code is longer and no stack ends higher.
#[inline(always)]
pub fn waiting_at(remaining: usize, top: usize) -> LanesWaiting {
    LanesWaiting {
        remaining: remaining.min(MOST_REMAINING) as u16,
        top: top.min(ROWS) as u16,
    }
}

/// Places where lanes wait. The one with the most instructions left is the last, and goes on first.
#[derive(Drop)]
pub struct LaneQueue {
    waiting: [LanesWaiting; LANES],
    len: usize,
}

impl LaneQueue {
    /// Makes a queue without a place.
    pub fn new() -> LaneQueue {
        LaneQueue {
            waiting: [waiting_at(0, 0); LANES],
            len: 0,
        }
    }

    /// Returns how many instructions are left at the place that goes on next, or 0 if there is no
    /// place.
    #[inline(always)]
    pub fn next_remaining(&self) -> usize {
        let len = self.len.min(LANES);
        if len == 0 {
            0
        } else {
            usize::from(self.waiting[len - 1].remaining)
        }
    }

    /// Takes off the place that goes on next and returns it, or returns `None` if there is none.
    #[inline(always)]
    pub fn pop(&mut self) -> Option<LanesWaiting> {
        let len = self.len.min(LANES);
        if len == 0 {
            return None;
        }
        self.len = len - 1;
        Some(self.waiting[len - 1])
    }

    /// Adds a place in order. Does nothing if it is the end of the code, is in the queue already,
    /// or the queue has 64 places.
    #[inline(always)]
    pub fn put(&mut self, new: LanesWaiting) {
        if new.remaining == 0 || self.len >= LANES {
            return;
        }
        if self.next_remaining() < usize::from(new.remaining) {
            self.waiting[self.len] = new;
            self.len += 1;
        } else {
            self.put_between(new);
        }
    }

    /// Adds a place in order, before those that have more instructions left. Does nothing if it is
    /// in the queue already or finds no room.
    fn put_between(&mut self, new: LanesWaiting) {
        if self.len >= LANES || self.has_place(new) {
            return;
        }
        let mut at = self.len;
        self.waiting[at] = new;
        self.len += 1;
        while at > 0 && at < LANES && self.waiting[at - 1].remaining > new.remaining {
            self.waiting[at] = self.waiting[at - 1];
            self.waiting[at - 1] = new;
            at -= 1;
        }
    }

    /// Whether a place is in the queue already. The queue must be in order.
    fn has_place(&self, new: LanesWaiting) -> bool {
        let len = self.len.min(LANES);
        for back in 1..len + 1 {
            let other = self.waiting[len - back];
            if other.remaining < new.remaining {
                return false;
            }
            if other.remaining == new.remaining && other.top == new.top {
                return true;
            }
        }
        false
    }

    /// Moves the places of another queue to this one in order, the last of them first. Those that
    /// are in it already or find no room are lost.
    #[inline(always)]
    pub fn put_all(&mut self, others: &mut LaneQueue) {
        for _ in 0..LANES {
            match others.pop() {
                None => return,
                Some(next) => self.put(next),
            }
        }
    }

    /// Adds a place as the one that goes on next, even if others have more instructions left. Does
    /// nothing if there are 64 places.
    #[inline(always)]
    pub fn push(&mut self, new: LanesWaiting) {
        if self.len < LANES {
            self.waiting[self.len] = new;
            self.len += 1;
        }
    }
}
