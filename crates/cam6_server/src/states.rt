//! What the threads of a host share.

use crate::guests::{Guests, Standing};
use crate::places::Places;
use cam6_cache::TableCache;
use cam6_pool::SlicingGate;
use std::sync::{Condvar, Mutex, Wait};
use std::thread::Threads;
use std::time::{Clock, Duration};

/// What a host needs of its runtime.
pub trait Handle: Threads + Wait + Clock + AllocGlobal + Copy + Drop {}

impl<R: Threads + Wait + Clock + AllocGlobal + Copy + Drop> Handle for R {}

/// The tables that boards share, the gate of the boards, and the desks at which nobody sits.
#[derive(Drop)]
pub struct HostState<R: Handle> {
    pub rt: R,
    pub cache: Mutex<TableCache>,
    pub gate: SlicingGate<R>,
    pub places: Mutex<Places>,
}

/// The state of the server: that of the host, and its clients.
#[derive(Drop)]
pub struct ServerState<R: Handle> {
    pub host: HostState<R>,
    pub guests: Mutex<Guests>,
    /// Notified when the last client goes.
    pub left: Condvar,
    /// How long a client with a seat may be silent; `None` for no limit.
    pub idle: Option<Duration>,
}

impl<R: Handle> ServerState<R> {
    /// Counts one more client, as waiting for a seat, and returns true. Returns false and counts
    /// none if there is no room for it.
    pub fn enter(&self) -> bool {
        self.guests.lock(&self.host.rt).enter()
    }

    /// Whether any client has ever had a seat.
    pub fn was_seated(&self) -> bool {
        self.guests.lock(&self.host.rt).was_seated()
    }

    /// Counts a client as gone, and notifies `left` if it was the last one. `standing` tells
    /// whether it had a seat, waited, or waited with a long first line.
    pub fn leave(&self, standing: Standing) {
        let mut guests = self.guests.lock(&self.host.rt);
        guests.leave(standing);
        if guests.are_none() {
            self.left.notify_all();
        }
    }

    /// Waits until no client is connected.
    pub fn wait_for_clients_to_leave(&self) {
        let rt = &self.host.rt;
        let guests = self.guests.lock(rt);
        self.left
            .wait_while(rt, guests, |guests| !guests.are_none());
    }
}
