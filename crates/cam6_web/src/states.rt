//! What the threads of a server share.

use crate::visitors::{ClientState, Visitors};
use cam6_planes::Side;
use cam6_web_router::Router;
use std::net::SocketAddr;
use std::random::RandomSource;
use std::sync::{Condvar, Mutex, Wait};
use std::thread::Threads;
use std::time::Clock;

/// What a server needs of its runtime, besides the network.
pub trait Handle: Threads + Wait + Clock + RandomSource + AllocGlobal + Copy + Drop {}

impl<R: Threads + Wait + Clock + RandomSource + AllocGlobal + Copy + Drop> Handle for R {}

/// The router of the server, the hosts, the largest side of a page's own machine, and the connections.
#[derive(Drop)]
pub struct ServerState<R: Handle> {
    pub rt: R,
    pub router: Router,
    pub hosts: Vec<SocketAddr>,
    pub limit: Side,
    pub visitors: Mutex<Visitors>,
    /// Notified when the last connection goes.
    pub left: Condvar,
}

impl<R: Handle> ServerState<R> {
    /// Counts one more connection that waits for an answer. Returns false, and counts nothing, if
    /// as many wait already as may.
    pub fn enter(&self) -> bool {
        self.visitors.lock(&self.rt).enter()
    }

    /// Counts a connection that waited as one with a socket. Returns false, and changes nothing, if
    /// there are as many sockets already as may be.
    pub fn open(&self) -> bool {
        self.visitors.lock(&self.rt).open()
    }

    /// Removes a connection that was counted in this state, and notifies `left` if it was the last
    /// one.
    pub fn leave(&self, standing: ClientState) {
        let mut visitors = self.visitors.lock(&self.rt);
        visitors.leave(standing);
        if visitors.are_none() {
            self.left.notify_all();
        }
    }

    /// Waits until all connections have ended.
    pub fn wait_for_connections(&self) {
        let visitors = self.visitors.lock(&self.rt);
        self.left
            .wait_while(&self.rt, visitors, |visitors| !visitors.are_none());
    }
}
