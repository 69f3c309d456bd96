//! What the arguments ask for.

use cam6_planes::Side;
use std::net::SocketAddr;
use thiserror::Error;

/// What the program is to do.
#[derive(Debug, Drop)]
pub struct Options {
    /// The port of 127.0.0.1 at which it listens, 1 at least.
    pub port: u16,
    /// How many sockets may be open at a time, 1 at least.
    pub connections: usize,
    /// The largest side that the machine of a page may have.
    pub limit: Side,
    /// How many connections are taken before the program ends, or 0 for no end.
    pub requests: u64,
    /// The hosts, or none if each page has a machine of its own.
    pub hosts: Vec<SocketAddr>,
    /// The names by which a proxy asks for the page, besides those of this machine.
    pub names: Vec<String>,
}

/// Why arguments that clap takes ask for nothing.
#[derive(Clone, Copy, Debug, PartialEq, Eq, Error)]
pub(crate) enum Unsaid {
    #[error("--port takes a whole number from 1 to 65535")]
    Port,
    #[error("--connections takes a whole number from 1 to 1000")]
    Connections,
    #[error("--side takes 128, 256 or 512")]
    Side,
    #[error("--requests takes a whole number from 0 to 18446744073709551615")]
    Requests,
    #[error("--host takes an address and a port, as 127.0.0.1:6006")]
    Host,
}
