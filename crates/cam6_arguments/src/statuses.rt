//! The exit statuses that the programs share.

/// Arguments that are refused.
pub const REFUSED_WORDS: u8 = 2;

/// A write that failed.
pub const WRITE_FAILED: u8 = 4;

/// An allocation that failed.
pub const NO_MEMORY: u8 = 5;

/// A port at which nothing can listen, or a connection that can't be accepted.
pub const NETWORK_FAILED: u8 = 7;
