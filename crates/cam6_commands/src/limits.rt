//! The limits of a machine, of a command and of a host.

/// Rules that a machine can keep.
pub const MAX_RULES: usize = 16;

/// Bytes that a rule's name can have.
pub const MAX_NAME: usize = 24;

/// Steps that one command can do.
pub const MAX_STEPS: u64 = 65_535;

/// The largest colour of a state.
pub const MAX_COLOUR: u64 = 15;

/// The largest mask: it has a bit for each state.
pub const MAX_MASK: u64 = 65_535;

/// Users, each with a machine, that can share boards.
pub const MAX_USERS: usize = 32;

/// Boards that users can share.
pub const MAX_BOARDS: usize = 8;
