//! The limits of a text.

/// Bytes of a text.
pub(crate) const MAX_TEXT: usize = 8192;

/// Definitions of a text.
pub(crate) const MAX_DEFINITIONS: usize = 64;

/// Size of a definition.
pub(crate) const MAX_SIZE: u16 = 4096;

/// IFs of one definition that are open together.
pub(crate) const MAX_OPEN_IFS: usize = 16;

/// The largest value of a literal.
pub(crate) const MAX_LITERAL: u32 = 65_535;
