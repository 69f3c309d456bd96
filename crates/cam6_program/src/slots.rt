//! The slots of a program that is run.

use crate::programs::MAX_SLOTS;
use cam6_lines::{UNIT, Unit};

/// Scratch for what the slots of a program hold. It is made once and lent to each run. A run reads
/// a slot only after it has written it, so the slots may hold anything before.
#[derive(Drop)]
pub struct Slots {
    pub(crate) units: [Unit; MAX_SLOTS],
}

impl Slots {
    /// Makes scratch for the slots of any program.
    pub fn blank() -> Slots {
        Slots {
            units: [[0; UNIT]; MAX_SLOTS],
        }
    }
}
