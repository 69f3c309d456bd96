//! The version of the programs. It stands here alone, so that all of them tell the same one.
//!
//! Stands on: nothing.
//!
//! Read next: nothing, this is all.
#![tactic(auto)]

/// The version, and the toolchain that proves the programs. `--version` prints it after a program's
/// name.
pub const VERSION: &str = "1 (Rattle logic dac8208d650f15bf)";
