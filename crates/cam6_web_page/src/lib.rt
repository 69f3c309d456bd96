//! The page in the browser: its files, as literals in the program.
//!
//! Contract: `file_at` returns the file at a path, or none if no file is there. `kind_of` and
//! `bytes_of` return what the file is and what is sent of it (`specs/Files.antt`). The bytes are the
//! file compressed by gzip. No clause says so: `tools/embed` takes them from `web/`, and a test
//! compares them.
//!
//! Stands on: nothing.
//!
//! Read next: `files`, the table of the files; `kinds`, what a file may be; `texts`, the literals.
#![tactic(auto)]

mod files;
mod kinds;
mod texts;

pub use files::{File, bytes_of, file_at, kind_of};
pub use kinds::Kind;
