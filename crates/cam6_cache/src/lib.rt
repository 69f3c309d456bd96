//! Tables that several users share, so that a rule's text is compiled into a table once.
//!
//! Contract: `TableCache::load` makes a table the key's true one, that of the rule's words or the
//! one that undoes them (`specs/Keys.antt`). It returns whether the table was cached. What is
//! cached is a list, the table that was used last first (`specs/Cached.antt`). A hit goes to its
//! front, and so does a miss. Before a miss the last table leaves a full cache. If an allocation
//! fails, nothing is cached, and nobody sees that. Clauses of `TableCache::len` hold of any cache:
//! its tables are true, no two of them have one key, and there are no more than its capacity. The
//! capacity is 1 to 64 (`specs/Limits.antt`). The laws: a key is the same as itself and as no
//! other, and has one true table. If the straight table of a key has a reversible block map, the
//! key is reversible.
//!
//! So, with a cache of two: loads of the keys K, L, K, M, K and L miss, miss, hit, miss, hit and
//! miss, for M comes instead of L. Then the tables of L and K are cached.
//!
//! Stands on: `cam6_planes`, `cam6_wiring`, `cam6_entries`, `cam6_table`, `cam6_block`, `cam6_cycle`
//! and `lru`.
//!
//! Read next: `keys`, what a table is asked for by; `caches`; then `laws`.
#![tactic(auto)]

mod caches;
mod keys;
pub mod laws;

pub use caches::{MAX_CAPACITY, TableCache};
pub use keys::{Key, MAX_TEXT};
