//! Rules: their texts, tables, inverses and words, and the cache.
//!
//! Read next: `ways`, how the examples are played; `texts`, from which the others read rules;
//! `inverses`; `caches`, what is asked of a cache; and `stacks`, what words leave.

mod caches;
mod inverses;
mod stacks;
mod texts;
mod ways;

pub use ways::RuleWay;
