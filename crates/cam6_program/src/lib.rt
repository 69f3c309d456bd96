//! Tables as short programs: entries as a few operations on words, for all cells of a unit at once.
//!
//! Contract: `Program::of` returns a program that computes the entries, if it finds a short one
//! (`specs/Computing.antt`). `run` writes, at each column of a unit, the two bits that a program
//! makes of what the lines show there (`specs/Meaning.antt`). It is lent scratch for what its steps
//! make, which may hold anything before. `asked` returns which lines the program has to be shown, and
//! `keeps` whether every cell keeps its bit of a level.
//!
//! Stands on: `cam6_planes`, for the columns of a word; `cam6_lines`, for units; `cam6_lookup`, for
//! entries; `cam6_wiring`, for lines and levels.
//!
//! How: every list of steps means something, and running it is proved to make what it means. So the
//! builder is proved only to be safe. `Program::of` runs what was built on all 4,096 addresses at
//! once, and returns it only if it makes the bits of every entry.
//!
//! In the field's words, `building` makes a reduced ordered binary decision diagram with complement
//! edges, one for both levels (Bryant, "Graph-Based Algorithms for Boolean Function Manipulation",
//! IEEE Transactions on Computers C-35(8), 1986; Brace, Rudell and Bryant, "Efficient Implementation
//! of a BDD Package", DAC 1990). The order of the lines is one of two. Entries that only count eight
//! of the lines also get a diagram over the bits of that sum. No clause says that a diagram is
//! reduced. To prove a check of each result, and not the builder, is translation validation (Pnueli,
//! Siegel and Singerman, "Translation Validation", TACAS 1998).
//!
//! Read next: `steps` and `programs`; `slots`, `operations` and `running`, how a program is run;
//! `validating`; then `nodes`, `orders`, `building`, `counting`, `wanted` and `writing`, how one is
//! built.
#![tactic(auto)]

mod building;
mod counting;
mod nodes;
mod operations;
mod orders;
mod programs;
mod running;
mod slots;
mod steps;
mod validating;
mod wanted;
mod writing;

pub use programs::{MAX_SLOTS, MAX_STEPS, Program};
pub use slots::Slots;
pub use steps::{Operation, Source, Step};
