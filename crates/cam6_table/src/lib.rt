//! Flat code that fills tables: a rule becomes instructions with forward jumps, which run at each
//! address.
//!
//! Contract: the result of a rule's code at each address is what the rule means there
//! (`specs/Meaning.antt`), the two new bits or the first fault. `eval` returns that result in at
//! most 4,096 steps, one instruction each. `fill` makes the table of all results. If any fault
//! comes, it returns the least address with one, even if no cell shows it, and the fault there.
//! `compile` turns a text into its rule's code, or returns what is wrong in the text. `Table` and
//! what belongs to it are those of `cam6_entries`, which this crate hands on.
//!
//! What a rule means is defined by recursion on its tree, as a function of what its names mean. The
//! laws: a true table, read at the address of what is seen, is the rule as a function of what is
//! seen. A rule that stops at no address stops nowhere, whatever is seen. Trees of one rule mean
//! the same. The least address with a fault is what a search over all addresses finds. A stack word
//! has fault 40 exactly if there are fewer values than it wants. If code of the rule that a text
//! was accepted as filled a table, it is the text's code, and the table is the text's table.
//!
//! How: 64 lanes, each with an address of its own, do the same instruction at once under a mask.
//! Lanes diverge at an IF and at a case. Those with the most instructions left go on first, and
//! jumps only lead forward, so lanes that come to one place reconverge there. Lanes that can't go on
//! together are run one by one.
//!
//! In the field's words this is SIMT execution (Fung, Sham, Yuan and Aamodt, "Dynamic Warp Formation
//! and Scheduling for Efficient GPU Control Flow", MICRO 2007). The order is that of thread frontiers
//! (Diamos and others, "SIMD Re-Convergence at Thread Frontiers", MICRO 2011).
//!
//! Stands on: `cam6_planes`, `cam6_wiring`, `cam6_entries` and `cam6_forth`.
//!
//! Read next: `stacks`, what a word does; `outputs`; `codes`, the instructions; `emitter`, how a
//! rule becomes code; `evaluation`; `lane_values`, `sets`, `floors`, `spans`, `lane_stacks`, `lanes`,
//! `levels`, `waiting`, `straight`, `flows`, `meeting` and `together`, how code runs at many addresses at
//! once; `lines_read`, the lines that its results depend on; `least_read`, those that differ between
//! lanes; `filling` and `faults`; `compiling`;
//! then `laws`.
#![tactic(auto)]

mod codes;
mod compiling;
mod emitter;
mod evaluation;
mod faults;
mod filling;
mod floors;
mod flows;
mod lane_stacks;
mod lane_values;
mod lanes;
pub mod laws;
mod least_read;
mod levels;
mod lines_read;
mod meeting;
mod outputs;
mod sets;
mod spans;
mod stacks;
mod straight;
mod together;
mod waiting;

pub use cam6_entries::{BandRows, ENTRIES, Table, Written};
pub use codes::{Code, Instruction};
pub use compiling::{NotCompiled, compile};
pub use evaluation::{MAX_EVAL_STEPS, eval};
pub use faults::RuleFault;
pub use filling::fill;
