//! Tables: two new bits for each address, and the new rows of a band by them.
//!
//! Contract: a table is seen as the list of its 4,096 entries alone. `Table::look_up` and
//! `Table::band` give each cell the bits of the entry at the address that the cell shows
//! (`specs/Bands.antt`). A table may have a program, which `Table::quicken` makes from its entries
//! for one wiring (`specs/Programs.antt`). A band by the program gives the same bits as one by
//! look-ups, only faster. An entry that is written takes the program away. A band is lent a
//! `TableScratch`, which may hold anything before it and after it. Only `Table::blank` allocates.
//!
//! So, if entry 5 of a table is 2, each cell that shows address 5 gets 0 in the lower plane of the
//! half and 1 in the upper plane.
//!
//! Nothing here knows of a rule's text: `cam6_table` fills tables.
//!
//! Stands on: `cam6_planes`, `cam6_wiring`, `cam6_lookup`, `cam6_lines` and `cam6_program`.
//!
//! Read next: `tables`; `programs`; `scratch`, what is lent to a band; then `bands`.
#![tactic(auto)]

mod bands;
mod programs;
mod scratch;
mod tables;

pub use bands::{BandRows, Written, row_of};
pub use scratch::TableScratch;
pub use tables::{ENTRIES, Table};
