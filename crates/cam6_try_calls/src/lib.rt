//! Tests of what no line and no text of a rule can show. All else that is tested is a worked
//! example. They call only public functions of the crates below, so that those are proved once.
//!
//! Stands on: `cam6_server`, `cam6_forth`, `cam6_band` and what they stand on.
//!
//! Read next: `failing`, readers, writers and desks that fail, with the sessions over them in
//! `sessions` and the answers on their way in `outboxes`. Then what no program calls: `planes` and
//! `lines`, planes and what their cells see; `bands`, a step that is moved; and `ample_memory`,
//! calls that allocate. Last, `steps` of the largest rules.
#![tactic(auto)]

#[cfg(test)]
mod ample_memory;
#[cfg(test)]
mod bands;
#[cfg(test)]
mod failing;
#[cfg(test)]
mod lines;
#[cfg(test)]
mod outboxes;
#[cfg(test)]
mod planes;
#[cfg(test)]
mod sessions;
#[cfg(test)]
mod steps;
