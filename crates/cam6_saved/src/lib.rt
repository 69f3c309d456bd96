//! The text of a machine. Read this crate if you doubt that the machine that is loaded is the one
//! that was saved. It has definitions and laws, and no code.
//!
//! A machine's text is the compact JSON text of what is saved of it (`specs/Texts.antt`). The reply
//! to `save` holds this text, and `load` takes it. The laws are in `laws` and `specs/Laws.antt`.
//! The line that loads a machine's text is within the limit of such lines. A machine that does this
//! line becomes the machine that was saved, except for its limit. A load that is done is the line
//! of the resulting machine, so there is one line for each machine and version. Two machines with
//! one text differ in their limits alone.
//!
//! So, for a blank machine of side 256: its text has no side in the first version, and the side 256
//! in the second one. Either line gives it back, and no third one does.
//!
//! Stands on: `cam6_planes`, `cam6_wiring`, `cam6_cycle`, `cam6_forth`, `cam6_commands`, `cam6_model`
//! and `cam6_wire`; on `serde_json` with its grammar in `json`, and `hex`.
//!
//! Read next: `specs/Texts.antt`; then `laws`.
#![tactic(auto)]

pub mod laws;
