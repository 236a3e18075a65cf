//! Texts that come from outside and go there: round texts and public texts.
//!
//! A round text is an aim and an instance by codes, and with them a matching and prices, in lines that people and other
//! programs can read. Nothing here judges whether the matching is one of the instance or whether the prices prove it
//! best: `verdict` does.
//!
//! Promised: `write_round` writes the one text of its parts. `read_round` gives the parts of a text that has the form,
//! and else names the first line up to which the lines begin no such text. No two parts have one text, so what was
//! written is read as the same parts: `round_law`. The form is in `specs/Lines.antt`, what may stand in it in
//! `specs/Parts.antt`, and the first bad line in `specs/Reading.antt`; begin there.
#![tactic(auto)]

mod draft;
mod fields;
mod laws;
mod lines;
mod lookup;
mod public_parts;
mod public_write;
mod read;
mod round;
mod section;
mod write;

pub use laws::round_law;
pub use public_parts::PublicParts;
pub use public_write::write_public;
pub use read::{is_public, line_fields, read_public, read_round};
pub use round::{RoundFault, RoundParts};
pub use write::write_round;

/// The longest round text that is read, in bytes.
pub const MAX_BYTES: usize = 524_288;
