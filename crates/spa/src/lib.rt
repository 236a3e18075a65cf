//! Student/project allocation: codes, instances, matchings, profiles and worths.
//!
//! A value of these types is well formed by construction: every crate above takes it as given and tests nothing again.
//! Nothing here chooses a matching; `search` and `network` do, and `verdict` checks one. Nothing here knows an office.
//! The problem is that of Kwanashie, Irving, Manlove and Sng, "Profile-based optimal matchings in the student/project
//! allocation problem", with upper quotas alone.
//!
//! Promised: `Code::read` and `Label::read` keep exactly the texts that have the form. `Instance::new` answers the
//! instance that is, by codes, exactly the rolls handed in, or names the first fault. `Matching::fault` is none exactly
//! for a matching; `profile` counts its pairs by rank, and `Matching::counts` by project and by supervisor. `precedes`
//! compares rows of numbers as an `Aim` reads them; `Lex` and `Generous` keep the laws of `Worth`. The functions of
//! `laws` carry what the crates above rest on: prices bound every matching, and codes say the same as positions.
//!
//! Read on in `specs/Shape.antt`, `specs/Matching.antt` and `specs/Prices.antt`, which speak of positions, then in
//! `specs/Instance.antt` and `specs/Coded.antt`, which say the same by codes.
#![tactic(auto)]

mod aim;
mod code;
mod codes;
mod columns;
mod counts;
mod fault;
mod generous;
mod guesses;
mod instance;
mod label;
mod laws;
mod lex;
mod lists;
mod matching;
mod offers;
mod order;
mod rolls;
mod text;
mod worth;

pub use aim::{AIMS, Aim};
pub use code::Code;
pub use counts::Counts;
pub use fault::{InstanceFault, Roll};
pub use generous::{Generous, generous_law};
pub use guesses::Guesses;
pub use instance::Instance;
pub use label::Label;
pub use laws::code_law;
pub use lex::{Lex, lex_law};
pub use matching::{MatchFault, Matching, profile, total_weight};
pub use order::precedes;
pub use text::{TextFault, is_code_text, is_label_text};
pub use worth::Worth;

/// The most supervisors of an instance.
pub const MAX_SUPERVISORS: usize = 100;

/// The most projects of an instance.
pub const MAX_PROJECTS: usize = 400;

/// The most students of an instance.
pub const MAX_STUDENTS: usize = 500;

/// The greatest quota of a supervisor or a project.
pub const MAX_QUOTA: u32 = 500;

/// The most bytes of a code.
pub const MAX_CODE_BYTES: usize = 16;

/// The most bytes of a label.
pub const MAX_LABEL_BYTES: usize = 200;

/// The longest list, and so the ranks that a pair can have.
pub const RANKS: usize = 12;

/// The places of a worth: the size, and one for each rank.
pub const COMPONENTS: usize = RANKS + 1;
