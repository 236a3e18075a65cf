//! What is read of a round text, and why a text is none.
#![tactic(auto)]

use spa::{Aim, Instance, Matching};
use std::alloc::AllocError;
use verdict::Prices;

/// The parts of a round text. A text without prices gives empty ones, and a student without a pair has no place.
#[derive(Drop)]
pub struct RoundParts {
    /// The aim: greedy, unless the text says that it is generous.
    pub aim: Aim,
    /// The instance, each roll by codes.
    pub instance: Instance,
    /// The pairs, by each student's place in the list. They need not keep the quotas.
    pub matching: Matching,
    /// The prices: of each roll one for each entry, or none.
    pub prices: Prices,
}

/// Why a text was not read as a round text.
#[derive(Clone, Copy, PartialEq, Eq, Drop)]
pub enum RoundFault {
    /// An allocation failed.
    Memory,
    /// The text has more than 524,288 bytes. This is judged before any line.
    TooLarge,
    /// The first line, from 1, up to which the lines begin no round text; one more than the number of lines where the text
    /// ends too early.
    Line(usize),
}

impl From<AllocError> for RoundFault {
    ghost use Rattle.std.specs.Prelude.{◌≡◌};
    ghost use Rattle.intake.specs.declared.round.RoundFault.TheVariants.{Memory};

    ghost from_gives = { λ _ e. e ≡ Memory };

    fn from(_: AllocError) -> RoundFault {
        RoundFault::Memory
    }
}
