//! The kinds of texts, and their sections by the letters of their lines.
#![tactic(auto)]

ghost use Rattle.std.specs.Prelude.{◌≡◌, MatchOption};
ghost use Rattle.intake.specs.declared.section.SectionName.{SectionName};
ghost use Rattle.intake.specs.Parts.{least_listed, most_listed};
ghost use Rattle.intake.specs.Inside.Entries.{letter_of};

use spa::RANKS;

/// A kind of text.
#[derive(Clone, Copy, PartialEq, Eq)]
pub enum Kind {
    /// A round.
    Round,
    /// A result that is posted without lists.
    Public,
}

/// The sections in their order. A result has no pairs and no students' prices.
#[derive(Clone, Copy)]
pub(crate) enum SectionName {
    Aims,
    Supervisors,
    Projects,
    Students,
    Pairs,
    StudentPrices,
    ProjectPrices,
    SupervisorPrices,
}

impl Kind {
    /// Returns the section whose lines begin with a letter.
    pub(crate) fn section_of(self, letter: &[u8]) -> Option<SectionName>
        ensures { MatchOption result ((s : SectionName) → ¬ (letter.now ≡ letter_of self s)) (λ s. letter.now ≡ letter_of self s) }
    {
        match letter {
            [b'A'] => Some(SectionName::Aims),
            [b'S'] => Some(SectionName::Supervisors),
            [b'P'] => Some(SectionName::Projects),
            [b'C'] if self == Kind::Round => Some(SectionName::Students),
            [b'R'] if self == Kind::Public => Some(SectionName::Students),
            [b'M'] => Some(SectionName::Pairs),
            [b'U'] => Some(SectionName::StudentPrices),
            [b'Y'] => Some(SectionName::ProjectPrices),
            [b'Z'] => Some(SectionName::SupervisorPrices),
            _ => None,
        }
    }

    /// Returns the fewest and the most projects that stand after a student's code.
    pub(crate) fn listed(self) -> (usize, usize)
        ensures least { result.0 ≡ least_listed self }
        ensures most { result.1 ≡ most_listed self }
    {
        match self {
            Kind::Round => (1, RANKS),
            Kind::Public => (0, 1),
        }
    }
}
