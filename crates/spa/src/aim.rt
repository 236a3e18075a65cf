//! The aims of a round: which of the largest matchings is best.
//!
//! The two are those of Kwanashie, Irving, Manlove and Sng, "Profile-based optimal matchings in the student/project
//! allocation problem"; see also Manlove, "Algorithmics of Matching Under Preferences".

ghost use Rattle.std.specs.Prelude.{◌≡◌, ◌≤◌, length};
ghost use Rattle.spa.specs.Aims.{aim_with, aim_word};

/// Which of the largest matchings is best.
#[derive(Clone, Copy, PartialEq, Eq, Drop)]
pub enum Aim {
    /// A greedy maximum matching: the most pairs of rank 1, then the most of rank 2, and so on to the last rank.
    Greedy,
    /// A generous maximum matching: the fewest pairs of the last rank, then the fewest of the last but one, and so on to
    /// rank 1.
    Generous,
}

/// The aims.
pub const AIMS: [Aim; 2] = [Aim::Greedy, Aim::Generous];

impl Aim {
    /// Returns the word by which texts, requests and commands name the aim.
    pub fn word(self) -> &'static str
        ensures word { result.now ≡ aim_word self }
        ensures short { length result.now ≤ 8 }
    {
        match self {
            Aim::Greedy => "greedy",
            Aim::Generous => "generous",
        }
    }

    /// Returns the aim that has this word.
    pub fn of_word(word: &str) -> Option<Aim>
        ensures { result ≡ aim_with word.now }
    {
        AIMS.iter().copied().find(|aim| aim.word() == word)
    }
}
