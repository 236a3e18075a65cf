//! Codes in rolls that rise, and in lists.
#![tactic(auto)]

ghost use Rattle.std.specs.Prelude.{◌≡◌, ◌↔◌, ℕ, List, [], ◌∷◌, ◌++◌, map, length, IsTrue, MatchOption};
ghost use Rattle.spa.specs.Inside.Codes.{Finds};
ghost use Rattle.intake.specs.Parts.{Rise, IsRoll};
ghost use Rattle.intake.specs.Inside.Entries.{ComesNext};

use crate::fields::read_code;
use spa::Code;

/// An entry of a roll.
pub(crate) trait Coded {
    ghost key: { Self → List ℕ };

    /// Returns the entry's code.
    fn code(&self) -> &str
        ensures { result.now ≡ key self.now };
}

impl Coded for (Code, u32) {
    ghost key = { λ e. e.0 };

    fn code(&self) -> &str {
        self.0.as_str()
    }
}

impl Coded for (Code, Code, u32) {
    ghost key = { λ e. e.0 };

    fn code(&self) -> &str {
        self.0.as_str()
    }
}

impl Coded for (Code, Vec<Code>) {
    ghost key = { λ e. e.0 };

    fn code(&self) -> &str {
        self.0.as_str()
    }
}

/// Returns where a code stands in a roll.
pub(crate) fn position_of<E: Coded>(roll: &[E], code: &str) -> Option<usize>
    requires { Rise (map E.key roll.now) }
    ensures { Finds (map E.key roll.now) (length roll.now) code.now result }
{
    roll.binary_search_by(|entry| entry.code().cmp(code)).ok()
}

/// Whether a code comes after all of a roll.
pub(crate) fn is_next<E: Coded>(roll: &[E], code: &str) -> bool
    requires { Rise (map E.key roll.now) }
    ensures { IsTrue result ↔ Rise (map E.key roll.now ++ code.now ∷ []) }
{
    let Some(last) = roll.last() else {
        return true;
    };
    last.code().cmp(code).is_lt()
}

/// Returns the code that a field is, if it may come next on a roll of at most `most` entries.
pub(crate) fn next_code<E: Coded>(roll: &[E], most: usize, field: &[u8]) -> Option<Code>
    requires { Rise (map E.key roll.now) }
    ensures { MatchOption result (¬ ComesNext most (map E.key roll.now) field.now) (λ c. (c ≡ field.now) × ComesNext most (map E.key roll.now) field.now) }
{
    let Some(code) = read_code(field) else {
        return None;
    };
    if roll.len() >= most || !is_next(roll, code.as_str()) {
        return None;
    }
    Some(code)
}

/// Whether two texts are the same. Codes that differ mostly do at their ends.
fn is_same(a: &[u8], b: &[u8]) -> bool
    ensures { IsTrue result ↔ (a.now ≡ b.now) }
{
    if a.len() != b.len() {
        return false;
    }
    if !a.is_empty() && a[a.len() - 1] != b[a.len() - 1] {
        return false;
    }
    a == b
}

/// Returns the position of a code in a list.
pub(crate) fn position_in(list: &[Code], code: &[u8]) -> Option<usize>
    ensures { Finds list.now (length list.now) code.now result }
{
    for position in 0..list.len() {
        if is_same(list[position].as_str().as_bytes(), code) {
            return Some(position);
        }
    }
    None
}

/// Returns where a code stands in a roll. It is looked for at a guess first.
pub(crate) fn position_at<E: Coded>(roll: &[E], code: &[u8], guess: usize) -> Option<usize>
    requires { IsRoll (map E.key roll.now) }
    ensures { Finds (map E.key roll.now) (length roll.now) code.now result }
{
    if guess < roll.len() && is_same(roll[guess].code().as_bytes(), code) {
        return Some(guess);
    }
    let Some(code) = read_code(code) else {
        return None;
    };
    position_of(roll, code.as_str())
}
