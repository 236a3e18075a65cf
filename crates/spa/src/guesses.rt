//! Guesses where codes stand in a roll. A guess may be wrong, so nothing rests on it but speed.
#![tactic(auto)]

ghost use Rattle.std.specs.Prelude.{◌<◌};

/// How many guesses are stored.
const SLOTS: usize = 4096;

/// Where codes were noted, by a sum over their bytes. Of codes with one sum the last stays.
#[derive(Drop)]
pub struct Guesses {
    slots: [u16; SLOTS],
}

/// Returns the slot of a code.
fn slot(code: &[u8]) -> usize
    ensures { result < SLOTS }
{
    let mut sum: u32 = 0;
    for byte in code {
        sum = sum.wrapping_mul(31).wrapping_add(*byte as u32);
    }
    sum as usize % SLOTS
}

impl Guesses {
    /// Creates guesses, of which none was noted.
    pub fn new() -> Self {
        Guesses { slots: [0; SLOTS] }
    }

    /// Notes where a code stands.
    pub fn note(&mut self, code: &[u8], position: usize) {
        if position < 65_536 {
            self.slots[slot(code)] = position as u16;
        }
    }

    /// Returns where a code is to be looked for first.
    pub fn guess(&self, code: &[u8]) -> usize {
        self.slots[slot(code)] as usize
    }
}
