//! Offices in memory: files whose rows are parted into offices.

use std::process::Termination;
use std::rt::HostRuntime;
use std::test::Fail;
use testing::offices::play_office;

/// What parts the offices of a file.
const OFFICE: &str = "\n== ";

/// Whether a file's rows are about offices in memory.
pub(crate) fn is_of_offices(text: &str) -> bool {
    text.contains(OFFICE)
}

/// Plays the offices of a file, and prints each row that is not as it wants. How many rows were compared.
pub(crate) fn play_offices(rt: &HostRuntime, text: &str) -> u32 {
    let mut offices = text.split(OFFICE);
    let texts = offices.next().unwrap_or("");
    let mut count: u32 = 0;
    for office in offices {
        match play_office(rt.alloc(), texts, office) {
            Ok(compared) => count = count.saturating_add(compared),
            Err(fail) => {
                let _status = Err::<(), Fail>(fail).report(rt);
            }
        }
    }
    count
}
