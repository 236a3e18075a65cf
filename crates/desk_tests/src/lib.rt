//! The tests of a desk that need a function of their own: streams in pieces, commands, and what fails one after another, each through
//! public calls alone.
//!
//! What rows can show stands in `scenarios`, and `docs/TESTS.md` says where a test of what goes.
#![tactic(auto)]

// Streams in pieces, and readers and writers that fail.
#[cfg(test)]
mod broken_streams;
// A desk over a database, and a list of requests.
#[cfg(test)]
mod desks;
// Each call of a file fails, one after another, and a crash leaves what stands there.
#[cfg(test)]
mod failing;
// Helper: what is done at a database over files that fail.
#[cfg(test)]
mod files;
// Helper: a world in memory.
#[cfg(test)]
mod in_memory;
// A world in memory of which all is known, and a command there, of which a clause says what it prints.
#[cfg(test)]
mod known;
// A file and connections on loopback: what the machine does of itself.
#[cfg(test)]
mod machine;
// An office next to its tables, without a desk.
#[cfg(test)]
mod offices;
// Commands in worlds in memory: what each prints, and what those are answered who call it meanwhile.
#[cfg(test)]
mod programs;
// Each allocation fails, one after another.
#[cfg(test)]
mod refused;
