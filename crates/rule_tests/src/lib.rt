//! The tests of rules: worked examples of what no clause says, over the crates that hold no office, each through public calls alone.
//!
//! `docs/TESTS.md` says where a test of what goes. In a row of text `^n` and the like are described in `cells` of `testing`.
#![tactic(auto)]

// A network that students are admitted to one by one: places, prices, what is compared.
#[cfg(test)]
mod admissions;
// What differs by aim: rounds, audits, and a search through all matchings of small instances.
#[cfg(test)]
mod aims;
// Prices and places that no round text can have, judged by the checker.
#[cfg(test)]
mod checks;
// Assignment with quotas by cost: the network over a worth of the test's own.
#[cfg(test)]
mod costs;
// What the text of an import stands for, before any office.
#[cfg(test)]
mod import_texts;
// Instances, matchings and profiles, by hand.
#[cfg(test)]
mod instances;
// The words of each command, and its limits.
#[cfg(test)]
mod line_words;
// Results that are posted without lists: what everybody and each student find wrong.
#[cfg(test)]
// Texts of what is posted: made, checked by everybody, and by each student.
#[cfg(test)]
// Helper: instances and matchings from short texts.
#[cfg(test)]
mod rolls_of;
// Worked rounds and audits, by `solve` and `audit`.
#[cfg(test)]
mod rounds;
// A session compared with what `solve` answers.
#[cfg(test)]
mod sessions;
// Messages and their ends, without an office.
#[cfg(test)]
mod streams;
// The order and the sums of worths.
#[cfg(test)]
mod worths;
