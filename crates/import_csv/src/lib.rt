//! Import texts: the requests that the records of a CSV text stand for.
//!
//! `csv` reads the records, and nothing here judges a request: `office` does. Codes, labels and quotas come as they are
//! written, so that a wrong one is refused with its record.
//!
//! Promised: `read_import` gives the requests that the definition gives for the bytes, one for each record after the
//! header, or the definition's fault; out of memory may take the place of both. The definition is `requests_of` in
//! `specs/Requests.antt`: begin there.
//!
//! A further kind is an arm of the table of headers and an arm of the requests, in `kinds.rt` and in `specs/Kinds.antt`.
#![tactic(auto)]

mod fault;
mod fields;
mod kinds;
mod read;

pub use fault::ImportFault;
pub use read::read_import;
