//! The office over HTTP: a stream served at the desk that keeps its tables.
//!
//! `http_stream` finds the messages of a stream and writes their answers; `http_api` says what a message asks and how
//! an answer is written. Here each message is asked of the desk.
//!
//! Promised: `serve_stream` writes the texts of the answers of a run of the office over the requests of the
//! messages of the stream. The words that put both together are in `specs/Serving.antt`; begin there. `stream_law` says what a crash leaves
//! of a stream, and that it stays available.
#![tactic(auto)]

mod connections;
mod laws;
mod service;

pub use connections::{OutFault, serve_on};
pub use http_api::{push, push_labelled, push_number};
pub use http_stream::{End, Served, ShortText, Sink, Source, StreamFault, Watched, write_all};
pub use laws::stream_law;
pub use service::serve_stream;

/// How many in a row that cannot be accepted end the service of a port: the system has no descriptor or memory left for them.
pub const MAX_UNACCEPTED: u32 = 10;
