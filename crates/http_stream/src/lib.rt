//! HTTP over any reader and writer: the messages of a byte stream, answered in order.
//!
//! This crate does not know what a message asks for, nor how it or a bad head is answered: a `Handler` says
//! that. What is here is where each message begins and ends, that each is answered as soon as its bytes have
//! come, and how the stream ends.
//!
//! Promised: for every reader, however it cuts its bytes, `serve_messages` writes the answers of a run of the
//! handler over the messages of the stream, in order, then the refusal that ends it, and nothing else;
//! and a stream has one list of messages and one end. Begin at `specs/Messages.antt`, then
//! `specs/Run.antt` and `specs/Served.antt`.
#![tactic(auto)]

mod ending;
mod endpoints;
mod fields;
mod front;
mod handling;
mod laws;
mod outcome;
mod service;
mod window;
mod writing;

pub use endpoints::{Sink, Source, Watched};
pub use handling::{Answer, Handler, ShortText};
pub use laws::one_reading;
pub use outcome::{End, Served, StreamFault};
pub use service::serve_messages;
pub use writing::write_all;

/// The most bytes of a head.
pub const MAX_HEAD_BYTES: usize = 8_192;

/// The most fields of a head.
pub const MAX_FIELDS: usize = 32;

/// The most bytes of a body.
pub const MAX_BODY_BYTES: u64 = 65_536;

/// The most bytes of a message.
pub const MAX_MESSAGE_BYTES: usize = MAX_HEAD_BYTES + MAX_BODY_BYTES as usize;

/// The most messages of a stream that are answered.
pub const MAX_MESSAGES: u32 = 100;

/// The most bytes of a short text.
pub const MAX_SHORT_TEXT: usize = 384;

/// The most bytes of the body of a short answer; the rest of a short text has room for its head.
pub const MAX_SHORT_BODY: usize = 240;
