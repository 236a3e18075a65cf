//! What messages ask of the office, and the bytes of its answers.
//!
//! A message is routed by its path, judged by its method and its body, and becomes a request of the office;
//! an answer of the office becomes a text of HTTP in JSON. The answer of a change and of every refusal is made
//! in a fixed array, so a change that was made is never answered as out of memory. Neither the desk nor the
//! stream is known here.
//!
//! The words are in `specs/Routes.antt` (what a path names), `specs/Requests.antt` (what a message asks) and
//! `specs/Texts.antt` (what is answered); begin there.
#![tactic(auto)]

mod answers;
mod laws;
mod members;
mod requests;
mod routes;
mod texts;

pub use answers::{push, push_labelled, push_number};
pub use laws::one_request;
pub use requests::Routes;
pub use texts::{answer_of, refusal_answer};
