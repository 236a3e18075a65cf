//! What stands at the front of a stream, after some of its bytes have come.
ghost use Rattle.std.specs.Prelude.{◌≡◌, ◌≤◌, ◌+◌, ℕ, false, length};
ghost use Rattle.http_stream.specs.Messages.{has_line};
ghost use Rattle.http_stream.specs.Inside.Judged.{FindsHead, Judges};

use crate::MAX_HEAD_BYTES;
use crate::fields::{Framing, framing_of};
use crate::outcome::End;
use httparse::spans::{HeaderSpan, RequestSpans, Span, parse_request};
use httparse::{Error, Status};

/// The fields for which the parser has room: more than stand in the most bytes of a head, so whole heads are judged.
pub const FIELDS: usize = 2800;

/// What a search for a head found: its parts, that none can come, or none so far.
enum Head {
    Found(RequestSpans),
    Malformed,
    Missing,
}

/// Where the parts of a message stand.
#[derive(Clone, Copy)]
pub struct Parts {
    pub method: Span,
    pub target: Span,
    pub head: usize,
    pub body: usize,
}

/// What stands at the front of a stream.
pub enum Judgement {
    Whole(Parts),
    Stop(End),
    Open,
}

/// Whether an LF comes after a byte that is neither CR nor LF.
fn has_line(buf: &[u8]) -> bool
    ensures { result ≡ has_line false buf.now }
{
    let mut begun = false;
    for b in buf {
        if *b == b'\n' {
            if begun {
                return true;
            }
        } else if *b != b'\r' {
            begun = true;
        }
    }
    false
}

/// Looks for a head at the front.
fn find_head(window: &[u8], headers: &mut [HeaderSpan]) -> Head
    requires room { length headers.old ≡ FIELDS }
    requires short { length window.now ≤ MAX_HEAD_BYTES }
    ensures { FindsHead window.now headers.new result }
{
    match parse_request(window, headers) {
        Ok(status) => match status {
            Status::Complete(spans) => Head::Found(spans),
            Status::Partial => Head::Missing,
        },
        Err(error) => match error {
            // Cannot be, since there is room for more fields than stand in so short a window.
            Error::TooManyHeaders => Head::Missing,
            _ => {
                // Before a line has ended nothing is refused: a head may begin with empty lines (RFC 9112, section 2.2).
                if has_line(window) {
                    Head::Malformed
                } else {
                    Head::Missing
                }
            }
        },
    }
}

/// Says what stands at the front.
pub fn judge(buf: &[u8], headers: &mut [HeaderSpan]) -> Judgement
    requires { length headers.old ≡ FIELDS }
    ensures { Judges buf.now result }
{
    // A longer head is none, so no more is looked at: what a head costs is bounded, however many bytes have come.
    let window = &buf[..MAX_HEAD_BYTES.min(buf.len())];
    match find_head(window, headers) {
        Head::Found(spans) => match framing_of(window, spans.version, &headers[..spans.headers]) {
            Framing::Wrong => Judgement::Stop(End::BadHead),
            Framing::Long => Judgement::Stop(End::TooLarge),
            Framing::Length(body) => {
                if buf.len() - spans.len < body {
                    Judgement::Open
                } else {
                    Judgement::Whole(Parts {
                        method: spans.method,
                        target: spans.path,
                        head: spans.len,
                        body,
                    })
                }
            }
        },
        Head::Malformed => Judgement::Stop(End::BadHead),
        Head::Missing => {
            // With the window full no further byte can make it a head.
            if buf.len() < MAX_HEAD_BYTES {
                Judgement::Open
            } else {
                Judgement::Stop(End::TooLarge)
            }
        }
    }
}
