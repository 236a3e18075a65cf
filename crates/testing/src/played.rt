//! Requests that are played at a desk, byte for byte.
//!
//! A line has four cells: the method and the path of a request, its body, and the status and the body of the answer.

use crate::cells::{body_of, first_cell};
use crate::pieces::{Narrow, Pieces};
use desk::Desk;
use sqlite::Alter;
use std::alloc::{AllocError, Global};
use std::io;
use std::test::Fail;
use web::{End, Served, StreamFault, Watched, serve_stream};

/// Whether a line is a row: not empty, and no remark, which begins with `#`.
pub(crate) fn is_row(line: &str) -> bool {
    let line = line.trim();
    !line.is_empty() && !line.starts_with('#')
}

/// Plays each line. How many there are.
pub fn play_lines<S: Alter>(alloc: Global, desk: &mut Desk<S>, lines: &str) -> Result<u32, Fail> {
    let mut count: u32 = 0;
    for line in lines.lines() {
        if is_row(line) {
            play_line(alloc, desk, line)?;
            count = count.saturating_add(1);
        }
    }
    Ok(count)
}

/// Returns the lines for one number.
pub fn numbered(alloc: Global, lines: &str, n: u32) -> Result<String, AllocError> {
    let after = format!(in alloc; "{}", n.saturating_add(1))?;
    let number = format!(in alloc; "{n}")?;
    lines
        .replace(alloc, "&", &after)?
        .replace(alloc, "$", &number)
}

/// Returns the line with its copies of each piece.
pub fn filled(alloc: Global, copies: u32, pieces: &str, line: &str) -> Result<String, AllocError> {
    let mut all = String::new(alloc);
    for piece in pieces.split('/') {
        for n in 0..copies {
            all.push_str(&numbered(alloc, piece, n.saturating_add(1000))?)?;
        }
    }
    line.replace(alloc, "$", &all)
}

/// Returns a message or an answer, with this head and the body of this cell.
fn framed(alloc: Global, head: &str, cell: &str) -> Result<Vec<u8>, AllocError> {
    let body = body_of(alloc, cell)?;
    let len = body.len();
    let head = format!(in alloc; "{head}\r\nContent-Length: {len}\r\n\r\n")?;
    let mut bytes = Vec::from_slice(alloc, head.as_bytes())?;
    bytes.extend_from_slice(&body)?;
    Ok(bytes)
}

/// Returns the message that asks this with a body.
fn message(alloc: Global, asked: &str, body: &str) -> Result<Vec<u8>, AllocError> {
    framed(alloc, &format!(in alloc; "{asked} HTTP/1.1")?, body)
}

/// Returns the message of a line; after `raw` it stands as it is sent.
fn message_of(alloc: Global, line: &str) -> Result<Vec<u8>, AllocError> {
    let (asked, rest) = first_cell(line);
    let (body, _answer) = first_cell(rest);
    match asked.strip_prefix("raw ") {
        Some(sent) => body_of(alloc, sent),
        None => message(alloc, asked, body),
    }
}

/// Returns the messages of lines, one after another.
pub fn messages_of(alloc: Global, lines: &str) -> Result<Vec<u8>, AllocError> {
    let mut bytes = Vec::new(alloc);
    for line in lines.lines() {
        bytes.extend_from_slice(&message_of(alloc, line)?)?;
    }
    Ok(bytes)
}

/// Returns the answer of a line, whose body is JSON where it begins with a brace, and else a text; without a status there is none.
pub fn answer_of(alloc: Global, line: &str) -> Result<Vec<u8>, AllocError> {
    let (_asked, rest) = first_cell(line);
    let (_body, rest) = first_cell(rest);
    let (status, told) = first_cell(rest);
    let told = told.trim();
    let kind = if told.starts_with('{') {
        "application/json"
    } else {
        "text/plain; charset=utf-8"
    };
    if status.is_empty() {
        return Ok(Vec::new(alloc));
    }
    let head = format!(in alloc; "HTTP/1.1 {status}\r\nContent-Type: {kind}")?;
    framed(alloc, &head, told)
}

/// Returns the fault that a row got something else than it wants.
pub fn otherwise(row: &str, got: &[u8]) -> Fail {
    let got = str::from_utf8(got).unwrap_or("bytes that are no text");
    Fail::new(format_args!("{row:.200}\n    got {got:.250}"))
}

/// Plays a line.
fn play_line<S: Alter>(alloc: Global, desk: &mut Desk<S>, line: &str) -> Result<(), Fail> {
    let message = message_of(alloc, line)?;
    let want = answer_of(alloc, line)?;
    compare(alloc, desk, (&message, &want), line)
}

/// Returns what is written when the message of a line is served.
pub fn asked<S: Alter>(
    alloc: Global,
    desk: &mut Desk<S>,
    line: &str,
) -> Result<Vec<u8>, AllocError> {
    let message = message_of(alloc, line)?;
    Ok(served_alone(alloc, desk, &message).written)
}

/// Compares what the message is answered, after which the stream is closed.
fn compare<S: Alter>(
    alloc: Global,
    desk: &mut Desk<S>,
    (message, want): (&[u8], &[u8]),
    row: &str,
) -> Result<(), Fail> {
    let end = End::Closed;
    let got = served_alone(alloc, desk, message);
    if got.written.as_slice() == want && got.result == Ok(Served { answered: 1, end }) {
        return Ok(());
    }
    Err(otherwise(row, &got.written))
}

/// Compares what a read is answered with what it is answered when it is asked again.
pub(crate) fn play_twice<S: Alter>(
    alloc: Global,
    desk: &mut Desk<S>,
    asked: &str,
) -> Result<u32, Fail> {
    let message = message(alloc, asked, "")?;
    let first = served_alone(alloc, desk, &message).written;
    if !first.starts_with(b"HTTP/1.1 200 OK\r\n") {
        return Err(otherwise(asked, &first));
    }
    compare(alloc, desk, (&message, &first), asked)?;
    Ok(1)
}

/// Returns all the bytes, a thousand at a time.
pub fn whole(bytes: &[u8]) -> Pieces<'_> {
    Pieces::new(bytes, (1000, 1000), None)
}

/// What came of a stream.
#[derive(Drop)]
pub struct Outcome {
    pub written: Vec<u8>,
    pub result: Result<Served, StreamFault>,
    pub failed_reads: u64,
    pub failed_writes: u64,
    /// How many calls came after a reader or a writer had failed or ended.
    pub late: u32,
}

/// Serves what the reader gives, to a writer with so much room that keeps what it takes here.
pub fn served<S: Alter>(
    alloc: Global,
    desk: &mut Desk<S>,
    reader: Pieces,
    taken: Vec<u8>,
    (room, fault): (usize, Option<io::ErrorKind>),
) -> Outcome {
    let mut reader = Watched::new(reader);
    let mut writer = Watched::new(Narrow::new(taken, room, fault));
    let result = serve_stream(alloc, desk, &mut reader, &mut writer);
    let failed_reads = reader.failures();
    let failed_writes = writer.failures();
    let Pieces { late: read, .. } = reader.into_inner();
    let Narrow { taken, late, .. } = writer.into_inner();
    Outcome {
        written: taken,
        result,
        failed_reads,
        failed_writes,
        late: read.saturating_add(late),
    }
}

/// Does the same with a message that comes alone, where there is room for what is written.
fn served_alone<S: Alter>(alloc: Global, desk: &mut Desk<S>, message: &[u8]) -> Outcome {
    let taken = Vec::new(alloc);
    served(alloc, desk, whole(message), taken, (200_000, None))
}
