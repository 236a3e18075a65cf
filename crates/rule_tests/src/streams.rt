//! Streams, their messages and their ends, under a handler that answers each message by a full stop and refuses an
//! end by an exclamation mark.
ghost use Rattle.std.specs.Prelude.{◌≡◌, ⊤, [], ◌∷◌};

use arrayvec::ArrayVec;
use http_stream::{Answer, End, Handler, ShortText, Watched, serve_messages};
use std::alloc::{AllocError, Global};
use std::rt::HostRuntime;
use std::test::Fail;
use testing::cells::{body_of, first_cell};
use testing::judged::holds;
use testing::pieces::Pieces;

/// Returns one byte.
fn mark(byte: u8) -> ShortText
    ensures { result.items ≡ byte ∷ [] }
{
    let mut bytes = ArrayVec::new();
    bytes.push(byte);
    bytes
}

/// Answers by marks.
#[derive(Drop)]
struct Marks;

impl Handler<u32> for Marks {
    ghost step = { λ _ _ _ _. ⊤ };

    ghost refusal = { λ _. 33 ∷ [] };

    fn answer(&self, _desk: &mut u32, _method: &[u8], _target: &[u8], _body: &[u8]) -> Answer {
        Answer::Short(mark(b'.'))
    }

    fn refuse(&self, _end: End) -> Answer {
        Answer::Short(mark(b'!'))
    }
}

/// Compares what is written for the bytes, this many at a time: a mark for each answer, and the end.
fn compare(
    alloc: Global,
    name: &str,
    (bytes, piece): (&[u8], usize),
    marks: &str,
    end: End,
) -> Result<(), Fail> {
    let mut reader = Watched::new(Pieces::new(bytes, (piece, piece), None));
    let mut writer = Watched::new(Vec::new(alloc));
    let mut desk = 0;
    let result = serve_messages(alloc, &Marks, &mut desk, &mut reader, &mut writer);
    let written = writer.into_inner();
    let late = reader.into_inner().late;
    let is_served = match &result {
        Ok(served) => served.answered as usize == marks.len() && served.end == end,
        Err(_) => false,
    };
    holds(
        is_served && late == 0 && written.as_slice() == marks.as_bytes(),
        name,
    )
}

/// Two messages, of 63 bytes each.
#[rattlefmt::skip]
static TWO: &[u8] =
    b"PUT /students/S1 HTTP/1.1\r\nContent-Length: 14\r\n\r\n{\"name\":\"Ann\"}PUT /students/S2 HTTP/1.1\r\nContent-Length: 14\r\n\r\n{\"name\":\"Bob\"}";

/// Returns what is written for `n` bytes of the two messages, and how they end.
fn end_of(n: usize) -> (&'static str, End) {
    match n {
        0 => ("", End::Closed),
        1..=62 => ("", End::Unfinished),
        63 => (".", End::Closed),
        64..=125 => (".", End::Unfinished),
        _ => ("..", End::Closed),
    }
}

/// Compares each beginning of the bytes, one byte at a time.
fn compare_prefixes(alloc: Global, bytes: &[u8]) -> Result<(), Fail> {
    for n in 0..bytes.len() + 1 {
        let (marks, end) = end_of(n);
        compare(alloc, "a beginning", (&bytes[..n], 1), marks, end)?;
    }
    Ok(())
}

#[test]
fn prefixes(rt: HostRuntime) -> Result<(), Fail> {
    compare_prefixes(rt.alloc(), TWO)
}

/// A start of bytes, a piece and how many times it comes, and a rest; then how the stream ends, and the marks.
// A head of 8,192 bytes, and one that is a byte longer; 32 fields and 33; a body of 65,536 bytes; a hundred messages and one more.
#[rattlefmt::skip]
static STREAMS: &str =
    r#"PUT /a HTTP/1.1^r^nContent-Length: 65537^r^n^r^n                          |                        | 0     |          | TooLarge   | !
       PUT /a HTTP/1.1^r^nContent-Length: 999999999999999999999999999999^r^n^r^n |                        | 0     |          | TooLarge   | !
       GET /students/S1 HTTP/1.1^r^nX:^s                                         | a                      | 8159  | ^r^n^r^n | TooLarge   | !
       GET /students/S1 HTTP/1.1^r^n                                             | X: a^r^n               | 33    | ^r^n     | TooLarge   | !
       PUT /a HTTP/1.1^r^nContent-Length: 14^r^ncontent-length: 14^r^n^r^n       |                        | 0     |          | BadHead    | !
       PUT /a HTTP/1.1^r^nContent-Length: +14^r^n^r^n                            |                        | 0     |          | BadHead    | !
       PUT /a HTTP/1.1^r^nContent-Length:^r^n^r^n                                |                        | 0     |          | BadHead    | !
       PUT /a HTTP/1.1^r^nTransfer-Encoding: chunked^r^n^r^n                     |                        | 0     |          | BadHead    | !
       PUT /a HTTP/1.0^r^n^r^n                                                   |                        | 0     |          | BadHead    | !
       GET /a HTTP/1.1^r^n^r^nPUT /a HTTP/1.0^r^n^r^n                            |                        | 0     |          | BadHead    | .!
       GET^n                                                                     |                        | 0     |          | BadHead    | !
       PUT /a HTTP/1.1^r^nContent-Length: 00014^r^n^r^n{"name":"Ann"}            |                        | 0     |          | Closed     | .
                                                                                 |                        | 0     |          | Closed     |
       GET /students/S1 HTTP/1.1^r^nX:^s                                         | a                      | 8158  | ^r^n^r^n | Closed     | .
       GET /students/S1 HTTP/1.1^r^n                                             | X: a^r^n               | 32    | ^r^n     | Closed     | .
       PUT /a HTTP/1.1^r^nContent-Length: 65536^r^n^r^n                          | a                      | 65536 |          | Closed     | .
       GET                                                                       |                        | 0     |          | Unfinished |
                                                                                 | GET / HTTP/1.1^r^n^r^n | 101   |          | Hundred    | ...................................................................................................."#;

/// Returns the end of this name.
fn end_named(name: &str) -> End {
    match name {
        "Closed" => End::Closed,
        "Unfinished" => End::Unfinished,
        "BadHead" => End::BadHead,
        "TooLarge" => End::TooLarge,
        _ => End::Hundred,
    }
}

/// Returns a start, a piece that is repeated `times` times, and a rest.
fn repeated(
    alloc: Global,
    start: &str,
    piece: &str,
    times: usize,
    rest: &str,
) -> Result<Vec<u8>, AllocError> {
    let mut bytes = body_of(alloc, start)?;
    let piece = body_of(alloc, piece)?;
    for _piece in 0..times {
        bytes.extend_from_slice(&piece)?;
    }
    bytes.extend_from_slice(&body_of(alloc, rest)?)?;
    Ok(bytes)
}

/// Compares a row: one byte at a time, and of a repeated piece a thousand.
fn compare_row(alloc: Global, row: &str) -> Result<(), Fail> {
    let (start, cells) = first_cell(row);
    let (piece, cells) = first_cell(cells);
    let (times, cells) = first_cell(cells);
    let (rest, cells) = first_cell(cells);
    let (end, marks) = first_cell(cells);
    let times = times.parse()?;
    let bytes = repeated(alloc, start, piece, times, rest)?;
    let size = if times == 0 { 1 } else { 1000 };
    compare(alloc, row, (&bytes, size), marks.trim(), end_named(end))
}

#[test]
fn heads_and_limits(rt: HostRuntime) -> Result<(), Fail> {
    for row in STREAMS.lines() {
        compare_row(rt.alloc(), row)?;
    }
    Ok(())
}
