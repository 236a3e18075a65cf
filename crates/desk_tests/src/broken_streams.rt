//! Streams at a desk whose bytes come in pieces, and whose readers and writers fail: what is written, and what the tables have then.

use desk::Desk;
use sqlite::{Alter, Connection};
use std::alloc::Global;
use std::io::ErrorKind;
use std::rt::HostRuntime;
use std::test::Fail;
use testing::judged::holds;
use testing::offices::find;
use testing::opened::desk_over;
use testing::pieces::Pieces;
use testing::played::{Outcome, served};
use web::{End, Served, StreamFault};

/// A stream: its reader and its writer, and what comes of it.
#[derive(Clone, Copy)]
struct Stream {
    name: &'static str,
    /// The bytes, and how many of them come.
    bytes: (&'static [u8], usize),
    /// How many come at first, and then at a time.
    pieces: (usize, usize),
    /// How the reader fails after them, if it does.
    broken: Option<ErrorKind>,
    /// How many bytes the writer takes, and how it then fails; without a fault it takes none.
    room: (usize, Option<ErrorKind>),
    /// The bytes that are written, and how many of them.
    written: (&'static [u8], usize),
    result: Result<Served, StreamFault>,
}

/// Streams at desks that are opened one after another over the same tables, and how many students these have then.
type Play = &'static [(&'static [Stream], &'static str)];

const NONE: &str = "0 | SELECT count(*) FROM student";

const ONE: &str = "1 | SELECT count(*) FROM student";

const TWO: &str = "2 | SELECT count(*) FROM student";

/// Messages that put S1 and S2, of 63 bytes each.
const PUT_TWO: &[u8] =
    b"PUT /students/S1 HTTP/1.1\r\nContent-Length: 14\r\n\r\n{\"name\":\"Ann\"}PUT /students/S2 HTTP/1.1\r\nContent-Length: 14\r\n\r\n{\"name\":\"Bob\"}";

/// The answers to two messages that put an entry, of 82 bytes each.
const DONE_TWICE: &[u8] =
    b"HTTP/1.1 200 OK\r\nContent-Type: application/json\r\nContent-Length: 11\r\n\r\n{\"ok\":true}HTTP/1.1 200 OK\r\nContent-Type: application/json\r\nContent-Length: 11\r\n\r\n{\"ok\":true}";

/// Messages that read S1 and S9, of 58 bytes.
const GET_TWO: &[u8] = b"GET /students/S1 HTTP/1.1\r\n\r\nGET /students/S9 HTTP/1.1\r\n\r\n";

/// Their answers, where S1 is Ann and nobody is S9.
const ANN_AND_NOBODY: &[u8] =
    b"HTTP/1.1 200 OK\r\nContent-Type: application/json\r\nContent-Length: 40\r\n\r\n{\"list\":null,\"name\":\"Ann\",\"placed\":null}HTTP/1.1 404 Not Found\r\nContent-Type: application/json\r\nContent-Length: 38\r\n\r\n{\"fault\":\"UnknownStudent\",\"number\":15}";

/// A put of S1.
#[rattlefmt::skip]
const ANN: Stream = Stream { name: "a put", bytes: (PUT_TWO, 63), pieces: (100, 100), broken: None, room: (100_000, None), written: (DONE_TWICE, 82), result: Ok(Served { answered: 1, end: End::Closed }) };

/// A read of S1 and S9.
#[rattlefmt::skip]
const READ: Stream = Stream { name: "what was put", bytes: (GET_TWO, 58), pieces: (100, 100), broken: None, room: (100_000, None), written: (ANN_AND_NOBODY, 1000), result: Ok(Served { answered: 2, end: End::Closed }) };

/// Streams whose bytes come in pieces, and whose readers and writers fail; each play at tables of its own.
#[rattlefmt::skip]
static STREAMS: [Play; 11] = [
    &[(&[Stream { name: "no bytes", bytes: (b"", 0), pieces: (9, 9), broken: None, room: (100_000, None), written: (b"", 0), result: Ok(Served { answered: 0, end: End::Closed }) }, ANN, READ], ONE), (&[READ], ONE)],
    &[(&[Stream { name: "two in pieces of 1", bytes: (PUT_TWO, 126), pieces: (1, 1), broken: None, room: (100_000, None), written: (DONE_TWICE, 164), result: Ok(Served { answered: 2, end: End::Closed }) }], TWO)],
    &[(&[Stream { name: "all but the last byte in pieces of 1", bytes: (PUT_TWO, 125), pieces: (1, 1), broken: None, room: (100_000, None), written: (DONE_TWICE, 82), result: Ok(Served { answered: 1, end: End::Unfinished }) }], ONE)],
    &[(&[Stream { name: "two in pieces of 200", bytes: (PUT_TWO, 126), pieces: (200, 200), broken: None, room: (100_000, None), written: (DONE_TWICE, 164), result: Ok(Served { answered: 2, end: End::Closed }) }], TWO)],
    &[(&[Stream { name: "all but the last byte in pieces of 200", bytes: (PUT_TWO, 125), pieces: (200, 200), broken: None, room: (100_000, None), written: (DONE_TWICE, 82), result: Ok(Served { answered: 1, end: End::Unfinished }) }], ONE)],
    &[(&[Stream { name: "a reader that fails after a message", bytes: (PUT_TWO, 63), pieces: (10, 10), broken: Some(ErrorKind::ConnectionReset), room: (100_000, None), written: (DONE_TWICE, 82), result: Err(StreamFault::Read) }], ONE)],
    &[(&[Stream { name: "a reader that is interrupted within one", bytes: (PUT_TWO, 62), pieces: (10, 10), broken: Some(ErrorKind::Interrupted), room: (100_000, None), written: (DONE_TWICE, 0), result: Err(StreamFault::Read) }], NONE)],
    &[(&[Stream { name: "a writer that fails in the second answer", bytes: (PUT_TWO, 126), pieces: (200, 200), broken: None, room: (100, Some(ErrorKind::ConnectionReset)), written: (DONE_TWICE, 100), result: Err(StreamFault::Write) }, READ], TWO), (&[ANN], TWO)],
    &[(&[Stream { name: "a writer that takes nothing", bytes: (PUT_TWO, 126), pieces: (200, 200), broken: None, room: (0, None), written: (DONE_TWICE, 0), result: Err(StreamFault::Write) }, READ], ONE), (&[ANN], ONE)],
    &[(&[Stream { name: "a writer that is interrupted", bytes: (PUT_TWO, 126), pieces: (200, 200), broken: None, room: (50, Some(ErrorKind::Interrupted)), written: (DONE_TWICE, 50), result: Err(StreamFault::Write) }, READ], ONE), (&[ANN], ONE)],
    &[(&[Stream { name: "a body above the limit", bytes: (b"PUT /students/S1 HTTP/1.1\r\nContent-Length: 65537\r\n\r\nGET / HTTP/1.1\r\n\r\n", 1000), pieces: (1000, 1000), broken: None, room: (100_000, None), written: (b"HTTP/1.1 413 Payload Too Large\r\nContent-Type: application/json\r\nContent-Length: 31\r\n\r\n{\"fault\":\"TooLarge\",\"number\":4}", 1000), result: Ok(Served { answered: 1, end: End::TooLarge }) }, Stream { name: "two lengths", bytes: (b"PUT /students/S1 HTTP/1.1\r\nContent-Length: 14\r\nContent-Length: 14\r\n\r\n{}", 1000), pieces: (1000, 1000), broken: None, room: (100_000, None), written: (b"HTTP/1.1 400 Bad Request\r\nContent-Type: application/json\r\nContent-Length: 30\r\n\r\n{\"fault\":\"BadHead\",\"number\":3}", 1000), result: Ok(Served { answered: 1, end: End::BadHead }) }], NONE)],
];

/// Returns the first bytes, and the others.
fn parted_at((bytes, count): (&[u8], usize)) -> (&[u8], &[u8]) {
    bytes.split_at(count.min(bytes.len()))
}

/// Whether the outcome has these bytes and this result, as many calls failed as the result says, and none came afterwards.
fn is_outcome(got: &Outcome, written: &[u8], want: &Result<Served, StreamFault>) -> bool {
    let failed_read = matches!(want, Err(StreamFault::Read));
    let failed_write = matches!(want, Err(StreamFault::Write));
    got.written.as_slice() == written
        && got.result == *want
        && got.failed_reads == u64::from(failed_read)
        && got.failed_writes == u64::from(failed_write)
        && got.late == 0
}

/// Plays each stream.
fn play_streams<S: Alter>(
    alloc: Global,
    desk: &mut Desk<S>,
    streams: &[Stream],
) -> Result<(), Fail> {
    for stream in streams {
        let (bytes, rest) = parted_at(stream.bytes);
        let fault = stream.broken.map(|fault| (fault, rest));
        let reader = Pieces::new(bytes, stream.pieces, fault);
        let got = served(alloc, desk, reader, Vec::new(alloc), stream.room);
        let (written, _) = parted_at(stream.written);
        holds(is_outcome(&got, written, &stream.result), stream.name)?;
    }
    Ok(())
}

/// Plays the two puts, cut into two pieces after each byte.
fn play_cuts<S: Alter>(alloc: Global, desk: &mut Desk<S>) -> Result<(), Fail> {
    let want = Ok(Served {
        answered: 2,
        end: End::Closed,
    });
    for cut in 1..PUT_TWO.len() {
        let reader = Pieces::new(PUT_TWO, (cut, 200), None);
        let got = served(alloc, desk, reader, Vec::new(alloc), (100_000, None));
        holds(is_outcome(&got, DONE_TWICE, &want), "cut into two pieces")?;
    }
    Ok(())
}

/// Plays the streams at a desk over tables, and counts the students of these then.
fn play_over<S: Alter + Drop>(
    alloc: Global,
    connection: Connection<S>,
    (streams, students): (&[Stream], &str),
) -> Result<Connection<S>, Fail> {
    let mut desk = desk_over(alloc, connection)?;
    let played = play_streams(alloc, &mut desk, streams);
    let mut connection = desk.into_connection();
    played?;
    find(&mut connection, students)?;
    Ok(connection)
}

/// Plays the streams of each desk in order.
fn play<S: Alter + Drop>(
    alloc: Global,
    mut connection: Connection<S>,
    play: Play,
) -> Result<(), Fail> {
    for (streams, students) in play {
        connection = play_over(alloc, connection, (*streams, *students))?;
    }
    Ok(())
}

#[test]
fn streams_come_in_pieces_and_break_off(rt: HostRuntime) -> Result<(), Fail> {
    for streams in STREAMS.as_slice() {
        let connection = Connection::open_in_memory(rt.alloc())?;
        play(rt.alloc(), connection, *streams)?;
    }
    Ok(())
}

/// Plays the cuts at a desk over tables.
fn play_cuts_over<S: Alter + Drop>(alloc: Global, connection: Connection<S>) -> Result<(), Fail> {
    let mut desk = desk_over(alloc, connection)?;
    let played = play_cuts(alloc, &mut desk);
    let mut connection = desk.into_connection();
    played?;
    find(&mut connection, TWO)?;
    Ok(())
}

#[test]
fn a_stream_may_be_cut_anywhere(rt: HostRuntime) -> Result<(), Fail> {
    play_cuts_over(rt.alloc(), Connection::open_in_memory(rt.alloc())?)
}
