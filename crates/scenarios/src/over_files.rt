//! What is done over a database file by no command: requests over HTTP at its desk, and SQL.
//!
//! They take any store but where a file is opened and closed: each function that holds the desk of a file by name is dear to prove.

use crate::row_files::compare;
use crate::texts::{matches_cell, numbered, range, written_out};
use crate::unplayed::Unplayed;
use desk::Desk;
use sqlite::{Alter, Connection, FileStore, Unknown};
use sqlite_disk::Disk;
use std::rt::HostRuntime;
use std::str;
use testing::cells::first_cell;
use testing::played::asked;

/// Whether a request was answered by this status and this body.
fn is_answer(rt: &HostRuntime, written: &[u8], status: &str, body: &str) -> Result<bool, Unplayed> {
    let (head, told) = str::from_utf8(written)?
        .split_once("\r\n\r\n")
        .unwrap_or(("", ""));
    let kind = if body.starts_with('{') {
        "application/json"
    } else {
        "text/plain; charset=utf-8"
    };
    let len = told.len();
    let want = format!(in rt.alloc();
        "HTTP/1.1 {status}\r\nContent-Type: {kind}\r\nContent-Length: {len}"
    )?;
    Ok(head == want.as_str() && matches_cell(rt.alloc(), told.as_bytes(), body)?)
}

/// Whether a session is cached, where a row says so or says that none is. Where it has a number, whether one is cached whose relaxations
/// are this number.
fn is_kept<S: Alter>(desk: &Desk<S>, mark: &str) -> bool {
    match mark {
        "" => true,
        "none" => desk.session_steps().is_none(),
        "kept" => desk.session_steps().is_some(),
        counted => desk
            .session_steps()
            .is_some_and(|steps| counted.parse() == Ok(steps)),
    }
}

/// Asks the request of a line, and compares the answer, and whether a session is cached then.
fn ask<S: Alter>(
    rt: &HostRuntime,
    desk: &mut Desk<S>,
    mark: &str,
    line: &str,
) -> Result<(), Unplayed> {
    let (_asked, rest) = first_cell(line);
    let (_body, rest) = first_cell(rest);
    let (status, body) = first_cell(rest);
    let written = asked(rt.alloc(), desk, line)?;
    let is_well = is_answer(rt, &written, status, body.trim())?;
    compare(rt, line, is_well && is_kept(desk, mark), &written)
}

/// Asks the request of a row for each of its numbers.
fn ask_each<S: Alter>(rt: &HostRuntime, desk: &mut Desk<S>, row: &str) -> Result<u32, Unplayed> {
    let (counted, line) = first_cell(row);
    let (first, end, mark) = range(counted)?;
    for n in first..end {
        ask(rt, desk, mark, &numbered(rt.alloc(), line, n)?)?;
    }
    Ok(end.saturating_sub(first))
}

/// Asks the requests of all rows.
fn ask_all<S: Alter>(rt: &HostRuntime, desk: &mut Desk<S>, rows: &str) -> Result<u32, Unplayed> {
    let mut count = 0u32;
    for row in rows.lines() {
        let row = written_out(rt.alloc(), row)?;
        count = count.saturating_add(ask_each(rt, desk, &row)?);
    }
    Ok(count)
}

/// Asks them at the desk of a database, and gives its connection back.
fn ask_over<S: Alter + Drop>(
    rt: &HostRuntime,
    connection: Connection<S>,
    rows: &str,
) -> (Result<u32, Unplayed>, Connection<S>) {
    match Desk::open(rt.alloc(), connection) {
        Ok(mut desk) => {
            let asked = ask_all(rt, &mut desk, rows);
            (asked, desk.into_connection())
        }
        Err((_, connection)) => (Err(Unplayed), connection),
    }
}

/// What is done over a database file.
#[derive(Clone, Copy)]
pub(crate) enum Over {
    /// Requests are asked.
    Asked,
    /// SQL is done.
    Done,
}

/// Does this over a database.
fn do_over<S: Alter + Drop>(
    rt: &HostRuntime,
    mut connection: Connection<S>,
    over: Over,
    text: &str,
) -> (Result<u32, Unplayed>, Connection<S>) {
    match over {
        Over::Asked => ask_over(rt, connection, text),
        Over::Done => match connection.execute_batch(text) {
            Ok(()) => (Ok(0), connection),
            Err(_) => (Err(Unplayed), connection),
        },
    }
}

/// Does this over a database file, and closes it.
fn do_and_close<D: Disk + Drop>(
    rt: &HostRuntime,
    connection: Connection<FileStore<D>>,
    over: Over,
    text: &str,
) -> Result<u32, Unplayed> {
    let (count, connection) = do_over(rt, connection, over, text);
    match connection.close() {
        Ok(()) => count,
        Err(_) => Err(Unplayed),
    }
}

/// Does this over the database file with this name. The number of rows that were compared.
pub(crate) fn do_on(
    rt: &HostRuntime,
    database: &str,
    over: Over,
    text: &str,
) -> Result<u32, Unplayed> {
    match Connection::open_from(rt, database, false, Unknown) {
        Ok(connection) => do_and_close(rt, connection, over, text),
        Err(_) => Err(Unplayed),
    }
}
