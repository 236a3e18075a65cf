//! A database over files, one of which fails from some call on: what is answered, and what is found in the files afterwards.

use crate::files::{ALL, Before, Bytes, Deed, Kept, Row, bytes_of, do_in, empty, filled, kept_in};
use sqlite_disk::{Crash, Disk, Fuse, Memory};
use std::alloc::Global;
use std::rt::HostRuntime;
use std::test::Fail;
use testing::judged::holds;

#[rattlefmt::skip]
static ROWS: [Row; 10] = [
    (1_000, Before::Listed, "", ""),
    (1_000, Before::Nothing, "", ""),
    (1_000, Before::Listed,
     r#"POST /rounds/close || 200 OK | {"profile":[0,2,0,0^,],"round":1,"size":2}"#,
     r#"GET /rounds/1 || 200 OK | {"aim":"greedy","open":true,"placed":0,"profile":[0,0,0,0^,],"round":1,"students":2}"#),
    (1_000, Before::Listed,
     r#"POST /imports/students/I1 | code,name^nS1,Ann^nS2,Bob^n | 200 OK | {"rows":2}"#,
     r#"GET /students/S2 || 404 Not Found | {"fault":"UnknownStudent","number":15}"#),
    (1_000, Before::Listed,
     r#"PUT /lists/A | {"choices":["Q","P"]} | 200 OK | {"ok":true}"#,
     r#"GET /students/A || 200 OK | {"list":["P","Q"],"name":"Ann","placed":null}"#),
    (1_000, Before::Listed,
     r#"PUT /students/S1 | {"name":"Dan"} | 200 OK | {"ok":true}"#,
     r#"GET /students/S1 || 404 Not Found | {"fault":"UnknownStudent","number":15}"#),
    (1_000, Before::Nothing,
     r#"PUT /students/S1 | {"name":"Dan"} | 200 OK | {"ok":true}"#,
     r#"GET /students/S1 || 404 Not Found | {"fault":"UnknownStudent","number":15}"#),
    (1_000, Before::Nothing,
     r#"POST /rounds | {"aim":"generous"} | 200 OK | {"round":1}"#,
     r#"GET /rounds/1 || 404 Not Found | {"fault":"UnknownRound","number":26}"#),
    (1, Before::Listed,
     r#"POST /rounds/close || 200 OK | {"profile":[0,2,0,0^,],"round":1,"size":2}"#,
     r#"GET /rounds/1 || 200 OK | {"aim":"greedy","open":true,"placed":0,"profile":[0,0,0,0^,],"round":1,"students":2}"#),
    (1, Before::Nothing,
     r#"PUT /students/S1 | {"name":"Dan"} | 200 OK | {"ok":true}"#,
     r#"GET /students/S1 || 404 Not Found | {"fault":"UnknownStudent","number":15}"#),
];

/// The same of files of earlier editions, which are only opened.
#[rattlefmt::skip]
static MIGRATED_ROWS: [Row; 2] = [
    (1_000, Before::FirstEdition, "", ""),
    (1_000, Before::SecondEdition, "", ""),
];

/// The same of such files, over which a round closes.
#[rattlefmt::skip]
static CLOSED_ROWS: [Row; 2] = [
    (1, Before::FirstEdition,
     r#"POST /rounds/close || 200 OK | {"profile":[0,0,0,0^,],"round":2,"size":0}"#,
     r#"GET /rounds/2 || 200 OK | {"aim":"greedy","open":true,"placed":0,"profile":[0,0,0,0^,],"round":2,"students":1}"#),
    (1, Before::SecondEdition,
     r#"POST /rounds/close || 200 OK | {"profile":[0,0,0,0^,],"round":2,"size":0}"#,
     r#"GET /rounds/2 || 200 OK | {"aim":"generous","open":true,"placed":0,"profile":[0,0,0,0^,],"round":2,"students":1}"#),
];

/// The same of a file whose calls are all used up when Ann was put: she is read from the office, Bob is refused by the tables, and nobody
/// hears of him.
#[rattlefmt::skip]
const LAST_ROW: Row = (1_000, Before::Nothing,
    r#"PUT /students/S1 | {"name":"Ann"} | 200 OK                  | {"ok":true}"#,
    r#"GET /students/S1 |                | 200 OK                  | {"list":null,"name":"Ann","placed":null}
       PUT /students/S2 | {"name":"Bob"} | 503 Service Unavailable | {"fault":"Storage","number":2}
       GET /students/S2 |                | 404 Not Found           | {"fault":"UnknownStudent","number":15}"#);

/// Whether these are the same bytes.
fn are_same(bytes: &Bytes, other: &Bytes) -> bool {
    bytes.log.as_slice() == other.log.as_slice() && bytes.db.as_slice() == other.db.as_slice()
}

/// A database before a request, what its tables keep then and once they are opened, and what they keep after the request.
#[derive(Drop)]
struct Start {
    bytes: Bytes,
    old: Kept,
    new: String,
}

/// Whether calls of a file are left.
fn has_calls(file: &mut Fuse<Memory>) -> bool {
    file.may_be_used() && file.len().is_ok()
}

/// Whether tables may be left that keep this: what they keep after the request, or, where it was not made, what they kept before or once
/// they were opened. Opened anew they are the same office.
fn may_be_left(start: &Start, found: &Kept, is_made: bool) -> bool {
    if found.stood == start.new {
        return found.after == start.new;
    }
    let is_old = found.stood == start.old.stood || found.stood == start.old.after;
    !is_made && is_old && found.after == start.old.after
}

/// Finds that the files with these bytes are those of the office after the request, or, where it was not made, of that before.
fn find(alloc: Global, bytes: &Bytes, start: &Start, is_made: bool) -> Result<(), Fail> {
    let is_found = if are_same(bytes, &start.bytes) {
        // These were opened at the start.
        !is_made || start.old.stood == start.new
    } else {
        may_be_left(start, &kept_in(alloc, bytes, "")?, is_made)
    };
    holds(is_found, "the office of the files")
}

/// Asks the request of a row where the files pass this many calls; what came of it is found in them as they stand, and as a crash leaves
/// them. Whether calls are left. Files that are not opened are looked at in the rows without a request.
fn run(alloc: Global, start: &Start, row: Row, calls: (u64, u64)) -> Result<bool, Fail> {
    let (came, mut files) = do_in(alloc, &start.bytes, calls, row.0, Deed::Ask(row, false))?;
    let is_made = match came {
        Some(came) => came.is_made,
        None if !row.2.is_empty() => return Ok(false),
        None => false,
    };
    let are_left = has_calls(&mut files.log) && has_calls(&mut files.db);
    holds(is_made || !are_left, row.2)?;
    find(alloc, &bytes_of(alloc, &files)?, start, is_made)?;
    files.log.crash();
    files.db.crash();
    find(alloc, &bytes_of(alloc, &files)?, start, is_made)?;
    Ok(are_left)
}

/// Runs a row for each number of calls of the log, or of the database file, until calls are left.
fn sweep(alloc: Global, start: &Start, row: Row, is_log: bool) -> Result<(), Fail> {
    for calls in 0..10_000 {
        let calls = if is_log {
            (calls, u64::MAX)
        } else {
            (u64::MAX, calls)
        };
        if run(alloc, start, row, calls)? {
            return Ok(());
        }
    }
    holds(false, "the calls have no end")
}

/// Runs a row with a log that fails, and with a database file that fails.
fn sweep_both(alloc: Global, row: Row) -> Result<(), Fail> {
    let bytes = filled(alloc, row.1, !row.2.is_empty())?;
    let old = kept_in(alloc, &bytes, "")?;
    let new = kept_in(alloc, &bytes, row.2)?.after;
    holds((old.after == new) == row.2.is_empty(), row.2)?;
    let start = Start { bytes, old, new };
    sweep(alloc, &start, row, true)?;
    sweep(alloc, &start, row, false)
}

/// Does the same with each row.
fn sweep_rows(alloc: Global, rows: &[Row]) -> Result<(), Fail> {
    for row in rows {
        sweep_both(alloc, *row)?;
    }
    Ok(())
}

#[test]
fn what_is_asked_while_a_file_fails_is_made_or_refused(rt: HostRuntime) -> Result<(), Fail> {
    sweep_rows(rt.alloc(), ROWS.as_slice())
}

// The rows of earlier editions are tests of their own, since a test has a minute.

#[test]
fn failing_files_of_earlier_editions_are_migrated_or_stay(rt: HostRuntime) -> Result<(), Fail> {
    sweep_rows(rt.alloc(), MIGRATED_ROWS.as_slice())
}

#[test]
fn rounds_close_over_failing_files_of_earlier_editions(rt: HostRuntime) -> Result<(), Fail> {
    sweep_rows(rt.alloc(), CLOSED_ROWS.as_slice())
}

// The fewest calls with which the put of Ann is made leave none for what comes after.
#[test]
fn a_database_that_fails_after_a_put_still_answers(rt: HostRuntime) -> Result<(), Fail> {
    let bytes = empty(rt.alloc());
    for calls in 0..1_000 {
        let deed = Deed::Ask(LAST_ROW, true);
        let (came, _files) = do_in(rt.alloc(), &bytes, (calls, ALL.1), LAST_ROW.0, deed)?;
        if came.is_some_and(|came| came.is_made) {
            return Ok(());
        }
    }
    holds(false, "the put is made with enough calls")
}
