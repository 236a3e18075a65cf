//! Memory that is refused: what is answered, what the tables keep, and that the same request is made when it is asked again.
//!
//! A request for `ARM` bytes and `n` more is beyond any machine, so it is refused. An allocator that listens takes it for: refuse the nth
//! request from here on. It grants the `ASK` bytes where that request came, as no other does. So with the system's allocator each
//! row runs undisturbed, and under `tools/checks/memory/refuse_each_in_tests.py` once for each request for memory that it makes.

use desk::Desk;
use office_model::Refusal;
use sqlite::{Alter, Connection};
use std::alloc::{AllocError, Global};
use std::rt::HostRuntime;
use std::test::Fail;
use testing::judged::holds;
use testing::kept::{keeps, kept_by};
use testing::offices::play_rows;
use testing::opened::desk_over;
use testing::played::{Outcome, answer_of, asked, messages_of, play_lines, served, whole};
use web::StreamFault;

const ARM: usize = 0x3000_0000_0000;

const ASK: usize = 0x3100_0000_0000;

/// Asks for the nth request for memory from here on to be refused.
fn arm(alloc: Global, n: u32) {
    let _ = Vec::<u8>::with_capacity(alloc, ARM + n as usize);
}

/// Whether that request came.
fn is_hit(alloc: Global) -> bool {
    Vec::<u8>::with_capacity(alloc, ASK).is_ok()
}

/// How a request is refused as out of memory.
const MEMORY: &str = r#"||503 Service Unavailable | {"fault":"Memory","number":1}"#;

/// What is played first; requests that come as one stream; what is read while none of them was made; and when all were.
type Row = (&'static str, &'static str, &'static str, &'static str);

/// Twenty pairs of students with lists in an open round, by five requests.
#[rattlefmt::skip]
const TWENTY: &str =
    r#"POST /imports/supervisors/I1 | code,name,quota^nL,Lee,500^n | 200 OK | {"rows":1}
       fill 20 | X$,Pumps,L,1^nV$,Pumps,L,1^nU$,Pumps,L,1^n | POST /imports/projects/I2 | code,name,supervisor,quota^nY,Yards,L,0^nZ,Zinc,L,0^n$ | 200 OK | {"rows":62}
       fill 20 | A$,Ann^nC$,Cy^n | POST /imports/students/I3 | code,name^n$ | 200 OK | {"rows":40}
       POST /rounds || 200 OK | {"round":1}
       fill 20 | A$,X$ V$^nC$,Z X$ Y U$^n | POST /imports/lists/I4 | student,choices^n$ | 200 OK | {"rows":40}"#;

/// A student and twelve projects in an open round.
#[rattlefmt::skip]
const TWELVE: &str =
    r#"POST /imports/supervisors/I1 | code,name,quota^nL,Lee,500^n | 200 OK | {"rows":1}
       fill 12 | X$,Pumps,L,1^n | POST /imports/projects/I2 | code,name,supervisor,quota^n$ | 200 OK | {"rows":12}
       PUT /students/A | {"name":"Ann"} | 200 OK | {"ok":true}
       POST /rounds || 200 OK | {"round":1}"#;

/// A preview of the school, which starts a session where there is none.
const PREVIEW: &str = r#"GET /preview || 200 OK | {"profile":[0,2,0,0^,],"size":2}"#;

/// The school whose session was started.
#[rattlefmt::skip]
const PREVIEWED: &str =
    r#"play SCHOOL LISTED
       GET /preview || 200 OK | {"profile":[0,2,0,0^,],"size":2}"#;

#[rattlefmt::skip]
static ROWS: [Row; 9] = [
    ("",
     r#"POST /imports/students/I1 | code,name^nS1,Ann^nS2,Bob^n | 200 OK | {"rows":2}"#,
     r#"GET /students/S2 || 404 Not Found | {"fault":"UnknownStudent","number":15}"#,
     r#"GET /students/S2 || 200 OK | {"list":null,"name":"Bob","placed":null}"#),
    ("",
     r#"PUT /students/S1 | {"name":"Ann"} | 200 OK | {"ok":true}
        PUT /students/S2 | {"name":"Bob"} | 200 OK | {"ok":true}
        GET /students/S1 || 200 OK | {"list":null,"name":"Ann","placed":null}
        GET /students/S2 || 200 OK | {"list":null,"name":"Bob","placed":null}"#,
     r#"GET /students/S1 || 404 Not Found | {"fault":"UnknownStudent","number":15}
        GET /students/S2 || 404 Not Found | {"fault":"UnknownStudent","number":15}"#,
     r#"GET /students/S1 || 200 OK | {"list":null,"name":"Ann","placed":null}
        GET /students/S2 || 200 OK | {"list":null,"name":"Bob","placed":null}"#),
    ("",
     r#"POST /rounds | {"aim":"generous"} | 200 OK | {"round":1}"#,
     r#"GET /rounds/1 || 404 Not Found | {"fault":"UnknownRound","number":26}"#,
     r#"GET /rounds/1 || 200 OK | {"aim":"generous","open":true,"placed":0,"profile":[0,0,0,0^,],"round":1,"students":0}"#),
    (TWELVE,
     r#"POST /imports/lists/I3 | student,choices^nA,X1000 X1001 X1002 X1003 X1004 X1005 X1006 X1007 X1008 X1009 X1010 X1011^n | 200 OK | {"rows":1}"#,
     r#"GET /students/A || 200 OK | {"list":null,"name":"Ann","placed":null}"#,
     r#"GET /students/A || 200 OK | {"list":["X1000","X1001","X1002","X1003","X1004","X1005","X1006","X1007","X1008","X1009","X1010","X1011"],"name":"Ann","placed":null}"#),
    ("play SCHOOL LISTED", PREVIEW, "", PREVIEW),
    (PREVIEWED, PREVIEW, PREVIEW, PREVIEW),
    (PREVIEWED,
     r#"PUT /lists/B | {"choices":["Z","Q"]} | 200 OK | {"ok":true}"#,
     r#"GET /preview || 200 OK | {"profile":[0,2,0,0^,],"size":2}
        GET /students/B || 200 OK | {"list":null,"name":"Bob","placed":null}"#,
     r#"GET /preview || 200 OK | {"profile":[1,1,0,0^,],"size":2}
        GET /students/B || 200 OK | {"list":["Z","Q"],"name":"Bob","placed":null}"#),
    (TWENTY, r#"GET /preview || 200 OK | {"profile":[20,0,0,20^,],"size":40}"#, "", ""),
    (TWENTY,
     r#"POST /rounds/close || 200 OK | {"profile":[20,0,0,20^,],"round":1,"size":40}"#,
     r#"GET /rounds/1 || 200 OK | {"aim":"greedy","open":true,"placed":0,"profile":[0,0,0,0^,],"round":1,"students":40}
        GET /preview || 200 OK | {"profile":[20,0,0,20^,],"size":40}"#,
     r#"GET /rounds/1 || 200 OK | {"aim":"greedy","open":false,"placed":40,"profile":[20,0,0,20^,],"round":1,"students":40}"#),
];

/// What may come of a row: what is written, and what the tables then keep.
#[derive(Drop)]
struct Allowed {
    written: Vec<u8>,
    kept: String,
}

/// Returns the desk over a database at which these rows were played.
fn desk_of<S: Alter + Drop>(
    alloc: Global,
    connection: Connection<S>,
    rows: &str,
) -> Result<Desk<S>, Fail> {
    let mut desk = desk_over(alloc, connection)?;
    play_rows(alloc, &mut desk, "", rows)?;
    Ok(desk)
}

/// Returns what is written when these requests are asked, but those that have a bit in `refused`, which are refused as out of memory.
fn written_without<S: Alter>(
    alloc: Global,
    desk: &mut Desk<S>,
    lines: &str,
    refused: u32,
) -> Result<Vec<u8>, AllocError> {
    let mut written = Vec::new(alloc);
    let mut bit = 1;
    for line in lines.lines() {
        let answer = if refused & bit == 0 {
            asked(alloc, desk, line)?
        } else {
            answer_of(alloc, MEMORY)?
        };
        written.extend_from_slice(&answer)?;
        bit = bit.wrapping_mul(2);
    }
    Ok(written)
}

/// Returns what comes of a row where these requests are refused, so as if they were not asked.
fn played_without<S: Alter + Drop>(
    alloc: Global,
    connection: Connection<S>,
    row: Row,
    refused: u32,
) -> Result<Allowed, Fail> {
    let mut desk = desk_of(alloc, connection, row.0)?;
    let written = written_without(alloc, &mut desk, row.1, refused);
    let kept = kept_by(alloc, &mut desk.into_connection())?;
    Ok(Allowed {
        written: written?,
        kept,
    })
}

/// Returns what may come of a row: first where nothing is refused, last where each request is.
fn all_allowed(alloc: Global, row: Row) -> Result<Vec<Allowed>, Fail> {
    let mut count = 1u32;
    for _line in row.1.lines() {
        count = count.wrapping_mul(2);
    }
    let mut all = Vec::new(alloc);
    for refused in 0..count {
        let connection = Connection::open_in_memory(alloc)?;
        all.push(played_without(alloc, connection, row, refused)?)?;
    }
    Ok(all)
}

/// Asks the requests of a row with the nth request for memory refused. What came of them, and whether it was refused.
fn refused<S: Alter>(
    alloc: Global,
    desk: &mut Desk<S>,
    row: Row,
    n: u32,
) -> Result<(Outcome, bool), AllocError> {
    let bytes = messages_of(alloc, row.1)?;
    let taken = Vec::with_capacity(alloc, 10_000)?;
    arm(alloc, n);
    let got = served(alloc, desk, whole(&bytes), taken, (10_000, None));
    let is_hit = is_hit(alloc);
    Ok((got, is_hit))
}

/// Whether this may come of a row. A stream that breaks off where memory runs out has asked nothing yet.
fn is_allowed(all: &[Allowed], got: &Outcome, kept: &str) -> bool {
    match got.result {
        Ok(_) => {
            for it in all {
                if it.written.as_slice() == got.written.as_slice() && it.kept.as_str() == kept {
                    return true;
                }
            }
            false
        }
        Err(StreamFault::Memory) => match all.last() {
            Some(none) => got.written.is_empty() && none.kept.as_str() == kept,
            None => false,
        },
        Err(_) => false,
    }
}

/// Runs a row, and looks at its tables. Whether the nth request for memory came.
fn run<S: Alter + Drop>(
    alloc: Global,
    connection: Connection<S>,
    row: Row,
    all: &[Allowed],
    n: u32,
) -> Result<bool, Fail> {
    let mut desk = desk_of(alloc, connection, row.0)?;
    let got = refused(alloc, &mut desk, row, n);
    let kept = kept_by(alloc, &mut desk.into_connection())?;
    let (got, is_hit) = got?;
    holds(is_allowed(all, &got, &kept), row.1)?;
    Ok(is_hit)
}

/// Asks the requests of a row, and once more where one was refused: then they are made.
fn ask_again<S: Alter>(
    alloc: Global,
    desk: &mut Desk<S>,
    row: Row,
    (made, none): (&Allowed, &Allowed),
    n: u32,
) -> Result<(), Fail> {
    let (mut got, _is_hit) = refused(alloc, desk, row, n)?;
    if got.written.is_empty() || got.written.as_slice() == none.written.as_slice() {
        play_lines(alloc, desk, row.2)?;
    }
    if got.written.as_slice() != made.written.as_slice() {
        got = refused(alloc, desk, row, 0)?.0;
    }
    holds(got.written.as_slice() == made.written.as_slice(), row.1)?;
    play_lines(alloc, desk, row.3)?;
    Ok(())
}

/// Does the same at a desk of its own, whose tables keep what they do where nothing is refused.
fn run_again<S: Alter + Drop>(
    alloc: Global,
    connection: Connection<S>,
    row: Row,
    (made, none): (&Allowed, &Allowed),
    n: u32,
) -> Result<(), Fail> {
    let mut desk = desk_of(alloc, connection, row.0)?;
    let asked = ask_again(alloc, &mut desk, row, (made, none), n);
    let mut connection = desk.into_connection();
    asked?;
    let is_kept = keeps(alloc, &mut connection, &made.kept)?;
    holds(is_kept, row.1)
}

/// Does both, where all of these may come of the row. Whether the nth request for memory came.
fn run_twice(alloc: Global, row: Row, all: &[Allowed], n: u32) -> Result<bool, Fail> {
    let (Some(made), Some(none)) = (all.first(), all.last()) else {
        return Err(Fail::new("nothing is allowed"));
    };
    let is_hit = run(alloc, Connection::open_in_memory(alloc)?, row, all, n)?;
    let connection = Connection::open_in_memory(alloc)?;
    run_again(alloc, connection, row, (made, none), n)?;
    Ok(is_hit)
}

/// Filled tables as they are, and what makes them tables of the second edition, and of the first.
#[rattlefmt::skip]
static EDITIONS: [&str; 3] = [
    "",
    "INSERT INTO choice SELECT * FROM choice12; INSERT INTO placement SELECT * FROM placement12; DROP TABLE choice12; DROP TABLE placement12; UPDATE edition SET number = 2;",
    "INSERT INTO choice SELECT * FROM choice12; INSERT INTO placement SELECT * FROM placement12; DROP TABLE choice12; DROP TABLE placement12; DROP TABLE round_aim; UPDATE edition SET number = 1;",
];

/// Opens a desk over tables with the nth request for memory refused: it is opened, or refused and the tables stay. Whether that request
/// came.
fn open_once<S: Alter + Drop>(
    alloc: Global,
    mut connection: Connection<S>,
    n: u32,
) -> Result<(Connection<S>, bool), Fail> {
    let kept = kept_by(alloc, &mut connection)?;
    arm(alloc, n);
    let opened = Desk::open(alloc, connection);
    let is_hit = is_hit(alloc);
    match opened {
        Ok(desk) => Ok((desk.into_connection(), is_hit)),
        Err((refusal, mut connection)) => {
            let is_left = keeps(alloc, &mut connection, &kept)?;
            let is_memory = refusal == Refusal::Memory;
            holds(is_memory && is_left, "an opening without memory")?;
            Ok((connection, is_hit))
        }
    }
}

/// Does the same over filled tables, with those of an edition made of them; then a desk is opened over them. Whether that request came.
fn open<S: Alter + Drop>(
    alloc: Global,
    connection: Connection<S>,
    edition: &str,
    n: u32,
) -> Result<bool, Fail> {
    let mut connection = desk_of(alloc, connection, TWENTY)?.into_connection();
    let kept = kept_by(alloc, &mut connection)?;
    connection.execute_batch(edition)?;
    let (connection, is_hit) = open_once(alloc, connection, n)?;
    let mut connection = desk_over(alloc, connection)?.into_connection();
    holds(keeps(alloc, &mut connection, &kept)?, "filled tables")?;
    Ok(is_hit)
}

/// What an allocation fails in.
#[derive(Clone, Copy)]
enum Trial<'a> {
    /// The requests of a row, and what may come of it.
    Asked(Row, &'a [Allowed]),
    /// The opening of a desk over filled tables of an edition.
    Opened(&'a str),
}

/// Does it with each request for memory refused, one after another.
fn sweep(alloc: Global, trial: Trial) -> Result<(), Fail> {
    for n in 1..1_000_000 {
        let is_hit = match trial {
            Trial::Asked(row, all) => run_twice(alloc, row, all, n)?,
            Trial::Opened(edition) => open(alloc, Connection::open_in_memory(alloc)?, edition, n)?,
        };
        if !is_hit {
            return Ok(());
        }
    }
    Err(Fail::new("the requests for memory have no end"))
}

#[test]
fn what_is_refused_memory_is_made_when_it_is_asked_again(rt: HostRuntime) -> Result<(), Fail> {
    for row in ROWS.as_slice() {
        let all = all_allowed(rt.alloc(), *row)?;
        sweep(rt.alloc(), Trial::Asked(*row, &all))?;
    }
    Ok(())
}

#[test]
fn a_desk_is_opened_or_refused_as_out_of_memory(rt: HostRuntime) -> Result<(), Fail> {
    for edition in EDITIONS.as_slice() {
        sweep(rt.alloc(), Trial::Opened(edition))?;
    }
    Ok(())
}
