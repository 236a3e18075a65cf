//! The whole program in worlds in memory: what each command prints, and what those are answered who call it meanwhile.
//!
//! `docs/TESTS.md` says how worlds are written. From one command to the next the database file alone is kept, without its log.

use crate::files::file_of;
use crate::in_memory::{InMemory, Named, Noted, reader};
use cli::{Outputs, run_program};
use sqlite::Files;
use sqlite_disk::{Disk, Memory};
use std::alloc::Global;
use std::cell::RefCell;
use std::rt::HostRuntime;
use std::test::Fail;
use testing::cells::{body_of, first_cell};
use testing::offices::{exchanged, plain};
use testing::played::otherwise;
use web::Watched;

/// What worlds play by name.
#[rattlefmt::skip]
static TEXTS: &str =
    r#"ROUND: a round that nobody lists in
POST /rounds | | 200 OK | {"round":$}
POST /rounds/close | | 200 OK | {"profile":[0,0,0,0^,],"round":$,"size":0}
-- ABSENT: a read of a round that there is not
GET /rounds/9 | | 404 Not Found | {"fault":"UnknownRound","number":26}"#;

#[rattlefmt::skip]
static WORLDS: &str =
    r#"
== Fourteen who call, the second of whom previews; each serving leaves the whole database in its file
= spadesk serve office.db 7 1 | 0 | listening 7^n | new office.db^n
-- 7 answers, closed
play SCHOOL
= spadesk serve office.db 7 14 | 0 | listening 7^n |
-- 3 answers, closed
play LISTED
-- GET /preview | | 200 OK | {"profile":[0,2,0,0^,],"size":2}
-- GET /rounds/1 | | 200 OK | {"aim":"greedy","open":true,"placed":0,"profile":[0,0,0,0^,],"round":1,"students":2}
-- 0 answers, closed

-- 2 answers, closed
PUT /students/S1 | {"name":"Ann"} | 200 OK | {"ok":true}
PUT /students/S2 | {"name":"Bob"} | 200 OK | {"ok":true}
-- GET /students/S1 | | 200 OK | {"list":null,"name":"Ann","placed":null}
-- PUT /lists/B | {"choices":["Z"]} | 200 OK | {"ok":true}
-- DELETE /lists/A | | 200 OK | {"ok":true}
-- GET /preview | | 200 OK | {"profile":[0,1,0,0^,],"size":1}
-- open 100 answers, hundred
each 1 | 100 | ABSENT
raw GET /rounds/9 HTTP/1.1^r^n^r^n
-- open 1 answers, bad-head
raw GET /rounds/1 HTTP/1.0^r^n^r^n | | 400 Bad Request | {"fault":"BadHead","number":3}
-- open 1 answers, too-large
raw PUT /students/S1 HTTP/1.1^r^nContent-Length: 65537^r^n^r^n | | 413 Payload Too Large | {"fault":"TooLarge","number":4}
-- open read fault
PUT /students/S3 | {"name":"Cy"} | 200 OK | {"ok":true}
-- POST /rounds/close | | 200 OK | {"profile":[0,1,0,0^,],"round":1,"size":1}
= spadesk serve office.db 7 2 | 0 | listening 7^n |
-- 2 answers, closed
GET /rounds/1 | | 200 OK | {"aim":"greedy","open":false,"placed":1,"profile":[0,1,0,0^,],"round":1,"students":2}
GET /students/C | | 200 OK | {"list":null,"name":"Cy","placed":{"project":"P","rank":2,"round":1}}
-- read fault

= spadesk report office.db placements 1 | 0 | C                P                 2^n |
= spadesk report office.db unplaced 1 | 0 | B                Bob^n |
= spadesk report office.db loads 1 | 0 | L                     1    5^n  P                   1    1^n  Q                   0    1^n  Z                   0    0^n |
= spadesk open-round office.db | 0 | round 2^n |
= spadesk report office.db unplaced 2 | 0 | |
== The text of round 12
= spadesk serve office.db 7 1 | 0 | listening 7^n | new office.db^n
-- 33 answers, closed
play SCHOOL
each 1 | 11 | ROUND
POST /rounds | | 200 OK | {"round":12}
PUT /lists/A | {"choices":["P","Q"]} | 200 OK | {"ok":true}
PUT /lists/C | {"choices":["Z","P"]} | 200 OK | {"ok":true}
GET /roundtext | | 200 OK | S,L,5^nP,P,L,1^nP,Q,L,1^nP,Z,L,0^nC,A,P,Q^nC,C,Z,P^n
= spadesk close-round office.db | 0 | round 12 size 2 profile 0 2 0 0^0^n |
= spadesk open-round office.db | 1 | | refused 21: RoundsFull^n
== Names of 200 bytes, and an import's id of 16
fill 196 | a | $.csv | code,name^nA,Ann^n
other.csv | code,name^nA,Ann^nB,Bob^n
= fill 196 | a | spadesk import $b.db students ABCDEFGHIJKLMNOP $.csv | 0 | rows 1^n | new $b.db^n
= fill 196 | a | spadesk import $b.db students ABCDEFGHIJKLMNOP other.csv | 1 | | refused 27: ImportIdUsed^n
= fill 196 | a | spadesk import $b.db students ABCDEFGHIJKLMNOQ other.csv | 0 | rows 2^n |
= fill 196 | a | spadesk import $b.db students ABCDEFGHIJKLMNOPQ other.csv | 1 | | refused 9: Code^n
== A port that is taken, a file that is not read, and words that are none
torn.csv | code,name^nA,Ann^n
= spadesk serve no-such-folder/taken.db 8 1 | 1 | | refused 2: Storage^n
= spadesk serve taken.db 8 1 | 1 | | new taken.db^nno port 8^n
= spadesk import taken.db students I1 no-such.csv | 1 | | refused 2: Storage^n
= spadesk import taken.db students I1 torn.csv | 1 | | refused 2: Storage^n
= spadesk open-round taken.db greedy 2 | 2 | | error: unexpected argument '2' found^n^nUsage: spadesk open-round <DATABASE> [AIM]^n^nFor more information, try '--help'.^n
= spadesk open-round taken.db greedy | 0 | round 1^n |
= memory | 1 | | refused 1: Memory^n
= not-utf8 | 2 | | error: invalid UTF-8 was detected in one or more arguments^n^nUsage: spadesk <COMMAND>^n^nFor more information, try '--help'.^n
= spadesk | 0 | |
POST /rounds | | 200 OK | {"round":1}
raw PUT /students/S1 HTTP/1.1^r^nContent-Length: 14^r^n^r^n{
== A result, a failed check, help, a fault of the line, a bad line, a refusal and a new database, none of which can be printed
round.txt | S,L,5^nP,P,L,1^nP,Q,L,1^nP,Z,L,0^nC,A,P,Q^nC,C,Z,P^n
short.txt | S,L,5^n
bad.txt | S,L,05^n
= shut spadesk solve round.txt | 1 | |
= shut spadesk check short.txt | 1 | |
= shut spadesk --help | 1 | |
= shut spadesk solve | 1 | |
= shut spadesk check bad.txt | 1 | |
= shut spadesk check no-such.txt | 1 | |
= shut spadesk open-round new.db | 1 | |
= shut not-utf8 | 1 | |
= shut spadesk | 1 | |
raw POST /rounds HTTP/1.1^r^n^r^n
= spadesk check bad.txt | 1 | | bad line 1^n
= spadesk open-round new.db | 0 | round 1^n | new new.db^n
== A file of 60,000 bytes
supervisors.csv | code,name,quota^nL,Lee,500^n
fill 12 | PROJECT-CODE$,Pumps,L,1^n | projects.csv | code,name,supervisor,quota^n$
students.csv | code,name^nSTUDENT-CODE1000,Ann^nSTUDENT-CODE1001,Ann^nSTUDENT-CODE1002,Ann^nSTUDENT-CODE1003,Ann^nSTUDENT-CODE1004,Ann^nSTUDENT-CODE1005,Ann^nCLAIR,Bob^nLAST,Cy^n
fill 100 | ^n^n^n^n^n^n^n^n^n^n^n^n^n^n^n^n^n^n^n^n^n^n^n^n^n^n^n^n^n^n^n^n^n^n^n^n^n^n^n^n^n^n^n^n^n^n^n^n^n^n^n^n^n^n^n^n^n^n^n^n^n^n^n^n^n^n^n^n^n^n^n^n^n^n^n^n^n^n^n^n^n^n^n^n^n^n^n^n^n^n^n^n^n^n^n^n^n^n^n | lists.csv | student,choices^nSTUDENT-CODE1000,PROJECT-CODE1000 PROJECT-CODE1001 PROJECT-CODE1002 PROJECT-CODE1003^n$STUDENT-CODE1001,PROJECT-CODE1001 PROJECT-CODE1002 PROJECT-CODE1003 PROJECT-CODE1004^n$STUDENT-CODE1002,PROJECT-CODE1002 PROJECT-CODE1003 PROJECT-CODE1004 PROJECT-CODE1005^n$STUDENT-CODE1003,PROJECT-CODE1003 PROJECT-CODE1004 PROJECT-CODE1005 PROJECT-CODE1006^n$STUDENT-CODE1004,PROJECT-CODE1004 PROJECT-CODE1005 PROJECT-CODE1006 PROJECT-CODE1007^n$STUDENT-CODE1005,PROJECT-CODE1005 PROJECT-CODE1006 PROJECT-CODE1007 PROJECT-CODE1008^n$CLAIR,PROJECT-CODE1011 PROJECT-CODE1010 PROJECT-CODE1009 PROJECT-CODE1008^n
= spadesk import school.db supervisors I1 supervisors.csv | 0 | rows 1^n | new school.db^n
= spadesk import school.db projects I2 projects.csv | 0 | rows 12^n |
= spadesk import school.db students I3 students.csv | 0 | rows 8^n |
= spadesk open-round school.db | 0 | round 1^n |
= spadesk import school.db lists I4 lists.csv | 0 | rows 7^n |
= spadesk report school.db missing 1 | 0 | LAST             Cy^n |
== Standard input of 100,000 bytes
= spadesk | 0 | |
fill 100 | ^n^n^n^n^n^n^n^n^n^n^n^n^n^n^n^n^n^n^n^n^n^n^n^n^n^n^n^n^n^n^n^n^n^n^n^n^n^n^n^n^n^n^n^n^n^n^n^n^n^n^n^n^n^n^n^n^n^n^n^n^n^n^n^n^n^n^n^n^n^n^n^n^n^n^n^n^n^n^n^n^n^n^n^n^n^n^n^n^n^n^n^n^n^n^n^n^n^n^n | POST /imports/students/I1 | code,name^nA,Ann^n$B,Bob^n$$$$C,Cy^n | 200 OK | {"rows":3}
fill 100 | ^n^n^n^n^n^n^n^n^n^n^n^n^n^n^n^n^n^n^n^n^n^n^n^n^n^n^n^n^n^n^n^n^n^n^n^n^n^n^n^n^n^n^n^n^n^n^n^n^n^n^n^n^n^n^n^n^n^n^n^n^n^n^n^n^n^n^n^n^n^n^n^n^n^n^n^n^n^n^n^n^n^n^n^n^n^n^n^n^n^n^n^n^n^n^n^n^n^n^n | POST /imports/students/I2 | code,name^nD,Di^n$$$E,Eve^n$$F,Fay^n | 200 OK | {"rows":3}
PUT /students/D | {"name":"Hubert Blaine Hubert Blaine Hubert Blaine Hubert Blaine Hubert Blaine Hubert Blaine Hubert Blaine Hubert Blaine Hubert Blaine Hubert Blaine Hubert Blaine Hubert Blaine Hubert Blaine Hubert Blaine Hubx"} | 200 OK | {"ok":true}
PUT /students/D | {"name":"Hubert Blaine Hubert Blaine Hubert Blaine Hubert Blaine Hubert Blaine Hubert Blaine Hubert Blaine Hubert Blaine Hubert Blaine Hubert Blaine Hubert Blaine Hubert Blaine Hubert Blaine Hubert Blaine Hubx"} | 200 OK | {"ok":true}
PUT /students/E | {"name":"Hubert Blaine Hubert Blaine Hubert Blaine Hubert Blaine Hubert Blaine Hubert Blaine Hubert Blaine Hubert Blaine Hubert Blaine Hubert Blaine Hubert Bla"} | 200 OK | {"ok":true}
GET /students/C | | 200 OK | {"list":null,"name":"Cy","placed":null}
GET /students/F | | 200 OK | {"list":null,"name":"Fay","placed":null}"#;

/// Returns the standard input of a command and then what those send who call it, and what is written on standard output and to them, and,
/// after a zero, on standard error.
fn given(
    alloc: Global,
    text: &str,
    (out, err): (&str, &str),
) -> Result<(Vec<Named>, Vec<u8>), Fail> {
    let mut sent = Vec::new(alloc);
    let mut written = body_of(alloc, out)?;
    for call in text.split("\n-- ") {
        let alone = match sent.len() {
            0 => ("", ""),
            _ => ("1 answers, closed", call),
        };
        let (told, rows) = call.split_once('\n').unwrap_or(alone);
        let line = told.strip_prefix("open ").unwrap_or(told);
        let (bytes, answers) = exchanged(alloc, TEXTS, rows)?;
        written.extend_from_slice(&answers)?;
        if !sent.is_empty() {
            let line = format!(in alloc; "connection {}: {line}\n", sent.len())?;
            written.extend_from_slice(line.as_bytes())?;
        }
        if told != "read fault" {
            sent.push((String::new(alloc), bytes, line != told))?;
        }
    }
    written.push(0)?;
    written.extend_from_slice(&body_of(alloc, err)?)?;
    Ok((sent, written))
}

/// Does a command in a world, with standard input and writers that may be shut. Its status, and the files of the database, where one was
/// opened and is closed.
fn run<D: Disk + Drop>(
    alloc: Global,
    world: InMemory<'_, D>,
    input: &Named,
    (out, err): (&RefCell<Vec<u8>>, &RefCell<Vec<u8>>),
    is_shut: bool,
) -> (u8, Option<Files<D>>) {
    let mut input = Watched::new(reader(input));
    let out = Watched::new(Noted(out, is_shut));
    let mut outputs = Outputs::new(out, Watched::new(Noted(err, is_shut)));
    match run_program(alloc, world, &mut input, &mut outputs) {
        (status, Some(Ok(files))) => (status.number(), Some(files)),
        (status, Some(Err((_error, left)))) => {
            drop(left);
            (status.number(), None)
        }
        (status, None) => (status.number(), None),
    }
}

/// Does a command over a database file with these bytes, and compares what comes of it. The bytes of that file then.
fn do_step(alloc: Global, files: &[Named], bytes: Vec<u8>, text: &str) -> Result<Vec<u8>, Fail> {
    let head = plain(alloc, TEXTS, text.lines().next().unwrap_or(""))?;
    let (all, cells) = first_cell(&head);
    let (status, cells) = first_cell(cells);
    let (out, cells) = first_cell(cells);
    let (err, _none) = first_cell(cells);
    let (sent, want) = given(alloc, text, (out, err))?;
    let Some((input, callers)) = sent.split_first() else {
        return Err(Fail::new(text));
    };
    let written = RefCell::new(Vec::new(alloc));
    let told = RefCell::new(Vec::new(alloc));
    let words = all.strip_prefix("shut ").unwrap_or(all);
    let is_shut = words != all;
    let log = Memory::new(alloc);
    let db = file_of(alloc, &bytes)?;
    let world = InMemory {
        alloc,
        words,
        files,
        disks: Files { log, db },
        callers,
        answers: &written,
    };
    let (came, left) = run(alloc, world, input, (&written, &told), is_shut);
    let mut got = written.into_inner();
    got.push(0)?;
    got.extend_from_slice(&told.into_inner())?;
    if came != status.parse()? || got.as_slice() != want.as_slice() {
        let same = got.iter().zip(&want).take_while(|(it, to)| it == to);
        return Err(otherwise(text, got.split_at(same.count()).1));
    }
    match left {
        Some(files) => Ok(Vec::from_slice(alloc, files.db.bytes())?),
        None => Ok(bytes),
    }
}

/// Returns the files of a world.
fn files_of(alloc: Global, rows: &str) -> Result<Vec<Named>, Fail> {
    let mut files = Vec::new(alloc);
    for row in rows.lines().skip(1) {
        let row = plain(alloc, TEXTS, row)?;
        let (name, text) = first_cell(&row);
        let bytes = body_of(alloc, text.trim())?;
        let is_torn = name.starts_with("torn");
        files.push((String::from_str(alloc, name)?, bytes, is_torn))?;
    }
    Ok(files)
}

/// Does the commands of a world in order.
fn play_world(alloc: Global, world: &str) -> Result<(), Fail> {
    let mut steps = world.split("\n= ");
    let files = files_of(alloc, steps.next().unwrap_or(""))?;
    let mut bytes = Vec::new(alloc);
    for step in steps {
        bytes = do_step(alloc, &files, bytes, step)?;
    }
    Ok(())
}

#[test]
fn commands_print_what_they_do(rt: HostRuntime) -> Result<(), Fail> {
    for world in WORLDS.split("\n== ").skip(1) {
        play_world(rt.alloc(), world)?;
    }
    Ok(())
}
