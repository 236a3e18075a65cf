//! What is done at a database over files, one of which fails from some call on, and what stands in the files afterwards.
//!
//! One function holds the connection of the files. Whatever is done goes over any store.

ghost use Rattle.std.specs.Prelude.{IfOk, IsTrue};
ghost use Rattle.sqlite_disk.specs.Memory.{memory_is_usable};

use desk::Desk;
use office_model::Refusal;
use sqlite::{Alter, Connection, Files, Options};
use sqlite_disk::{Disk, Fuse, Memory};
use std::alloc::Global;
use std::test::Fail;
use testing::judged::holds;
use testing::kept::kept_by;
use testing::offices::play_over;
use testing::played::{answer_of, asked, play_lines};
use testing::school::{FIRST_EDITION, SECOND_EDITION};

/// What files hold before a row.
#[derive(Clone, Copy)]
pub(crate) enum Before {
    /// Nothing: the tables are made.
    Nothing,
    /// The school with its lists.
    Listed,
    /// Tables of the first edition, which are migrated.
    FirstEdition,
    /// Tables of the second edition, which are migrated.
    SecondEdition,
}

/// After how many pages of the log these are copied into the database file; what it holds; a request, or none where the database is
/// only opened, as it stands in its log; and a read as it is answered before the request.
pub(crate) type Row = (usize, Before, &'static str, &'static str);

/// How a database that fails refuses a request.
const REFUSED: &str = r#"||503 Service Unavailable | {"fault":"Storage","number":2}"#;

/// The bytes of a database file and of its log.
#[derive(Drop)]
pub(crate) struct Bytes {
    pub(crate) log: Vec<u8>,
    pub(crate) db: Vec<u8>,
}

/// What tables keep as they stand, and what they keep after lines at the desk over them.
#[derive(Drop)]
pub(crate) struct Kept {
    pub(crate) stood: String,
    pub(crate) after: String,
}

/// The calls that pass of a log and of a database file that do not fail.
pub(crate) const ALL: (u64, u64) = (u64::MAX, u64::MAX);

/// What is done at a database.
#[derive(Clone, Copy)]
pub(crate) enum Deed {
    /// It is filled.
    Fill(Before),
    /// Its tables are looked at, opened, and looked at once more after these lines.
    Keep(&'static str),
    /// The request of a row is asked, or it is asked just once.
    Ask(Row, bool),
}

/// What came of it: whether the request was made, and what the tables stored.
#[derive(Drop)]
pub(crate) struct Came {
    pub(crate) is_made: bool,
    kept: Option<Kept>,
}

impl Came {
    fn asked(is_made: bool) -> Self {
        Came {
            is_made,
            kept: None,
        }
    }
}

/// Returns a file in memory that holds these bytes.
pub(crate) fn file_of(alloc: Global, bytes: &[u8]) -> Result<Memory, Fail>
    ensures { IfOk result (λ file. IsTrue (memory_is_usable file)) }
{
    let mut file = Memory::new(alloc);
    file.write_at(0, bytes)?;
    file.sync()?;
    Ok(file)
}

/// Does it at the database of these bytes, whose log and whose file pass this many calls and then fail each. What came of it, unless the
/// database was not opened, and the files.
pub(crate) fn do_in(
    alloc: Global,
    bytes: &Bytes,
    (log, db): (u64, u64),
    frames: usize,
    deed: Deed,
) -> Result<(Option<Came>, Files<Fuse<Memory>>), Fail> {
    let files = Files {
        log: Fuse::new(file_of(alloc, &bytes.log)?, log),
        db: Fuse::new(file_of(alloc, &bytes.db)?, db),
    };
    do_with(alloc, files, frames, deed)
}

/// Does the same at the database of these files.
fn do_with<D: Disk + Drop>(
    alloc: Global,
    files: Files<D>,
    frames: usize,
    deed: Deed,
) -> Result<(Option<Came>, Files<D>), Fail>
    requires log { IsTrue (D.Disk.is_usable files.log) }
    requires db { IsTrue (D.Disk.is_usable files.db) }
{
    let mut options = Options::new(1);
    options.checkpoint_frames = frames;
    match Connection::open_files(alloc, files, options) {
        Ok(connection) => {
            let (came, connection) = do_over(alloc, connection, deed)?;
            Ok((Some(came), connection.into_store().close()))
        }
        Err((_error, left)) => Ok((None, left.into_files())),
    }
}

/// Does it at a database, which is handed back.
fn do_over<S: Alter + Drop>(
    alloc: Global,
    connection: Connection<S>,
    deed: Deed,
) -> Result<(Came, Connection<S>), Fail> {
    match deed {
        Deed::Fill(before) => {
            let connection = fill(alloc, connection, before)?;
            Ok((Came::asked(true), connection))
        }
        Deed::Keep(lines) => {
            let (kept, connection) = kept_after(alloc, connection, lines)?;
            let kept = Some(kept);
            Ok((
                Came {
                    is_made: true,
                    kept,
                },
                connection,
            ))
        }
        Deed::Ask(row, is_once) => {
            let (is_made, connection) = is_made_over(alloc, connection, row, is_once)?;
            Ok((Came::asked(is_made), connection))
        }
    }
}

/// Returns the bytes that stand in the files.
pub(crate) fn bytes_of(alloc: Global, files: &Files<Fuse<Memory>>) -> Result<Bytes, Fail> {
    let log = Vec::from_slice(alloc, files.log.inner().bytes())?;
    let db = Vec::from_slice(alloc, files.db.inner().bytes())?;
    Ok(Bytes { log, db })
}

/// Asks the request of a row once. Whether it was made; else it was refused.
fn is_made_once<S: Alter>(alloc: Global, desk: &mut Desk<S>, line: &str) -> Result<bool, Fail> {
    let answered = asked(alloc, desk, line)?;
    let is_made = answered.as_slice() == answer_of(alloc, line)?.as_slice();
    let is_refused = answered.as_slice() == answer_of(alloc, REFUSED)?.as_slice();
    holds(is_made || is_refused, line)?;
    Ok(is_made)
}

/// Asks the request of a row, if it has one, and once more where it was refused, which changed nothing. Where it is asked just once, what
/// is read then is asked after it was made. Whether it was made.
fn is_made<S: Alter>(
    alloc: Global,
    desk: &mut Desk<S>,
    row: Row,
    is_once: bool,
) -> Result<bool, Fail> {
    if row.2.is_empty() {
        return Ok(true);
    }
    let is_made = is_made_once(alloc, desk, row.2)?;
    if is_made == is_once {
        play_lines(alloc, desk, row.3)?;
    }
    if is_made || is_once {
        return Ok(is_made);
    }
    is_made_once(alloc, desk, row.2)
}

/// Does the same at the desk over a database, which is handed back.
fn is_made_over<S: Alter + Drop>(
    alloc: Global,
    connection: Connection<S>,
    row: Row,
    is_once: bool,
) -> Result<(bool, Connection<S>), Fail> {
    match Desk::open(alloc, connection) {
        Ok(mut desk) => {
            let is_made = is_made(alloc, &mut desk, row, is_once);
            let connection = desk.into_connection();
            Ok((is_made?, connection))
        }
        Err((refusal, connection)) => {
            holds(refusal == Refusal::Storage, row.2)?;
            Ok((false, connection))
        }
    }
}

/// Plays lines at the desk over a database. What its tables keep before and then.
fn kept_after<S: Alter + Drop>(
    alloc: Global,
    mut connection: Connection<S>,
    lines: &str,
) -> Result<(Kept, Connection<S>), Fail> {
    let stood = kept_by(alloc, &mut connection)?;
    let (_count, mut connection) = play_over(alloc, connection, "", lines)?;
    let after = kept_by(alloc, &mut connection)?;
    Ok((Kept { stood, after }, connection))
}

/// Does the same with the files that hold these bytes.
pub(crate) fn kept_in(alloc: Global, bytes: &Bytes, lines: &'static str) -> Result<Kept, Fail> {
    let (came, _files) = do_in(alloc, bytes, ALL, 1_000, Deed::Keep(lines))?;
    if let Some(came) = came {
        let Came { kept, .. } = came;
        if let Some(kept) = kept {
            return Ok(kept);
        }
    }
    Err(Fail::new("the files are no database"))
}

/// Fills a new database.
fn fill<S: Alter + Drop>(
    alloc: Global,
    mut connection: Connection<S>,
    before: Before,
) -> Result<Connection<S>, Fail> {
    match before {
        Before::Nothing => {}
        Before::Listed => {
            connection = play_over(alloc, connection, "", "play SCHOOL LISTED")?.1;
        }
        Before::FirstEdition => connection.execute_batch(FIRST_EDITION)?,
        Before::SecondEdition => {
            connection.execute_batch(FIRST_EDITION)?;
            connection.execute_batch(SECOND_EDITION)?;
        }
    }
    Ok(connection)
}

/// Returns the files of a database that was filled, where each change is copied into the database file at the next one, so that the log is
/// short, or all stand in the log.
pub(crate) fn filled(alloc: Global, before: Before, is_copied: bool) -> Result<Bytes, Fail> {
    let empty = empty(alloc);
    if matches!(before, Before::Nothing) {
        return Ok(empty);
    }
    let frames = if is_copied { 1 } else { 1_000 };
    let (came, files) = do_in(alloc, &empty, ALL, frames, Deed::Fill(before))?;
    holds(came.is_some(), "a new database")?;
    bytes_of(alloc, &files)
}

/// Files that hold nothing.
pub(crate) fn empty(alloc: Global) -> Bytes {
    Bytes {
        log: Vec::new(alloc),
        db: Vec::new(alloc),
    }
}
