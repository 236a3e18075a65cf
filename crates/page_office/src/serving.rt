//! A stream served at the office of a database file that is in memory.

ghost use Rattle.std.specs.Prelude.{◌≡◌, [], IfOk, IfErr, IsTrue, true};
ghost use Rattle.sqlite.specs.Closing.{IsCopied};
ghost use Rattle.sqlite_disk.specs.Memory.{memory_bytes, memory_is_usable};
ghost use Rattle.sqlite_wal.specs.Reads.{AreClean};
ghost use Rattle.page_office.specs.Served.{IsDamagedFile, IsServedOver};
ghost use Rattle.page_office.specs.Inside.Between.{IsDamagedAt, IsDamagedIn, IsServedAt, IsServedBetween};

use desk::Desk;
use office_model::Refusal;
use sqlite::{Alter, Connection, Error, ErrorCode, FileStore, Files, Options};
use sqlite_disk::{Disk, Memory};
use std::alloc::{AllocError, Global};
use web::{Watched, serve_stream};

/// Returns a file in memory with these bytes.
fn file_of(alloc: Global, bytes: &[u8]) -> Result<Memory, AllocError>
    ensures bytes { IfOk result (λ file. memory_bytes file ≡ bytes.now) }
    ensures usable { IfOk result (λ file. IsTrue (memory_is_usable file)) }
{
    let mut file = Memory::new(alloc);
    match file.write_at(0, bytes) {
        Ok(()) => Ok(file),
        Err(_) => Err(AllocError),
    }
}

/// Serves a stream at the office of a database, and gives its connection back with the answers.
fn serve_at<S: Alter + Drop>(
    alloc: Global,
    connection: Connection<S>,
    stream: &[u8],
) -> Result<(Vec<u8>, Connection<S>), Refusal>
    ensures served { IfOk result (λ r. IsServedAt S.Store stream.now r.0.items connection r.1) }
    ensures damaged { IfErr result (λ refusal. refusal ≡ Refusal.Damaged → IsDamagedAt S.Store connection) }
{
    match Desk::open(alloc, connection) {
        Ok(mut desk) => {
            let mut reader = Watched::new(stream);
            let mut writer = Watched::new(Vec::new(alloc));
            let came = serve_stream(alloc, &mut desk, &mut reader, &mut writer);
            let connection = desk.into_connection();
            // So what the database shows is committed.
            prove!(connection.is_autocommit());
            match came {
                Ok(_) => Ok((writer.into_inner(), connection)),
                Err(_) => Err(Refusal::Memory),
            }
        }
        Err((refusal, _connection)) => Err(refusal),
    }
}

/// Closes a database file. Gives its files back, and whether its log is in it.
fn close<D: Disk + Drop>(connection: Connection<FileStore<D>>) -> (Files<D>, bool)
    ensures { result.1 ≡ true → AreClean D.Disk result.0.log result.0.db → IsCopied connection result.0 }
{
    match connection.close_files() {
        Ok(files) => (files, true),
        Err((_, store)) => (store.close(), false),
    }
}

/// Serves a stream at the office of a database file, and returns the answers and the file after them.
fn serve_files<D: Disk + Drop>(
    alloc: Global,
    files: Files<D>,
    stream: &[u8],
) -> Result<(Vec<u8>, Files<D>), Refusal>
    requires log { IsTrue (D.Disk.is_usable files.log) }
    requires db { IsTrue (D.Disk.is_usable files.db) }
    ensures served { IfOk result (λ r. IsServedBetween D.Disk files stream.now r.0.items r.1) }
    ensures damaged { IfErr result (λ refusal. refusal ≡ Refusal.Damaged → IsDamagedIn D.Disk files) }
{
    let connection = match Connection::open_files(alloc, files, Options::new(1)) {
        Ok(connection) => connection,
        Err((Error::SqliteFailure(ErrorCode::OutOfMemory), _)) => return Err(Refusal::Memory),
        Err(_) => return Err(Refusal::Storage),
    };
    match serve_at(alloc, connection, stream) {
        Ok((told, connection)) => {
            let (files, is_whole) = close(connection);
            if is_whole {
                Ok((told, files))
            } else {
                Err(Refusal::Storage)
            }
        }
        Err(refusal) => Err(refusal),
    }
}

/// Serves a stream at the office of the database file with these bytes, and returns the answers and the file after them.
pub(crate) fn serve_file(
    alloc: Global,
    file: &[u8],
    stream: &[u8],
) -> Result<(Vec<u8>, Files<Memory>), Refusal>
    ensures served { IfOk result (λ r. IsServedOver file.now stream.now r.0.items (memory_bytes r.1.db)) }
    ensures damaged { IfErr result (λ refusal. refusal ≡ Refusal.Damaged → IsDamagedFile file.now) }
{
    let Ok(db) = file_of(alloc, file) else {
        return Err(Refusal::Memory);
    };
    let files = Files {
        log: Memory::new(alloc),
        db,
    };
    serve_files(alloc, files, stream)
}
