//! A database file: it is opened by its name, and closed.

ghost use Rattle.std.specs.Prelude.{◌≡◌, ℕ, IfOk, IfErr, false};
ghost use Rattle.sqlite_wal.specs.Reads.{AreClean};
ghost use Rattle.sqlite_trees.specs.View.{IsClean};
ghost use Rattle.sqlite_store.specs.FileStore.{view};
ghost use Rattle.sqlite.specs.Files.{IsBlankAs, IsClosed, IsOpened, FailsToClose, file_state};
ghost use Rattle.sqlite.specs.Held.{IsNew};
ghost use Rattle.sqlite.specs.Start.{FindsIn};
ghost use Rattle.sqlite.specs.State.{HasCleanDisk};
ghost use Rattle.sqlite.specs.Closing.{IsCopied};
ghost use Rattle.host.specs.WorldState.{Within};
ghost use Rattle.cli.specs.Databases.{IsRefusalOf};

use host::World;
use office_model::Refusal;
use sqlite::{Connection, Error, ErrorCode, FileStore, Files};
use sqlite_disk::Disk;

/// What comes of closing a database file: its files, or why it is not closed, and what is left of it.
pub type Closing<D> = Result<Files<D>, (Error, FileStore<D>)>;

/// Returns the refusal of a database that cannot be opened.
fn refusal_of(error: Error) -> Refusal
    ensures memory { error ≡ Error.SqliteFailure ErrorCode.OutOfMemory → result ≡ Refusal.Memory }
    ensures storage { (error ≡ Error.SqliteFailure ErrorCode.OutOfMemory → ⊥) → result ≡ Refusal.Storage }
{
    match error {
        Error::SqliteFailure(ErrorCode::OutOfMemory) => Refusal::Memory,
        _ => Refusal::Storage,
    }
}

/// Opens the database file with this name; a file that is not there is made.
pub(crate) fn open_file<W: World>(
    world: W,
    database: &str,
) -> Result<(Connection<FileStore<W::File>>, W::Ports), Refusal>
    ensures found { IfOk result (λ c. HasCleanDisk (file_state c.0) → FindsIn ((W.state world).image database.now) (file_state c.0)) }
    ensures opened { IfOk result (λ c. HasCleanDisk (file_state c.0) → IsOpened c.0) }
    ensures plain { IfOk result (λ c. HasCleanDisk (file_state c.0) → IsBlankAs false ((W.state world).image database.now) → (view c.0.store).has_sums ≡ false) }
    ensures ports { IfOk result (λ c. (port : ℕ) → Within (W.Ports.state c.1 port) ((W.state world).ports port)) }
    ensures fresh { IfOk result (λ c. IsNew c.0) }
    ensures refused { IfErr result (λ r. (error : Error) × (W.state world).refuses database.now error × IsRefusalOf error r) }
{
    match world.open(database) {
        Ok(opened) => Ok(opened),
        Err(error) => Err(refusal_of(error)),
    }
}

/// Closes a database file: its log is copied into it.
pub(crate) fn close_file<D: Disk + Drop>(connection: Connection<FileStore<D>>) -> Closing<D>
    ensures closed { IfOk result (λ files. AreClean D.Disk files.log files.db → IsCopied connection files) }
    ensures failed { IfErr result (λ e. IsClosed connection e.1 × (IsClean (view e.1) → FailsToClose connection e.1 e.0)) }
{
    connection.close_files()
}
