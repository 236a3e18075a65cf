//! The request of an import of a file, and the asking of it at the office of a database.

ghost use Rattle.cli.specs.Outputs.{CanFail};
ghost use Rattle.cli.specs.Databases.{AskedAt};
ghost use Rattle.cli.specs.Imports.{IsImportOf, IsImportOfFile};

use crate::databases::perform_on_file;
use crate::files::read_file;
use crate::opening::Closing;
use crate::outputs::Outputs;
use crate::status::Status;
use crate::tasks::Task;
use host::World;
use office_model::{Bytes, ImportKind, MAX_IMPORT_BYTES, Refusal, Request, Text};
use std::alloc::Global;
use web::Sink;

/// Returns the request of an import of a file's bytes. An `Err` is `TooLarge` or `Memory`.
fn import(alloc: Global, kind: ImportKind, id: &str, bytes: Vec<u8>) -> Result<Request, Refusal>
    ensures { IsImportOf id.now kind bytes.items result }
{
    if bytes.len() > MAX_IMPORT_BYTES {
        return Err(Refusal::TooLarge);
    }
    Ok(Request::Import {
        id: Text::of(alloc, id)?,
        kind,
        bytes: Bytes::new(alloc, bytes)?,
    })
}

/// Returns the request of an import of a file, or why it is not made.
pub(crate) fn import_file<W: World>(
    alloc: Global,
    world: &W,
    kind: ImportKind,
    id: &str,
    file: &str,
) -> Result<Request, Refusal>
    ensures { IsImportOfFile ((W.state world.now).holds file.now) id.now kind result }
{
    let bytes = read_file(world, file, MAX_IMPORT_BYTES)?;
    import(alloc, kind, id, bytes)
}

/// Asks a request of the office of a database file, as `perform_on_file` does, or prints why it was not made.
pub(crate) fn ask_made<W: World, O: Sink, E: Sink>(
    alloc: Global,
    world: W,
    database: &str,
    made: Result<Request, Refusal>,
    outputs: &mut Outputs<O, E>,
) -> (Status, Option<Closing<W::File>>)
    requires { CanFail outputs.old }
    ensures { AskedAt (W.state world) database.now made result.1 outputs.old outputs.new result.0 }
{
    match made {
        Ok(asked) => perform_on_file(alloc, world, database, Task::Ask(asked), outputs),
        Err(refusal) => {
            drop(world);
            (outputs.refuse(refusal), None)
        }
    }
}
