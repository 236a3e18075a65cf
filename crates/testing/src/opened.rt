//! Desks that are opened for a test, and a first request.

use desk::Desk;
use office_model::{Plain, Text};
use sqlite::{Alter, Connection};
use std::alloc::Global;
use std::test::Fail;

/// Returns the desk over a database.
pub fn desk_over<S: Alter + Drop>(
    alloc: Global,
    connection: Connection<S>,
) -> Result<Desk<S>, Fail> {
    match Desk::open(alloc, connection) {
        Ok(desk) => Ok(desk),
        Err((refusal, _connection)) => Err(Fail::new(format_args!("refused {}", refusal.number()))),
    }
}

/// Returns the request that puts a student.
pub fn put_student(alloc: Global, code: &str, label: &str) -> Result<Plain, Fail> {
    let code = Text::of(alloc, code)?;
    let label = Text::of(alloc, label)?;
    Ok(Plain::PutStudent { code, label })
}
