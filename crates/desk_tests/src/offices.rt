//! An office and its tables without a desk: what is applied is saved, and loaded as it was.

use office::Office;
use office_model::{Done, Plain, Refusal, Text};
use sqlite::{Alter, Connection};
use std::alloc::Global;
use std::rt::HostRuntime;
use std::test::Fail;
use store::Store;
use testing::judged::{holds, well};
use testing::opened::put_student;

/// Returns the request that takes the student's list away.
fn drop_list(alloc: Global) -> Result<Plain, Fail> {
    Ok(Plain::DropList {
        student: Text::of(alloc, "S1")?,
    })
}

/// Whether the student was put, by one change of the tables.
fn is_put(done: &Result<Done, Refusal>) -> bool {
    match done {
        Ok(done) => done.changes.len() == 1,
        Err(_) => false,
    }
}

/// Whether the office has this student, and no other.
fn has_student(office: &Office) -> bool {
    match office.students() {
        [student] => student.code.as_str() == "S1" && student.label.as_str() == "Ann",
        _ => false,
    }
}

/// Applies the put, and then a request that is refused and changes nothing.
fn applied(alloc: Global, office: &mut Office) -> Result<Done, Fail> {
    let put = office.apply(put_student(alloc, "S1", "Ann")?);
    holds(is_put(&put), "a put")?;
    let refused = matches!(office.apply(drop_list(alloc)?), Err(Refusal::NoRoundOpen));
    holds(refused && has_student(office), "a refused request")?;
    well(put, "a put")
}

/// Applies and saves it over tables, which are then opened again.
fn save_over<S: Alter + Drop>(alloc: Global, connection: Connection<S>) -> Result<(), Fail> {
    let Ok((mut store, mut office)) = Store::open(alloc, connection) else {
        return Err(Fail::new("an opening"));
    };
    let done = applied(alloc, &mut office)?;
    well(store.save(&done.changes), "a saving")?;
    let Ok((_, opened)) = Store::open(alloc, store.into_connection()) else {
        return Err(Fail::new("an opening again"));
    };
    holds(has_student(&opened), "what is opened again")
}

#[test]
fn what_is_applied_and_saved_is_opened_again(rt: HostRuntime) -> Result<(), Fail> {
    save_over(rt.alloc(), Connection::open_in_memory(rt.alloc())?)
}
