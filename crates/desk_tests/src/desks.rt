//! A desk over a database: a list of requests is answered in order.

use desk::Desk;
use office_model::{Plain, Refusal, Reply, Request, Text};
use sqlite::{Alter, Connection};
use std::alloc::Global;
use std::rt::HostRuntime;
use std::test::Fail;
use testing::judged::holds;
use testing::opened::{desk_over, put_student};

/// How often the student is read.
const READS: usize = 1_998;

/// Returns the request that reads a student.
fn get_student(alloc: Global, code: &str) -> Result<Request, Fail> {
    let code = Text::of(alloc, code)?;
    Ok(Request::Plain(Plain::GetStudent { code }))
}

/// Returns two thousand requests, by which a student is put and read, and another is not known.
fn requests(alloc: Global) -> Result<Vec<Request>, Fail> {
    let mut requests = Vec::new(alloc);
    requests.push(Request::Plain(put_student(alloc, "S1", "Ann")?))?;
    for _read in 0..READS {
        requests.push(get_student(alloc, "S1")?)?;
    }
    requests.push(get_student(alloc, "S9")?)?;
    Ok(requests)
}

/// Whether this answers a read of the student.
fn is_known(answer: &Result<Reply, Refusal>) -> bool {
    matches!(answer, Ok(Reply::Student { name, .. }) if name.as_str() == "Ann")
}

/// Whether these are the answers to those requests.
fn are_answers(answers: &[Result<Reply, Refusal>]) -> bool {
    match answers {
        [Ok(Reply::Done), known @ .., Err(Refusal::UnknownStudent)] => {
            known.len() == READS && known.iter().all(is_known)
        }
        _ => false,
    }
}

/// Asks those requests as one list.
fn run<S: Alter>(alloc: Global, desk: &mut Desk<S>) -> Result<(), Fail> {
    let answers = desk.run(requests(alloc)?)?;
    holds(are_answers(&answers), "a put and its reads")
}

/// Does so at the desk over these tables.
fn run_over<S: Alter + Drop>(alloc: Global, connection: Connection<S>) -> Result<(), Fail> {
    let mut desk = desk_over(alloc, connection)?;
    run(alloc, &mut desk)
}

#[test]
fn two_thousand_requests_are_answered(rt: HostRuntime) -> Result<(), Fail> {
    run_over(rt.alloc(), Connection::open_in_memory(rt.alloc())?)
}
