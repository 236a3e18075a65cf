//! The exported function itself, over files in memory.

use crate::{NO_ROOM, page_office};
use std::alloc::Global;
use std::rt::HostRuntime;
use std::test::Fail;

/// What a call answers, and what stands in its rooms: of those that it filled what it put.
#[derive(Drop)]
struct Came {
    status: usize,
    answers: Vec<u8>,
    left: Vec<u8>,
}

/// Calls it with rooms that are filled with sevens.
fn called(alloc: Global, file: &[u8], stream: &str, room: usize) -> Result<Came, Fail> {
    let mut answers = Vec::from_elem(alloc, 7u8, room)?;
    let mut left = Vec::from_elem(alloc, 7u8, room)?;
    let mut lengths = [0usize; 2];
    let status = page_office(
        alloc,
        file,
        stream.as_bytes(),
        &mut answers,
        &mut left,
        &mut lengths,
    );
    if status == 0 {
        answers.truncate(lengths[0]);
        left.truncate(lengths[1]);
    }
    Ok(Came {
        status,
        answers,
        left,
    })
}

/// Whether nothing was put into a room.
fn is_as_it_was(room: &[u8]) -> bool {
    room.iter().all(|byte| *byte == 7)
}

const PUT: &str = "PUT /students/S1 HTTP/1.1\r\nContent-Length: 14\r\n\r\n{\"name\":\"Ann\"}";

const GET: &str = "GET /students/S1 HTTP/1.1\r\n\r\n";

#[rattlefmt::skip]
const CALLS: [(&str, &str); 3] = [
    (PUT, "HTTP/1.1 200 OK\r\nContent-Type: application/json\r\nContent-Length: 11\r\n\r\n{\"ok\":true}"),
    (GET, "HTTP/1.1 200 OK\r\nContent-Type: application/json\r\nContent-Length: 40\r\n\r\n{\"list\":null,\"name\":\"Ann\",\"placed\":null}"),
    ("", ""),
];

#[test]
fn an_office_goes_on_in_the_file_that_is_left(rt: HostRuntime) -> Result<(), Fail> {
    let alloc = rt.alloc();
    let mut file = Vec::new(alloc);
    for (stream, wanted) in CALLS {
        let came = called(alloc, &file, stream, 1 << 20)?;
        assert_eq!(rt; came.status, 0, "{stream}");
        assert_eq!(rt; came.answers.as_slice(), wanted.as_bytes(), "{stream}");
        file = came.left;
    }
    Ok(())
}

#[test]
fn a_file_that_is_no_database_is_refused(rt: HostRuntime) -> Result<(), Fail> {
    let came = called(rt.alloc(), b"These bytes are no database.", PUT, 1 << 20)?;
    assert_eq!(rt; came.status, 2);
    assert!(rt; is_as_it_was(&came.answers) && is_as_it_was(&came.left));
    Ok(())
}

#[test]
fn without_room_nothing_is_put(rt: HostRuntime) -> Result<(), Fail> {
    let came = called(rt.alloc(), b"", PUT, 1 << 10)?;
    assert_eq!(rt; came.status, NO_ROOM);
    assert!(rt; is_as_it_was(&came.answers) && is_as_it_was(&came.left));
    Ok(())
}
