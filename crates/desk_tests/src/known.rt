//! A world of which all is known, but when memory runs out: its words, its one file, the files of its database, and who calls its port. So
//! what a clause says of any world it says exactly of this one.

ghost use Rattle.std.specs.Prelude.{◌≡◌, IfOk, map, string_bytes};
ghost use Rattle.cli.specs.Outcomes.{Prints};
ghost use Rattle.cli.specs.Outputs.{CanFail};
ghost use Rattle.cli.specs.Solving.{solve_words};
ghost use Rattle.desk_tests.specs.Known.{IsKnown, Tells, peer_of, port_of, world_of};

use crate::in_memory::parted;
use cli::{Outputs, Status, run_command, solve_law};
use host::{Door, Ports, World, read_up_to};
use sqlite::{Connection, Error, ErrorCode, FileStore, Files, Options};
use sqlite_disk::{Disk, Memory};
use std::alloc::{AllocError, Global};
use std::io::{self, ErrorKind};
use std::rt::HostRuntime;
use std::test::Fail;
use testing::judged::holds;
use web::{Sink, Watched};

/// Who calls port 7, the only one that is free: what each sends.
#[derive(Drop)]
struct Calls<'a> {
    alloc: Global,
    calls: &'a [Vec<u8>],
}

impl<'a> Door for Calls<'a> {
    type Reader = Watched<&'a [u8]>;

    type Writer = Watched<Vec<u8>>;

    ghost peers = { λ it. peer_of (map (λ call. call.items) it.calls.now) };

    ghost last = { λ _. IsKnown };

    fn accept(&mut self) -> io::Result<(Watched<&'a [u8]>, Watched<Vec<u8>>)> {
        let Some((next, left)) = self.calls.split_first() else {
            return Err(io::Error::from(ErrorKind::WouldBlock));
        };
        self.calls = left;
        Ok((
            Watched::new(next.as_slice()),
            Watched::new(Vec::new(self.alloc)),
        ))
    }

    fn close(&mut self, _reader: Watched<&'a [u8]>, _writer: Watched<Vec<u8>>) {}
}

impl<'a> Ports for Calls<'a> {
    type Door = Calls<'a>;

    ghost state = { λ it. port_of (map (λ call. call.items) it.calls.now) };

    fn bind(self, port: u16) -> io::Result<Calls<'a>> {
        if port == 7 {
            return Ok(self);
        }
        Err(io::Error::from(ErrorKind::AddrInUse))
    }
}

/// Returns a copy of words.
fn copied(alloc: Global, words: &[String]) -> Result<Vec<String>, AllocError>
    ensures { IfOk result (λ copy. map string_bytes copy.items ≡ map string_bytes words.now) }
{
    let mut copy = Vec::new(alloc);
    for word in words {
        copy.push(String::from_str(alloc, word)?)?;
    }
    Ok(copy)
}

/// The world.
#[derive(Drop)]
struct Known<'a, D: Disk> {
    alloc: Global,
    words: &'a [String],
    name: &'a str,
    text: &'a [u8],
    disks: Files<D>,
    calls: &'a [Vec<u8>],
}

impl<'a, D: Disk + Drop> World for Known<'a, D> {
    type File = D;

    type Ports = Calls<'a>;

    ghost state = { λ it. world_of D.Disk (map string_bytes it.words.now) it.name.now it.text.now it.disks (map (λ call. call.items) it.calls.now) };

    fn words(&self) -> io::Result<Vec<String>> {
        match copied(self.alloc, self.words) {
            Ok(words) => Ok(words),
            Err(_) => Err(io::Error::from(ErrorKind::OutOfMemory)),
        }
    }

    fn read(&self, path: &str, most: usize) -> io::Result<Vec<u8>> {
        if path != self.name {
            return Err(io::Error::from(ErrorKind::NotFound));
        }
        match read_up_to(self.alloc, self.text, most) {
            Ok(bytes) => Ok(bytes),
            Err(_) => Err(io::Error::from(ErrorKind::OutOfMemory)),
        }
    }

    fn open(self, _path: &str) -> Result<(Connection<FileStore<D>>, Calls<'a>), Error> {
        let Known {
            alloc,
            disks,
            calls,
            ..
        } = self;
        if !disks.may_be_used() {
            return Err(Error::SqliteFailure(ErrorCode::CannotOpen));
        }
        match Connection::open_files(alloc, disks, Options::new(1)) {
            Ok(connection) => Ok((connection, Calls { alloc, calls })),
            Err((error, _left)) => Err(error),
        }
    }
}

/// Does the command of a world's words.
fn done<D: Disk + Drop, O: Sink, E: Sink>(
    world: Known<'_, D>,
    outputs: &mut Outputs<O, E>,
) -> Status
    requires { CanFail outputs.old }
    ensures { map string_bytes world.entry.words.now ≡ solve_words → Prints (Tells world.entry.name.now world.entry.text.now) outputs.old outputs.new result }
{
    solve_law(&world, outputs);
    let (alloc, words) = (world.alloc, world.words);
    let (status, _closing) = run_command(alloc, world, words, outputs);
    status
}

/// What is done in worlds whose one file has this text: the words, the file's name, and what is printed, also on standard error.
static ROWS: [(&str, &str, &str, &str); 3] = [
    ("spadesk solve round.txt", "round.txt", "", "bad line 1\n"),
    (
        "spadesk solve round.txt",
        "other.txt",
        "",
        "refused 2: Storage\n",
    ),
    (
        "spadesk serve office.db 7 1",
        "round.txt",
        "listening 7\nconnection 1: 1 answers, closed\n",
        "new office.db\n",
    ),
];

#[test]
fn a_command_does_what_its_world_says(rt: HostRuntime) -> Result<(), Fail> {
    let alloc = rt.alloc();
    let call = Vec::from_slice(alloc, b"POST /rounds HTTP/1.1\r\n\r\n")?;
    for (text, name, out, err) in ROWS {
        let words = parted(alloc, text)?;
        let world = Known {
            alloc,
            words: &words,
            name,
            text: b"S,L,05\n",
            disks: Files {
                log: Memory::new(alloc),
                db: Memory::new(alloc),
            },
            calls: std::slice::from_ref(&call),
        };
        let printed = Watched::new(Vec::new(alloc));
        let mut outputs = Outputs::new(printed, Watched::new(Vec::new(alloc)));
        let status = done(world, &mut outputs);
        let (got, told) = outputs.into_parts();
        let is_told = got.into_inner().as_slice() == out.as_bytes()
            && told.into_inner().as_slice() == err.as_bytes()
            && (status.number() == 0) != out.is_empty();
        holds(is_told, text)?;
    }
    Ok(())
}
