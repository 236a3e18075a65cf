//! A world in memory: the words of a command, files, the file of its database, and who calls a port.

ghost use Rattle.std.specs.Prelude.{⊤};
ghost use Rattle.sqlite.specs.Files.{image_of};
ghost use Rattle.host.specs.WorldState.{some_port};

use host::{Door, Ports, World, read_up_to};
use sqlite::{Connection, Error, ErrorCode, FileStore, Files, Options};
use sqlite_disk::Disk;
use std::alloc::{AllocError, Global};
use std::cell::RefCell;
use std::io::{self, ErrorKind, Write};
use testing::pieces::Pieces;
use web::Watched;

/// Returns these words, parted by blanks.
pub(crate) fn parted(alloc: Global, words: &str) -> Result<Vec<String>, AllocError> {
    let mut list = Vec::new(alloc);
    for word in words.split(' ') {
        list.push(String::from_str(alloc, word)?)?;
    }
    Ok(list)
}

/// A writer that appends to what others write to as well; where it is shut, it takes no byte.
#[derive(Drop)]
pub(crate) struct Noted<'a>(pub &'a RefCell<Vec<u8>>, pub bool);

impl Write for Noted<'_> {
    fn write(&mut self, buf: &[u8]) -> io::Result<usize> {
        match self.0.try_borrow_mut() {
            Ok(mut taken) if !self.1 => taken.write(buf),
            _ => Err(io::Error::from(ErrorKind::BrokenPipe)),
        }
    }

    fn flush(&mut self) -> io::Result<()> {
        Ok(())
    }
}

/// A file's name and its bytes, or those that a client sends, and whether a read after them fails.
pub(crate) type Named = (String, Vec<u8>, bool);

/// Returns what reads them.
pub(crate) fn reader((_name, bytes, is_torn): &Named) -> Pieces<'_> {
    let fault = (ErrorKind::WouldBlock, b"".as_slice());
    Pieces::new(bytes, (1000, 1000), is_torn.then_some(fault))
}

/// Who calls port 7, the only one that is free, and to what is added what they are answered.
#[derive(Drop)]
pub(crate) struct Callers<'a>(pub(crate) &'a [Named], pub(crate) &'a RefCell<Vec<u8>>);

impl<'a> Door for Callers<'a> {
    type Reader = Watched<Pieces<'a>>;

    type Writer = Watched<Noted<'a>>;

    ghost peers = { λ _ _. record { comes = λ _. ⊤; leaves = λ _. ⊤ } };

    ghost last = { λ _ _. ⊤ };

    fn accept(&mut self) -> io::Result<(Watched<Pieces<'a>>, Watched<Noted<'a>>)> {
        let Some((next, left)) = self.0.split_first() else {
            return Err(io::Error::from(ErrorKind::WouldBlock));
        };
        self.0 = left;
        Ok((
            Watched::new(reader(next)),
            Watched::new(Noted(self.1, false)),
        ))
    }

    fn close(&mut self, _reader: Watched<Pieces<'a>>, _writer: Watched<Noted<'a>>) {}
}

impl<'a> Ports for Callers<'a> {
    type Door = Callers<'a>;

    ghost state = { λ _ _. some_port };

    fn bind(self, port: u16) -> io::Result<Callers<'a>> {
        if port == 7 {
            return Ok(self);
        }
        Err(io::Error::from(ErrorKind::AddrInUse))
    }
}

/// The world. Words that cannot be read are `memory` and `not-utf8`; its database is the one that the words name.
#[derive(Drop)]
pub(crate) struct InMemory<'a, D: Disk> {
    pub(crate) alloc: Global,
    pub(crate) words: &'a str,
    pub(crate) files: &'a [Named],
    pub(crate) disks: Files<D>,
    pub(crate) callers: &'a [Named],
    pub(crate) answers: &'a RefCell<Vec<u8>>,
}

impl<'a, D: Disk + Drop> World for InMemory<'a, D> {
    type File = D;

    type Ports = Callers<'a>;

    ghost state = { λ it. record { said = λ _. ⊤; holds = λ _ _. ⊤; image = λ _. image_of D.Disk it.disks; refuses = λ _ _. ⊤; ports = λ _. some_port } };

    fn words(&self) -> io::Result<Vec<String>> {
        match self.words {
            "memory" => Err(io::Error::from(ErrorKind::OutOfMemory)),
            "not-utf8" => Err(io::Error::from(ErrorKind::InvalidInput)),
            words => Ok(parted(self.alloc, words)?),
        }
    }

    fn read(&self, path: &str, most: usize) -> io::Result<Vec<u8>> {
        for file in self.files {
            if file.0.as_str() == path {
                return read_up_to(self.alloc, reader(file), most);
            }
        }
        Err(io::Error::from(ErrorKind::NotFound))
    }

    fn open(self, path: &str) -> Result<(Connection<FileStore<D>>, Callers<'a>), Error> {
        let InMemory {
            alloc,
            words,
            disks,
            callers,
            answers,
            ..
        } = self;
        let is_named = words.split(' ').nth(2) == Some(path) && !path.contains('/');
        if !is_named || !disks.may_be_used() {
            return Err(Error::SqliteFailure(ErrorCode::CannotOpen));
        }
        let mut options = Options::new(1);
        options.cache_pages = 20;
        match Connection::open_files(alloc, disks, options) {
            Ok(connection) => Ok((connection, Callers(callers, answers))),
            Err((error, _left)) => Err(error),
        }
    }
}
