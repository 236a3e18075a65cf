//! The machine that the program runs on: one call of the system for each function.

ghost use Rattle.std.specs.Prelude.{◌≡◌, ⊤, true, false, [], ◌∷◌};
ghost use Rattle.std.specs.Net.Addr.{ipv4_octets};
ghost use Rattle.std.specs.Net.Socket.{v4_ip, v4_port};
ghost use Rattle.sqlite_std_file.specs.File.{IsFresh};
ghost use Rattle.sqlite_wal.specs.Files.{image_at};
ghost use Rattle.host.specs.WorldState.{FailsToOpen, some_port};

use crate::files::read_up_to;
use crate::hosts::Host;
use crate::worlds::{Door, Ports, World};
use http_stream::Watched;
use sqlite::{Connection, Error, FileFrom, FileStore, Start, Unknown};
use sqlite_disk::Disk;
use std::fs::File;
use std::io::Read;
use std::net::{Ipv4Addr, Shutdown, SocketAddrV4, TcpListener, TcpStream};
use std::rt::{HostRuntime, Stderr, Stdin, Stdout};
use std::time::Duration;
use std::{env, io};

impl Door for TcpListener {
    type Reader = Watched<TcpStream>;

    type Writer = Watched<TcpStream>;

    ghost peers = { λ _ _. record { comes = λ _. ⊤; leaves = λ _. ⊤ } };

    ghost last = { λ _ _. ⊤ };

    fn accept(&mut self) -> io::Result<(Watched<TcpStream>, Watched<TcpStream>)> {
        let (stream, _) = TcpListener::accept(self)?;
        Ok((Watched::new(stream.try_clone()?), Watched::new(stream)))
    }

    fn close(&mut self, _reader: Watched<TcpStream>, writer: Watched<TcpStream>) {
        end(writer.into_inner());
    }
}

/// How many milliseconds a client is waited for that neither sends more nor closes its end.
const PATIENCE: u64 = 50;

/// How much is thrown away of what a client has sent besides: some hundred of the largest messages.
const PIECES: usize = 2048;

const PIECE: usize = 4096;

/// Ends the connection such that the client gets all that was written: the system throws away what it has not delivered yet where bytes
/// are left unread. So the writing side is shut first, and what has come is read until the client closes its end.
fn end(mut stream: TcpStream) {
    let _ = stream.shutdown(Shutdown::Write);
    let _ = stream.set_read_timeout(Some(Duration::from_millis(PATIENCE)));
    let mut piece = [0u8; PIECE];
    for _ in 0..PIECES {
        match stream.read(&mut piece) {
            Ok(0) | Err(_) => return,
            Ok(_) => {}
        }
    }
}

/// Returns a port of the loopback address: nobody else's machine reaches it.
fn loopback(port: u16) -> SocketAddrV4
    ensures address { ipv4_octets (v4_ip result) ≡ 127 ∷ 0 ∷ 0 ∷ 1 ∷ [] }
    ensures port { v4_port result ≡ port }
{
    SocketAddrV4::new(Ipv4Addr::LOCALHOST, port)
}

impl Ports for HostRuntime {
    type Door = TcpListener;

    ghost state = { λ _ _. some_port };

    fn bind(self, port: u16) -> io::Result<TcpListener> {
        TcpListener::bind(&self, loopback(port))
    }
}

/// The machine, whose database file is supposed to hold this.
#[derive(Drop)]
pub struct Machine<S: Start> {
    rt: HostRuntime,
    start: S,
}

impl<S: Start> Machine<S> {
    /// Returns the machine.
    pub fn new(rt: HostRuntime, start: S) -> Self {
        Machine { rt, start }
    }
}

impl<S: Start> World for Machine<S> {
    type File = FileFrom<S>;

    type Ports = HostRuntime;

    ghost state = { λ _. record { said = λ _. ⊤; holds = λ _ _. ⊤; image = λ _. image_at S.Start; refuses = λ _ error. FailsToOpen ⟦<FileFrom<S> as Disk>⟧ (λ files. IsFresh true files.log × IsFresh false files.db) error; ports = λ _. some_port } };

    fn words(&self) -> io::Result<Vec<String>> {
        Ok(env::args(&self.rt)?.collect(self.rt.alloc())?)
    }

    fn read(&self, path: &str, most: usize) -> io::Result<Vec<u8>> {
        read_up_to(self.rt.alloc(), File::open(&self.rt, path)?, most)
    }

    fn open(self, path: &str) -> Result<(Connection<FileStore<FileFrom<S>>>, HostRuntime), Error> {
        let Machine { rt, start } = self;
        match Connection::open_from(&rt, path, false, start) {
            Ok(connection) => Ok((connection, rt)),
            Err((error, _)) => Err(error),
        }
    }
}

impl Host for HostRuntime {
    type World = Machine<Unknown>;

    type In = Watched<Stdin>;

    type Out = Watched<Stdout>;

    type Err = Watched<Stderr>;

    ghost lends = { λ _ _ _ _ _. ⊤ };

    ghost takes = { λ _ _ _ _. ⊤ };

    fn lend(
        &mut self,
    ) -> (
        Machine<Unknown>,
        Watched<Stdin>,
        Watched<Stdout>,
        Watched<Stderr>,
    ) {
        (
            Machine::new(*self, Unknown),
            Watched::new(self.stdin()),
            Watched::new(self.stdout()),
            Watched::new(self.stderr()),
        )
    }

    fn take(self, _input: Watched<Stdin>, _out: Watched<Stdout>, _err: Watched<Stderr>) {}
}
