//! What the program can do outside. What it has not been lent it cannot do: who holds ports opens no file, and a database is opened once.

ghost use Rattle.std.specs.Prelude.{◌≡◌, ℕ, ◌+◌, ◌^◌, ◌<◌, false, map, string_bytes, Some, None, Ok, Err, IfOk, IfErr, MatchResult};
ghost use Rattle.std.specs.IoError.{error_kind};
ghost use Rattle.sqlite.specs.Files.{IsBlankAs, IsOpened, file_state};
ghost use Rattle.sqlite.specs.Held.{IsNew};
ghost use Rattle.sqlite.specs.Start.{FindsIn};
ghost use Rattle.sqlite.specs.State.{HasCleanDisk};
ghost use Rattle.sqlite_store.specs.FileStore.{view};
ghost use Rattle.host.specs.WorldState.{Ends, IsPeer, IsReadOf, Peer, PortState, Within, WorldState};

use http_stream::{Sink, Source};
use sqlite::{Connection, Error, FileStore};
use sqlite_disk::Disk;
use std::io;

/// A port that is bound.
pub trait Door: Drop {
    /// What is read of a connection.
    type Reader: Source + Drop;

    /// What is written to it.
    type Writer: Sink + Drop;

    // Who is still to connect, in order.
    ghost peers: { Self → ℕ → Peer };

    // How the connection that was accepted last is left.
    ghost last: { Self → Ends → Type 0 };

    /// Accepts the next connection, and returns its two ends.
    fn accept(&mut self) -> io::Result<(Self::Reader, Self::Writer)>
        ensures came { MatchResult result
            (λ ends. (peers self.old 0).comes (Some (record { left = Self.Reader.left ends.0; written = Self.Writer.written ends.1; read_failures = 0; write_failures = 0 })))
            (λ _. (peers self.old 0).comes None) }
        ensures fresh { IfOk result (λ ends. (Self.Reader.ended ends.0 ≡ false) × (Self.Reader.failures ends.0 ≡ 0) × (Self.Writer.failures ends.1 ≡ 0)) }
        ensures next { (n : ℕ) → IsPeer (peers self.new n) (peers self.old (n + 1)) }
        ensures last { (ends : Ends) → last self.new ends → (peers self.old 0).leaves ends };

    /// Closes the connection that was accepted last, whose two ends these are.
    fn close(&mut self, reader: Self::Reader, writer: Self::Writer)
        ensures left { last self.old (record { left = Self.Reader.left reader; written = Self.Writer.written writer; read_failures = Self.Reader.failures reader; write_failures = Self.Writer.failures writer }) }
        ensures stays { (n : ℕ) → IsPeer (peers self.new n) (peers self.old n) };
}

/// The ports, one of which can be bound.
pub trait Ports: Drop {
    /// A port that is bound.
    type Door: Door;

    // What is known of each.
    ghost state: { Self → ℕ → PortState };

    /// Binds this port, which nobody else's machine reaches.
    fn bind(self, port: u16) -> io::Result<Self::Door>
        ensures bound { IfOk result (λ door. (n : ℕ) → IsPeer (Self.Door.peers door n) ((state self port).peers n)) }
        ensures taken { IfErr result (λ _. (state self port).is_taken) };
}

/// What a program is given, and files, one of which can be opened as a database; then the ports are left.
pub trait World: Drop {
    /// A file of a database.
    type File: Disk + Drop;

    /// What is left once a database was opened.
    type Ports: Ports;

    // What is known of it.
    ghost state: { Self → WorldState };

    /// Returns the words of the command line, the program's name first.
    fn words(&self) -> io::Result<Vec<String>>
        ensures { MatchResult result (λ words. (state self.now).said (Ok (map string_bytes words.items))) (λ error. (state self.now).said (Err (error_kind error))) };

    /// Reads the file with this name up to its end, or up to the first byte above the limit.
    fn read(&self, path: &str, most: usize) -> io::Result<Vec<u8>>
        requires { most < 2 ^ 32 }
        ensures { MatchResult result (λ bytes. IsReadOf ((state self.now).holds path.now) most bytes.items) (λ error. (state self.now).holds path.now (Err (error_kind error))) };

    /// Opens the database file with this name; a file that is not there is made. No limit is set on the steps of a statement.
    fn open(self, path: &str) -> Result<(Connection<FileStore<Self::File>>, Self::Ports), Error>
        ensures found { IfOk result (λ c. HasCleanDisk (file_state c.0) → FindsIn ((state self).image path.now) (file_state c.0)) }
        ensures opened { IfOk result (λ c. HasCleanDisk (file_state c.0) → IsOpened c.0) }

        // A file that is new is one that any other program for SQLite files reads and writes.
        ensures plain { IfOk result (λ c. HasCleanDisk (file_state c.0) → IsBlankAs false ((state self).image path.now) → (view c.0.store).has_sums ≡ false) }
        ensures ports { IfOk result (λ c. (port : ℕ) → Within (Self.Ports.state c.1 port) ((state self).ports port)) }
        ensures fresh { IfOk result (λ c. IsNew c.0) }
        ensures refused { IfErr result (λ error. (state self).refuses path.now error) };
}
