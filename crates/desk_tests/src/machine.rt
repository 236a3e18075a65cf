//! The machine that the program runs on, over a file and connections on loopback.
//!
//! One thread plays the clients too, so each has sent all that it sends before it is accepted, and reads what it is answered once all are
//! served. That a connection waits for bytes that come later is seen of the connection itself. Clients who send while they are served, and
//! who read late, are played by `tools/checks/clients.py`.

use crate::in_memory::parted;
use cli::{Outputs, run_command};
use host::{Door, Machine, Ports};
use sqlite::Unknown;
use std::alloc::Global;
use std::io::{Read, Write};
use std::net::{Ipv4Addr, Shutdown, TcpListener, TcpStream};
use std::rt::HostRuntime;
use std::test::Fail;
use std::time::{Duration, Instant};
use std::{fs, io};
use testing::judged::holds;
use testing::offices::exchanged;
use web::Watched;

/// What clients play by name.
#[rattlefmt::skip]
static TEXTS: &str =
    r#"ABSENT: a read of a round that there is not
GET /rounds/9 | | 404 Not Found | {"fault":"UnknownRound","number":26}"#;

/// What each client sends. The last one sends a message more than is read, and stays open.
#[rattlefmt::skip]
static CALLS: &str =
    r#"play SCHOOL LISTED
--

--
fill 3000 | ^n^n^n^n^n^n^n^n^n^n | POST /imports/students/I1 | code,name^nE,Eve^n$F,Fay^n | 200 OK | {"rows":2}
--
each 1 | 100 | ABSENT
raw GET /rounds/9 HTTP/1.1^r^n^r^n"#;

/// A writer that calls the port of the line that writes to it, once it writes: as each client, of which the last one stays open.
#[derive(Drop)]
struct Caller<'a> {
    rt: &'a HostRuntime,
    port: u16,
    asked: &'a [Vec<u8>],
    clients: Vec<TcpStream>,
    told: Vec<u8>,
}

impl Write for Caller<'_> {
    fn write(&mut self, buf: &[u8]) -> io::Result<usize> {
        for asked in self.asked.iter().skip(self.clients.len()) {
            let mut client = TcpStream::connect(self.rt, (Ipv4Addr::LOCALHOST, self.port))?;
            client.write_all(asked)?;
            if self.clients.len() + 1 < self.asked.len() {
                client.shutdown(Shutdown::Write)?;
            }
            self.clients.push(client)?;
        }
        // Nobody else's machine reaches the port, nor another address of this one.
        let elsewhere = (Ipv4Addr::new(127, 0, 0, 2), self.port);
        match TcpStream::connect(self.rt, elsewhere) {
            Ok(_) => Err(io::Error::from(io::ErrorKind::AddrInUse)),
            Err(_) => self.told.write(buf),
        }
    }

    fn flush(&mut self) -> io::Result<()> {
        Ok(())
    }
}

/// Does a command on this machine. Its status.
fn command<O: Write + Drop>(rt: &HostRuntime, words: &str, out: O) -> Result<u8, Fail> {
    let words = parted(rt.alloc(), words)?;
    let err = Vec::new(rt.alloc());
    let mut outputs = Outputs::new(Watched::new(out), Watched::new(err));
    let machine = Machine::new(*rt, Unknown);
    let (status, _closing) = run_command(rt.alloc(), machine, &words, &mut outputs);
    Ok(status.number())
}

/// Returns a port that is free. As long as another has it, it cannot be bound, and nobody calls it.
fn free_port(rt: &HostRuntime) -> Result<u16, Fail> {
    let mut listener = TcpListener::bind(rt, (Ipv4Addr::LOCALHOST, 0))?;
    let port = listener.local_addr()?.port();
    holds(rt.bind(port).is_err(), "a port that is taken")?;
    listener.set_nonblocking(true)?;
    let is_called = <TcpListener as Door>::accept(&mut listener).is_ok();
    holds(!is_called, "a port that nobody calls")?;
    Ok(port)
}

/// Returns what the clients send, and what each is answered.
fn exchanges(alloc: Global) -> Result<(Vec<Vec<u8>>, Vec<Vec<u8>>), Fail> {
    let mut asked = Vec::new(alloc);
    let mut answers = Vec::new(alloc);
    for rows in CALLS.split("\n--\n") {
        let (sent, answer) = exchanged(alloc, TEXTS, rows)?;
        asked.push(sent)?;
        answers.push(answer)?;
    }
    Ok((asked, answers))
}

/// Compares what each client was answered.
fn compare(alloc: Global, clients: Vec<TcpStream>, answers: &[Vec<u8>]) -> Result<(), Fail> {
    let mut left = answers;
    for mut client in clients {
        let mut got = Vec::new(alloc);
        client.read_to_end(&mut got)?;
        let Some((want, more)) = left.split_first() else {
            return Err(Fail::new("more clients than answers"));
        };
        left = more;
        let is_well = got.as_slice() == want.as_slice();
        holds(is_well, "what a client is answered")?;
    }
    holds(left.is_empty(), "as many clients as answers")
}

/// Serves the clients by a line over a new file, and compares what each is answered, and what is printed.
fn serve(rt: &HostRuntime, port: u16) -> Result<(), Fail> {
    let (asked, answers) = exchanges(rt.alloc())?;
    let mut caller = Caller {
        rt,
        port,
        asked: &asked,
        clients: Vec::new(rt.alloc()),
        told: Vec::new(rt.alloc()),
    };
    let words = format!(in rt.alloc(); "spadesk serve client.db {port} 4")?;
    let status = command(rt, &words, &mut caller)?;
    let want = format!(in rt.alloc();
        "listening {port}\nconnection 1: 10 answers, closed\nconnection 2: 0 answers, closed\n\
            connection 3: 1 answers, closed\nconnection 4: 100 answers, hundred\n"
    )?;
    let is_told = status == 0 && caller.told.as_slice() == want.as_bytes();
    holds(is_told, &want)?;
    let Caller { clients, .. } = caller;
    compare(rt.alloc(), clients, &answers)
}

// The copy is of the file alone, without its log.
#[test]
fn a_file_that_was_served_is_the_whole_database(rt: HostRuntime) -> Result<(), Fail> {
    serve(&rt, free_port(&rt)?)?;
    fs::copy(&rt, "client.db", "copy.db")?;
    let mut out = Vec::new(rt.alloc());
    let status = command(&rt, "spadesk report copy.db missing 1", &mut out)?;
    let want = b"B                Bob\nE                Eve\nF                Fay\n";
    let is_told = status == 0 && out.as_slice() == want.as_slice();
    holds(is_told, "who has no list")
}

// A read that nothing has come for goes on for as long as the test lets it, and takes what comes after it.
#[test]
fn a_connection_waits_for_its_client(rt: HostRuntime) -> Result<(), Fail> {
    let mut listener = rt.bind(0)?;
    let port = listener.local_addr()?.port();
    let mut client = TcpStream::connect(&rt, (Ipv4Addr::LOCALHOST, port))?;
    let (reader, writer) = Door::accept(&mut listener)?;
    let mut stream = reader.into_inner();
    holds(stream.read_timeout()?.is_none(), "a limit of a read")?;
    stream.set_read_timeout(Some(Duration::from_millis(200)))?;
    let start = Instant::now(&rt)?;
    let mut piece = [0u8; 10];
    let is_read = stream.read(&mut piece).is_ok();
    let waited = start.elapsed(&rt)?;
    holds(
        !is_read && waited > Duration::from_millis(100),
        "a read that waits",
    )?;
    client.write_all(b"later")?;
    let count = stream.read(&mut piece)?;
    holds(piece[..count].starts_with(b"later"), "what comes later")?;
    drop(writer);
    Ok(())
}
