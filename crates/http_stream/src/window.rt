//! What has been read of a stream and not yet taken.
ghost use Rattle.std.specs.Prelude.{◌≡◌, ◌+◌, ◌-◌, ◌^◌, ◌<◌, ◌≤◌, ◌==◌, false, List, Option, [], length, drop, IfOk, OnErr, IfErr, IfSome, IfNone};
ghost use Rattle.http_stream.specs.Run.{read_failed};
ghost use Rattle.http_stream.specs.Inside.Taken.{Grows, FindsMessage, AtEndIfNone, IsOpenBut};
ghost use Rattle.http_stream.specs.declared.front.Judgement.TheVariants.{Open};
ghost use Rattle.http_stream.specs.Inside.Judged.{Judges};

use crate::MAX_MESSAGE_BYTES;
use crate::endpoints::Source;
use crate::front::{FIELDS, Judgement, Parts, judge};
use crate::outcome::{End, StreamFault};
use httparse::spans::{EMPTY_HEADER_SPAN, HeaderSpan};
use std::alloc::{AllocError, Global};
use std::marker::Model;

/// How many bytes are read at once.
const CHUNK: usize = 4096;

/// What reading on found: a whole message, or the stream's end.
pub enum Next {
    Message(Parts),
    Ends(End),
}

/// What has been read and not yet taken, with room for a whole message, and room for the fields of a head, which are looked
/// for in it.
#[derive(Drop)]
pub struct Window {
    bytes: Vec<u8>,
    headers: Vec<HeaderSpan>,
}

impl Model for Window {
    ghost use Rattle.std.specs.Prelude.{◌≡◌, ◌≤◌, ℕ, List, length, vec_len, vec_capacity};
    ghost use Rattle.http_stream.specs.declared.TheConstants.{MAX_MESSAGE_BYTES};
    ghost use Rattle.http_stream.specs.declared.front.TheConstants.{FIELDS};

    ghost Value = { List ℕ };

    ghost view = { λ w. w.bytes.items };

    ghost invariant = { λ w. (vec_len w.bytes ≤ MAX_MESSAGE_BYTES) × ((MAX_MESSAGE_BYTES ≤ vec_capacity w.bytes) × (length w.headers.items ≡ FIELDS)) };
}

impl Window {
    /// Creates a window in which nothing stands. An `Err` is out of memory.
    pub fn new(alloc: Global) -> Result<Window, AllocError>
        ensures { IfOk result (λ window. window ≡ []) }
    {
        Ok(Window {
            bytes: Vec::with_capacity(alloc, MAX_MESSAGE_BYTES)?,
            headers: Vec::from_elem(alloc, EMPTY_HEADER_SPAN, FIELDS)?,
        })
    }

    /// Returns the bytes.
    pub fn bytes(&self) -> &[u8]
        ensures { result.now ≡ self.now }
    {
        self.bytes.as_slice()
    }

    /// Takes the first `n` bytes away.
    pub fn drop_front(&mut self, n: usize)
        requires { n ≤ length self.old }
        ensures { self.new ≡ drop n self.old }
    {
        // In place, so that the room of the window stays and no later read allocates.
        self.bytes.rotate_left(n);
        let kept = self.bytes.len() - n;
        self.bytes.truncate(kept);
    }

    /// Returns what stands at the front of what has come.
    fn front(&mut self) -> Judgement
        ensures front { Judges self.old result }
        ensures same { self.new ≡ self.old }
    {
        judge(self.bytes.as_slice(), &mut self.headers)
    }

    /// Reads some bytes to the end, and says how many.
    fn refill<R: Source>(&mut self, reader: &mut R) -> Result<usize, StreamFault>
        requires failures { R.failures reader.old < 2 ^ 64 - 1 }
        requires open { R.ended reader.old ≡ false }
        requires room { length self.old < MAX_MESSAGE_BYTES }
        ensures grows { Grows self.old self.new (R.left reader.old) (R.left reader.new) }
        ensures ok { IfOk result (λ n. AtEndIfNone n self.old self.new (R.left reader.new) × (R.ended reader.new ≡ (n == 0))) }
        ensures same { OnErr result (self.new ≡ self.old) }
        ensures fault { IfErr result (λ e. e ≡ StreamFault.Read) }
        ensures count { R.failures reader.new ≡ R.failures reader.old + read_failed result }
    {
        let mut chunk = [0u8; CHUNK];
        // Never 0, since an open front is shorter than a message: a read of no bytes means the end.
        let room = CHUNK.min(MAX_MESSAGE_BYTES - self.bytes.len());
        match reader.read(&mut chunk[..room]) {
            Ok(n) => {
                // Cannot fail: the window has room for a whole message from the start.
                let _ = self.bytes.extend_from_slice(&chunk[..n]);
                Ok(n)
            }
            Err(_) => Err(StreamFault::Read),
        }
    }

    /// Returns what stands at the front, after one read where that is open.
    fn read_on<R: Source>(&mut self, reader: &mut R) -> Result<Option<Next>, StreamFault>
        requires failures { R.failures reader.old < 2 ^ 64 - 1 }
        requires open { R.ended reader.old ≡ false }
        ensures grows { Grows self.old self.new (R.left reader.old) (R.left reader.new) }
        ensures some { IfOk result (λ found. IfSome found (λ next. FindsMessage self.new (R.left reader.new) next × IsOpenBut next (R.ended reader.new))) }
        ensures none { IfOk result (λ found. IfNone found ((length self.old < MAX_MESSAGE_BYTES) × ((length self.old < length self.new) × (R.ended reader.new ≡ false)))) }
        ensures open { OnErr result (Judges self.new Judgement.Open) }
        ensures fault { IfErr result (λ e. e ≡ StreamFault.Read) }
        ensures count { R.failures reader.new ≡ R.failures reader.old + read_failed result }
    {
        match self.front() {
            Judgement::Whole(parts) => Ok(Some(Next::Message(parts))),
            Judgement::Stop(end) => Ok(Some(Next::Ends(end))),
            // One read, and then the front is judged again: a client may wait for this answer before it sends more.
            Judgement::Open => match self.refill(reader) {
                Err(fault) => Err(fault),
                Ok(0) => Ok(Some(Next::Ends(if self.bytes().is_empty() {
                    End::Closed
                } else {
                    End::Unfinished
                }))),
                Ok(_) => Ok(None),
            },
        }
    }

    /// Reads on until a whole message or the stream's end stands at the front. Fails where the reader does.
    pub fn read_next<R: Source>(&mut self, reader: &mut R) -> Result<Next, StreamFault>
        requires failures { R.failures reader.old < 2 ^ 64 - 1 }
        requires open { R.ended reader.old ≡ false }
        ensures grows { Grows self.old self.new (R.left reader.old) (R.left reader.new) }
        ensures finds { IfOk result (λ next. FindsMessage self.new (R.left reader.new) next × IsOpenBut next (R.ended reader.new)) }
        ensures open { OnErr result (Judges self.new Judgement.Open) }
        ensures fault { IfErr result (λ e. e ≡ StreamFault.Read) }
        ensures count { R.failures reader.new ≡ R.failures reader.old + read_failed result }
    {
        'reading: loop {
            // Where nothing is found a byte has come, and an open front is shorter than a message, so the loop ends.
            if let Some(found) = self.read_on(reader)? {
                return Ok(found);
            }
        }
    }
}
