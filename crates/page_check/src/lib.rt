//! The lines on round files for a host that is no program, such as a page in a browser: bytes in, bytes out.
//!
//! Promised: what `page_check` and `page_solve` put into `out` is what `spadesk check FILE` and `spadesk solve FILE` print of the
//! same bytes. Begin with `specs/Printed.antt`. What a host owes, nothing here can hold it to: `text` and `out` are memory of the
//! module, separate from each other and from its heap.
#![tactic(auto)]

#[cfg(test)]
mod tests;

ghost use Rattle.std.specs.Prelude.{◌≡◌, ◌≢◌, ◌≤◌, IfOk, length, take, string_bytes};
ghost use Rattle.page_check.specs.Printed.{line_of, refused_line, IsPrintedByCheck, IsPrintedByCheckOwn, IsPrintedByPublish, IsPrintedBySolve};

use office_model::Refusal;
use round_files::{Trouble, checked, checked_own, published, solved};
use std::alloc::{AllocError, Global};
use std::fmt::Write;

/// Puts what `spadesk check FILE` prints of these bytes at the start of `out`, and answers its number of bytes: 0 where memory
/// or room is short.
#[unsafe(no_mangle)]
pub extern "C" fn page_check(alloc: Global, text: &[u8], out: &mut [u8]) -> usize
    ensures printed { result ≢ 0 → IsPrintedByCheck text.now (take result out.new) }
    ensures room { result ≤ length out.new }
{
    match printed(alloc, checked(alloc, text)) {
        Ok(line) => put(out, line.as_bytes()),
        Err(_) => 0,
    }
}

/// Puts what `spadesk solve FILE` prints of these bytes at the start of `out`, and answers its number of bytes: 0 where memory
/// or room is short.
#[unsafe(no_mangle)]
pub extern "C" fn page_solve(alloc: Global, text: &[u8], out: &mut [u8]) -> usize
    ensures printed { result ≢ 0 → IsPrintedBySolve text.now (take result out.new) }
    ensures room { result ≤ length out.new }
{
    match printed(alloc, solved(alloc, text)) {
        Ok(line) => put(out, line.as_bytes()),
        Err(_) => 0,
    }
}

/// Puts what `spadesk publish FILE` prints of these bytes at the start of `out`, and answers its number of bytes: 0 where memory
/// or room is short.
#[unsafe(no_mangle)]
pub extern "C" fn page_publish(alloc: Global, text: &[u8], out: &mut [u8]) -> usize
    ensures printed { result ≢ 0 → IsPrintedByPublish text.now (take result out.new) }
    ensures room { result ≤ length out.new }
{
    match printed(alloc, published(alloc, text)) {
        Ok(line) => put(out, line.as_bytes()),
        Err(_) => 0,
    }
}

/// Puts what `spadesk check-own FILE STUDENT P1 .. Pk` prints of these bytes at the start of `out`, where `line` has the words
/// `STUDENT,P1,..,Pk`, and answers its number of bytes: 0 where memory or room is short.
#[unsafe(no_mangle)]
pub extern "C" fn page_own(alloc: Global, text: &[u8], line: &[u8], out: &mut [u8]) -> usize
    ensures printed { result ≢ 0 → IsPrintedByCheckOwn text.now line.now (take result out.new) }
    ensures room { result ≤ length out.new }
{
    match printed(alloc, checked_own(alloc, text, line)) {
        Ok(line) => put(out, line.as_bytes()),
        Err(_) => 0,
    }
}

/// Returns what the program prints of a result.
fn printed(alloc: Global, came: Result<String, Trouble>) -> Result<String, AllocError>
    ensures { IfOk result (λ text. string_bytes text ≡ line_of came) }
{
    match came {
        Ok(text) => Ok(text),
        Err(Trouble::Failed(text)) => Ok(text),
        Err(Trouble::BadLine(number)) => {
            let mut line = String::new(alloc);
            writeln!(line, "bad line {number}")?;
            Ok(line)
        }
        Err(Trouble::Refused(refusal)) => refused(alloc, refusal),
    }
}

/// Returns the line of a refusal.
fn refused(alloc: Global, refusal: Refusal) -> Result<String, AllocError>
    ensures { IfOk result (λ text. string_bytes text ≡ refused_line refusal) }
{
    let mut line = String::new(alloc);
    let number = refusal.number();
    let name = refusal.name();
    writeln!(line, "refused {number}: {name}")?;
    Ok(line)
}

/// Puts a text at the start of a room, and answers its number of bytes: 0 where there is no room.
fn put(out: &mut [u8], text: &[u8]) -> usize
    ensures text { result ≢ 0 → take result out.new ≡ text.now }
    ensures room { result ≤ length out.new }
{
    let n = text.len();
    if out.len() < n {
        return 0;
    }
    out[..n].copy_from_slice(text);
    n
}
