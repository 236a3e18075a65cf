//! The office for a host that is no program, such as a page in a browser: the bytes of a database file and of a stream of requests in,
//! the bytes of the answers and of the file after them out.
//!
//! Promised: what `page_office` puts is what `serve_stream` of `web` writes for the stream at the office of the file's tables, and a file
//! whose tables stand for the office after it. Begin with `specs/Served.antt`. The file is in memory, which gives back what was written,
//! so nothing is supposed of a disk. What a host owes, nothing here can hold it to: `file`, `stream` and the rooms are memory of the
//! module, separate from each other and from its heap.
#![tactic(auto)]

mod serving;
#[cfg(test)]
mod tests;

ghost use Rattle.std.specs.Prelude.{◌≡◌, ◌≢◌, List, ℕ, true, false};
ghost use Rattle.page_office.specs.Served.{ArePut, IsServedOver, IsDamagedFile};

use serving::serve_file;
use std::alloc::Global;

/// What is answered where a room is too small.
const NO_ROOM: usize = 255;

/// Serves the stream at the office of the file: puts the answers into `answers`, the file after them into `left`, and how many bytes both
/// have into `lengths`. A file without bytes is a new one. Answers 0; or the number of the refusal by which nothing was served: 1 where
/// memory is short, 2 where the file is no database, 30 where its tables are those of no office; or `NO_ROOM`. Then nothing is put.
#[unsafe(no_mangle)]
pub extern "C" fn page_office(
    alloc: Global,
    file: &[u8],
    stream: &[u8],
    answers: &mut [u8],
    left: &mut [u8],
    lengths: &mut [usize],
) -> usize
    ensures served { result ≡ 0 → (told after : List ℕ) × IsServedOver file.now stream.now told after × ArePut told after answers.new left.new lengths.new }
    ensures damaged { result ≡ 30 → IsDamagedFile file.now }
    ensures kept { result ≢ 0 → (answers.new ≡ answers.old) × (left.new ≡ left.old) × (lengths.new ≡ lengths.old) }
{
    match serve_file(alloc, file, stream) {
        Ok((told, files)) => {
            if put(&told, files.db.bytes(), answers, left, lengths) {
                0
            } else {
                NO_ROOM
            }
        }
        Err(refusal) => refusal.number() as usize,
    }
}

/// Puts the answers and the file at the start of their rooms, and their lengths into `lengths`, where there is room for all: whether there
/// is.
fn put(told: &[u8], file: &[u8], answers: &mut [u8], left: &mut [u8], lengths: &mut [usize]) -> bool
    ensures put { result ≡ true → ArePut told.now file.now answers.new left.new lengths.new }
    ensures kept { result ≡ false → (answers.new ≡ answers.old) × (left.new ≡ left.old) × (lengths.new ≡ lengths.old) }
{
    let n = told.len();
    let m = file.len();
    if answers.len() < n || left.len() < m || lengths.len() != 2 {
        return false;
    }
    answers[..n].copy_from_slice(told);
    left[..m].copy_from_slice(file);
    lengths.copy_from_slice(&[n, m]);
    true
}
