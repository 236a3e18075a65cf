//! Texts of rows: repeated pieces, and texts that are described by their lengths and their hashes.
//!
//! `^{FIRST END PIECE^}` is the piece once for each number from the first up to the end. In it `@@` is the number, and
//! `@A B M C@` is the number times A and B more, by the remainder of M, and C more.
//!
//! A cell `^#LENGTH HASH` stands for LENGTH bytes with this hash, FNV-1a.

use crate::unplayed::Unplayed;
use std::alloc::Global;
use std::fmt::Write;
use testing::cells::body_of;

/// Returns the next number of a text, and what comes after the blank that follows it.
fn number(text: &str) -> Result<(u32, &str), Unplayed> {
    let (word, rest) = text.split_once(' ').unwrap_or((text, ""));
    Ok((word.parse()?, rest))
}

/// Returns what a formula is at a number.
fn value(formula: &str, n: u32) -> Result<u32, Unplayed> {
    if formula.is_empty() {
        return Ok(n);
    }
    let (times, rest) = number(formula)?;
    let (more, rest) = number(rest)?;
    let (modulus, rest) = number(rest)?;
    let (base, _rest) = number(rest)?;
    let sum = n.wrapping_mul(times).wrapping_add(more);
    Ok(sum.checked_rem(modulus).unwrap_or(0).wrapping_add(base))
}

/// Appends a piece at a number.
fn push_numbered(all: &mut String, piece: &str, n: u32) -> Result<(), Unplayed> {
    let mut is_formula = false;
    for part in piece.split('@') {
        if is_formula {
            write!(all, "{}", value(part, n)?)?;
        } else {
            all.push_str(part)?;
        }
        is_formula = !is_formula;
    }
    Ok(())
}

/// Returns a text at a number.
pub(crate) fn numbered(alloc: Global, text: &str, n: u32) -> Result<String, Unplayed> {
    let mut all = String::new(alloc);
    push_numbered(&mut all, text, n)?;
    Ok(all)
}

/// Returns the numbers from the first up to the end that a text begins with, and what comes after them.
pub(crate) fn range(text: &str) -> Result<(u32, u32, &str), Unplayed> {
    let (first, rest) = number(text)?;
    let (end, rest) = number(rest)?;
    Ok((first, end, rest))
}

/// Appends a repeated piece.
fn push_copies(all: &mut String, counted: &str) -> Result<(), Unplayed> {
    let (first, end, piece) = range(counted)?;
    for n in first..end {
        push_numbered(all, piece, n)?;
    }
    Ok(())
}

/// Returns a row whose repeated pieces are written out.
pub(crate) fn written_out(alloc: Global, row: &str) -> Result<String, Unplayed> {
    let mut all = String::new(alloc);
    for part in row.split("^{") {
        match part.split_once("^}") {
            Some((counted, rest)) => {
                push_copies(&mut all, counted)?;
                all.push_str(rest)?;
            }
            None => all.push_str(part)?,
        }
    }
    Ok(all)
}

/// Returns the hash of bytes.
fn hash_of(bytes: &[u8]) -> u64 {
    let mut hash = 0xcbf2_9ce4_8422_2325;
    for byte in bytes {
        hash = (hash ^ u64::from(*byte)).wrapping_mul(0x0000_0100_0000_01b3);
    }
    hash
}

/// Describes bytes by their length and their hash.
pub(crate) fn summed(alloc: Global, bytes: &[u8]) -> Result<String, Unplayed> {
    Ok(format!(in alloc; "^#{} {:016x}", bytes.len(), hash_of(bytes))?)
}

/// Whether this is what a cell stands for.
pub(crate) fn matches_cell(alloc: Global, got: &[u8], cell: &str) -> Result<bool, Unplayed> {
    if cell.starts_with("^#") {
        return Ok(summed(alloc, got)?.as_str() == cell);
    }
    Ok(body_of(alloc, cell)?.as_slice() == got)
}
