//! Rows, one after another.

use crate::in_memory::{is_of_offices, play_offices};
use crate::over_files::{Over, do_on};
use crate::texts::{matches_cell, summed, written_out};
use crate::unplayed::Unplayed;
use cli::{Outputs, run_command};
use host::Machine;
use sqlite::Unknown;
use std::io::Write;
use std::rt::HostRuntime;
use std::{fs, str};
use testing::cells::{body_of, first_cell};
use web::Watched;

/// What a command printed on standard output and on standard error, and its status.
#[derive(Drop)]
struct Printed {
    out: Vec<u8>,
    err: Vec<u8>,
    status: u8,
}

/// Prints a row that gave something else, and what it gave.
pub(crate) fn compare(
    rt: &HostRuntime,
    row: &str,
    is_well: bool,
    told: &[u8],
) -> Result<(), Unplayed> {
    if !is_well {
        let sum = summed(rt.alloc(), told)?;
        println!(rt; "{row}\ntold {sum}\n{}", str::from_utf8(told).unwrap_or(""))?;
    }
    Ok(())
}

/// Does the command of these words on this machine. Its status.
fn status_of<O: Write + Drop, E: Write + Drop>(
    rt: &HostRuntime,
    words: &[String],
    out: O,
    err: E,
) -> u8 {
    let mut outputs = Outputs::new(Watched::new(out), Watched::new(err));
    let machine = Machine::new(*rt, Unknown);
    let (status, _closing) = run_command(rt.alloc(), machine, words, &mut outputs);
    status.number()
}

/// Does the command of these words.
fn command(rt: &HostRuntime, words: &str) -> Result<Printed, Unplayed> {
    let alloc = rt.alloc();
    let mut list = Vec::new(alloc);
    for word in words.split(' ') {
        list.push(String::from_str(alloc, word)?)?;
    }
    let mut out = Vec::new(alloc);
    let mut err = Vec::new(alloc);
    let status = status_of(rt, &list, &mut out, &mut err);
    Ok(Printed { out, err, status })
}

/// Does the command of these words, and compares its status and what it prints.
fn play_command(rt: &HostRuntime, words: &str, cells: &str) -> Result<u32, Unplayed> {
    let (status, rest) = first_cell(cells);
    let (out, rest) = first_cell(rest);
    let (err, _shown) = first_cell(rest);
    let mut got = command(rt, words)?;
    let is_well = got.status == status.parse()?
        && matches_cell(rt.alloc(), &got.out, out)?
        && matches_cell(rt.alloc(), &got.err, err)?;
    got.out.extend_from_slice(&got.err)?;
    compare(rt, words, is_well, &got.out)?;
    Ok(1)
}

/// Solves a round, and compares what is printed up to the first price; then checks what was printed.
fn play_solved(rt: &HostRuntime, cells: &str) -> Result<u32, Unplayed> {
    let (round, rest) = first_cell(cells);
    let (pairs, checked) = first_cell(rest);
    let mut want = body_of(rt.alloc(), round)?;
    fs::write(rt, "round.txt", &want)?;
    want.extend_from_slice(&body_of(rt.alloc(), pairs)?)?;
    let got = command(rt, "spadesk solve round.txt")?;
    let is_well = got.status == 0 && got.err.is_empty() && got.out.starts_with(&want);
    compare(rt, cells, is_well, &got.out)?;
    fs::write(rt, "round.txt", &got.out)?;
    play_command(rt, "spadesk check round.txt", checked)?;
    Ok(2)
}

/// Compares two files.
fn play_same(rt: &HostRuntime, name: &str, other: &str) -> Result<u32, Unplayed> {
    let bytes = fs::read(rt, name)?;
    let is_well = fs::read(rt, other)?.as_slice() == bytes.as_slice();
    compare(rt, name, is_well, b"")?;
    Ok(1)
}

/// Compares that no file has this name.
fn play_absent(rt: &HostRuntime, name: &str) -> Result<u32, Unplayed> {
    let is_well = fs::read(rt, name).is_err();
    compare(rt, name, is_well, b"")?;
    Ok(1)
}

/// Writes the first bytes of a file to another.
fn cut(rt: &HostRuntime, names: &str, count: &str) -> Result<u32, Unplayed> {
    let (name, other) = names.split_once(' ').unwrap_or((names, names));
    let bytes = fs::read(rt, name)?;
    let len = bytes.len().min(count.trim().parse()?);
    fs::write(rt, other, &bytes[..len])?;
    Ok(0)
}

/// Plays a row about files: it makes one, or compares two.
fn play_files(rt: &HostRuntime, verb: &str, names: &str, cells: &str) -> Result<u32, Unplayed> {
    let (name, other) = names.split_once(' ').unwrap_or((names, names));
    match verb {
        "file" => fs::write(rt, name, &body_of(rt.alloc(), cells)?)?,
        "copy" => fs::write(rt, other, &fs::read(rt, name)?)?,
        "same" => return play_same(rt, name, other),
        "absent" => return play_absent(rt, name),
        "cut" => return cut(rt, names, cells),
        "sql" => return do_on(rt, name, Over::Done, &fs::read_to_string(rt, other)?),
        _ => return Err(Unplayed),
    }
    Ok(0)
}

/// Plays a row. The number of rows that were compared.
fn play_row(rt: &HostRuntime, row: &str) -> Result<u32, Unplayed> {
    let row = written_out(rt.alloc(), row)?;
    let (first, cells) = first_cell(&row);
    let (verb, names) = first.split_once(' ').unwrap_or((first, ""));
    match verb {
        "" | "#" => Ok(0),
        "spadesk" => play_command(rt, first, cells),
        "solved" => play_solved(rt, cells),
        "round" => {
            let (text, rest) = first_cell(cells);
            fs::write(rt, "round.txt", &body_of(rt.alloc(), text)?)?;
            let (words, rest) = first_cell(rest);
            play_command(rt, words, rest)
        }
        _ => play_files(rt, verb, names, cells.trim()),
    }
}

/// Plays rows: the first of those that are asked over HTTP names their database, and else each is played by itself.
fn play_paragraph(rt: &HostRuntime, rows: &str) -> Result<u32, Unplayed> {
    if let Some((database, asked)) = rows.strip_prefix("at ").and_then(|it| it.split_once('\n')) {
        return do_on(rt, database, Over::Asked, asked);
    }
    let mut count = 0u32;
    for row in rows.lines() {
        count = count.saturating_add(play_row(rt, row)?);
    }
    Ok(count)
}

/// Plays rows, which empty lines part. The number of rows that were compared.
fn play_rows(rt: &HostRuntime, text: &str) -> Result<u32, Unplayed> {
    let mut count = 0u32;
    for rows in text.split("\n\n") {
        match play_paragraph(rt, rows) {
            Ok(more) => count = count.saturating_add(more),
            Err(_) => println!(rt; "{rows}\nis not played to its end")?,
        }
    }
    Ok(count)
}

/// Plays the rows of a file, and prints how many were compared.
pub(crate) fn play_file(rt: &HostRuntime, name: &str) -> Result<(), Unplayed> {
    let text = fs::read_to_string(rt, name)?;
    let count = if is_of_offices(&text) {
        play_offices(rt, &text)
    } else {
        play_rows(rt, &text)?
    };
    println!(rt; "{name} {count}")?;
    Ok(())
}
