//! Files of rows: offices in memory, each with its steps. `docs/TESTS.md` says how they are written.

use crate::cells::first_cell;
use crate::hand_made::judge_rows;
use crate::judged::holds;
use crate::played::{answer_of, filled, messages_of, numbered, otherwise, play_lines, play_twice};
use crate::school::{FIRST_EDITION, LISTED, SCHOOL};
use desk::Desk;
use sqlite::{Alter, Connection};
use std::alloc::Global;
use std::test::Fail;

/// Returns the text of a name: that of the school, of its lists and of its tables in the first edition, or one of these.
fn named<'a>(texts: &'a str, name: &str) -> Result<&'a str, Fail> {
    match name {
        "SCHOOL" => return Ok(SCHOOL),
        "LISTED" => return Ok(LISTED),
        "FIRST_EDITION" => return Ok(FIRST_EDITION),
        _ => {}
    }
    for text in texts.split("\n-- ") {
        let (head, rest) = text.split_once('\n').unwrap_or((text, ""));
        if head.split_once(':').is_some_and(|(found, _)| found == name) {
            return Ok(rest);
        }
    }
    Err(Fail::new(format_args!("no text {name}")))
}

/// Returns the texts of these names, one after another.
pub(crate) fn script(alloc: Global, texts: &str, names: &str) -> Result<String, Fail> {
    let mut all = String::new(alloc);
    for name in names.split_whitespace() {
        all.push_str(named(texts, name)?)?;
        all.push_str("\n")?;
    }
    Ok(all)
}

/// Returns a text for each number from the first to the last.
fn each(alloc: Global, texts: &str, cells: &str) -> Result<String, Fail> {
    let (first, cells) = first_cell(cells);
    let (last, name) = first_cell(cells);
    let text = named(texts, name.trim())?;
    let last: u32 = last.parse()?;
    let mut all = String::new(alloc);
    for n in first.parse()?..last.saturating_add(1) {
        all.push_str(&numbered(alloc, text, n)?)?;
        all.push_str("\n")?;
    }
    Ok(all)
}

/// Returns a row with its copies of each piece.
fn fill(alloc: Global, cells: &str) -> Result<String, Fail> {
    let (copies, cells) = first_cell(cells);
    let (pieces, row) = first_cell(cells);
    Ok(filled(alloc, copies.parse()?, pieces, row)?)
}

/// Returns the requests that a row stands for.
pub fn plain(alloc: Global, texts: &str, row: &str) -> Result<String, Fail> {
    let (word, cells) = row.split_once(' ').unwrap_or((row, ""));
    match word {
        "play" => script(alloc, texts, cells),
        "each" => each(alloc, texts, cells),
        "fill" => fill(alloc, cells),
        _ => Ok(String::from_str(alloc, row)?),
    }
}

/// Returns the messages of the requests that rows stand for, one after another, and their answers.
pub fn exchanged(alloc: Global, texts: &str, rows: &str) -> Result<(Vec<u8>, Vec<u8>), Fail> {
    let mut lines = String::new(alloc);
    for row in rows.lines() {
        lines.push_str(plain(alloc, texts, row)?.trim_end())?;
        lines.push_str("\n")?;
    }
    let mut answers = Vec::new(alloc);
    for line in lines.lines() {
        answers.extend_from_slice(&answer_of(alloc, line)?)?;
    }
    Ok((messages_of(alloc, &lines)?, answers))
}

/// Plays a row. How many requests were compared.
fn play_row<S: Alter>(
    alloc: Global,
    desk: &mut Desk<S>,
    texts: &str,
    row: &str,
) -> Result<u32, Fail> {
    match row.strip_prefix("twice ") {
        Some(asked) => play_twice(alloc, desk, asked),
        None => play_lines(alloc, desk, &plain(alloc, texts, row)?),
    }
}

/// Plays each row at a desk. How many requests were compared.
pub fn play_rows<S: Alter>(
    alloc: Global,
    desk: &mut Desk<S>,
    texts: &str,
    rows: &str,
) -> Result<u32, Fail> {
    let mut count: u32 = 0;
    for row in rows.lines() {
        count = count.saturating_add(play_row(alloc, desk, texts, row.trim())?);
    }
    Ok(count)
}

/// Plays the rows at the desk over tables, or compares the refusal with them where there is no desk.
pub fn play_over<S: Alter + Drop>(
    alloc: Global,
    connection: Connection<S>,
    texts: &str,
    rows: &str,
) -> Result<(u32, Connection<S>), Fail> {
    match Desk::open(alloc, connection) {
        Ok(mut desk) => {
            let count = play_rows(alloc, &mut desk, texts, rows);
            let connection = desk.into_connection();
            Ok((count?, connection))
        }
        Err((refusal, connection)) => {
            if refusal.name() != rows.trim() {
                return Err(otherwise(rows, refusal.name().as_bytes()));
            }
            Ok((1, connection))
        }
    }
}

/// Compares the number that a query answers.
pub fn find<S: Alter>(connection: &mut Connection<S>, cells: &str) -> Result<u32, Fail> {
    let (want, sql) = first_cell(cells);
    let found: i64 = connection.query_row(sql, &[])?.get(0)?;
    holds(found == want.parse()?, cells)?;
    Ok(1)
}

/// Does a step at tables. How many rows were compared.
fn do_step<S: Alter + Drop>(
    alloc: Global,
    mut connection: Connection<S>,
    texts: &str,
    step: &str,
) -> Result<(u32, Connection<S>), Fail> {
    let (head, rows) = step.split_once('\n').unwrap_or((step, ""));
    let (word, cells) = head.split_once(' ').unwrap_or((head, ""));
    let count = match word {
        "desk" => return play_over(alloc, connection, texts, rows),
        "tables" => judge_rows(alloc, texts, cells, rows)?,
        "make" => {
            connection.execute_batch(&script(alloc, texts, cells)?)?;
            0
        }
        "found" => find(&mut connection, cells)?,
        _ => return Err(Fail::new(format_args!("no step {head}"))),
    };
    Ok((count, connection))
}

/// Does the steps of an office in order. How many rows were compared.
fn do_steps<S: Alter + Drop>(
    alloc: Global,
    mut connection: Connection<S>,
    texts: &str,
    office: &str,
) -> Result<u32, Fail> {
    let mut steps = office.split("\n= ");
    let title = steps.next().unwrap_or("");
    holds(!title.contains('|'), title)?;
    let mut count: u32 = 0;
    for step in steps {
        let (compared, left) = do_step(alloc, connection, texts, step)?;
        connection = left;
        count = count.saturating_add(compared);
    }
    Ok(count)
}

/// Plays an office over tables of its own. How many rows were compared.
pub fn play_office(alloc: Global, texts: &str, office: &str) -> Result<u32, Fail> {
    let connection = Connection::open_in_memory(alloc)?;
    do_steps(alloc, connection, texts, office)
}
