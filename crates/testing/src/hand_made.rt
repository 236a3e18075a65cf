//! Tables that were made by hand: what each row of them is opened as.

use crate::cells::first_cell;
use crate::judged::holds;
use crate::kept::kept_by;
use crate::offices::{play_over, script};
use crate::played::is_row;
use sqlite::{Alter, Connection, MemStore};
use std::alloc::Global;
use std::test::Fail;

/// Returns the database that a text makes.
fn made(alloc: Global, sql: &str) -> Result<Connection<MemStore>, Fail> {
    let mut connection = Connection::open_in_memory(alloc)?;
    connection.execute_batch(sql)?;
    Ok(connection)
}

/// Compares what tables are opened as, and what they keep then: this, or where nothing is wanted what they kept before.
fn judge<S: Alter + Drop>(
    alloc: Global,
    mut connection: Connection<S>,
    line: &str,
    wanted: Option<&str>,
) -> Result<(), Fail> {
    let stood = kept_by(alloc, &mut connection)?;
    let (_count, mut connection) = play_over(alloc, connection, "", line)?;
    let kept = kept_by(alloc, &mut connection)?;
    let is_kept = kept.as_str() == wanted.unwrap_or(&stood);
    holds(is_kept, line)
}

/// Judges the tables of a row as they are made, and migrated by hand by each of these editions in order. Where there is a desk over
/// them, all are opened as those of the last edition; else each is left as it is.
fn judge_row(
    alloc: Global,
    texts: &str,
    (made_by, migrated_by): (&str, &str),
    row: &str,
) -> Result<(), Fail> {
    let (_name, cells) = first_cell(row);
    let (added, line) = first_cell(cells);
    let mut sql = script(alloc, texts, made_by)?;
    sql.push_str(added)?;
    sql.push_str(";\n")?;
    let all = script(alloc, texts, migrated_by)?;
    let latest = format!(in alloc; "{sql}{all}")?;
    let kept = kept_by(alloc, &mut made(alloc, &latest)?)?;
    let wanted = if line.contains('|') {
        Some(kept.as_str())
    } else {
        None
    };
    for edition in migrated_by.split_whitespace() {
        judge(alloc, made(alloc, &sql)?, line, wanted)?;
        sql.push_str(&script(alloc, texts, edition)?)?;
    }
    judge(alloc, made(alloc, &sql)?, line, wanted)
}

/// Judges the tables of each row: what makes them all, what migrates them, and the rows. How many there are.
pub(crate) fn judge_rows(alloc: Global, texts: &str, cells: &str, rows: &str) -> Result<u32, Fail> {
    let tables = first_cell(cells);
    let mut count: u32 = 0;
    for row in rows.lines() {
        if is_row(row) {
            judge_row(alloc, texts, tables, row)?;
            count = count.saturating_add(1);
        }
    }
    Ok(count)
}
