//! What a database keeps: the texts of its schema, and the rows of its tables.

use sqlite::{Alter, Connection, Error};
use std::alloc::{AllocError, Global};

/// The texts of the schema, and then the rows of each table in the order of their keys, each as one text. Texts of rows stand by
/// their bytes, since not all need be UTF-8.
#[rattlefmt::skip]
static QUERIES: [&str; 13] = [
    "SELECT group_concat(sql) FROM sqlite_schema",
    "SELECT group_concat(a) FROM other",
    "SELECT group_concat(id || ':' || number) FROM edition",
    "SELECT group_concat(it) FROM (SELECT hex(code) || ':' || hex(label) || ':' || quota AS it FROM supervisor ORDER BY code)",
    "SELECT group_concat(it) FROM (SELECT hex(code) || ':' || hex(label) || ':' || hex(supervisor) || ':' || quota AS it FROM project ORDER BY code)",
    "SELECT group_concat(it) FROM (SELECT hex(code) || ':' || hex(label) AS it FROM student ORDER BY code)",
    "SELECT group_concat(it) FROM (SELECT number || ':' || open AS it FROM round ORDER BY number)",
    "SELECT group_concat(it) FROM (SELECT round || ':' || hex(student) || ':' || place || ':' || hex(project) AS it FROM choice ORDER BY round, student, place)",
    "SELECT group_concat(it) FROM (SELECT hex(student) || ':' || round || ':' || hex(project) || ':' || rank AS it FROM placement ORDER BY student)",
    "SELECT group_concat(it) FROM (SELECT hex(id) || ':' || hex(kind) || ':' || hex(bytes) || ':' || rows AS it FROM import ORDER BY id)",
    "SELECT group_concat(it) FROM (SELECT round || ':' || generous AS it FROM round_aim ORDER BY round)",
    "SELECT group_concat(it) FROM (SELECT round || ':' || hex(student) || ':' || place || ':' || hex(project) AS it FROM choice12 ORDER BY round, student, place)",
    "SELECT group_concat(it) FROM (SELECT hex(student) || ':' || round || ':' || hex(project) || ':' || rank AS it FROM placement12 ORDER BY student)",
];

/// Returns the text that a query answers, where it answers one.
fn told<S: Alter>(conn: &mut Connection<S>, sql: &str) -> Result<Option<String>, Error> {
    conn.query_row(sql, &[])?.get(0)
}

/// Returns what a database stores. Of a table that is not there nothing is written, and of one without rows an empty line.
pub fn kept_by<S: Alter>(alloc: Global, conn: &mut Connection<S>) -> Result<String, AllocError> {
    let mut all = String::new(alloc);
    for sql in QUERIES.as_slice() {
        if let Ok(text) = told(conn, sql) {
            if let Some(text) = text {
                all.push_str(&text)?;
            }
            all.push_str("\n")?;
        }
    }
    Ok(all)
}

/// Whether a database keeps this.
pub fn keeps<S: Alter>(
    alloc: Global,
    conn: &mut Connection<S>,
    want: &str,
) -> Result<bool, AllocError> {
    Ok(kept_by(alloc, conn)?.as_str() == want)
}
