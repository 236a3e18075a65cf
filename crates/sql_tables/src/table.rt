//! The tables as SQL has them: columns, keys, references, and the texts of their statements.

ghost use Rattle.std.specs.Prelude.{◌≡◌, length};
ghost use Rattle.schema.specs.Rows.{kinds_of};
ghost use Rattle.sql_tables.specs.Table.{shape_of, sql_of};
ghost use Rattle.sql_tables.specs.Inside.Table.{texts_by, shape_by, removal};

use schema::{Group, Table};
use sqlite_schema::schema::Kind;

/// A column of a table, by its name and its kind: NOT NULL, with no default.
pub(crate) struct DeclaredColumn(pub &'static str, pub Kind);

const BYTES: DeclaredColumn = DeclaredColumn("bytes", Kind::Blob);

const CODE: DeclaredColumn = DeclaredColumn("code", Kind::Text);

const GENEROUS: DeclaredColumn = DeclaredColumn("generous", Kind::Integer);

const ID: DeclaredColumn = DeclaredColumn("id", Kind::Integer);

const IMPORT: DeclaredColumn = DeclaredColumn("id", Kind::Text);

const KIND: DeclaredColumn = DeclaredColumn("kind", Kind::Text);

const LABEL: DeclaredColumn = DeclaredColumn("label", Kind::Text);

const NUMBER: DeclaredColumn = DeclaredColumn("number", Kind::Integer);

const OPEN: DeclaredColumn = DeclaredColumn("open", Kind::Integer);

const PLACE: DeclaredColumn = DeclaredColumn("place", Kind::Integer);

const PROJECT: DeclaredColumn = DeclaredColumn("project", Kind::Text);

const QUOTA: DeclaredColumn = DeclaredColumn("quota", Kind::Integer);

const RANK: DeclaredColumn = DeclaredColumn("rank", Kind::Integer);

const ROUND: DeclaredColumn = DeclaredColumn("round", Kind::Integer);

const ROWS: DeclaredColumn = DeclaredColumn("rows", Kind::Integer);

const STUDENT: DeclaredColumn = DeclaredColumn("student", Kind::Text);

const SUPERVISOR: DeclaredColumn = DeclaredColumn("supervisor", Kind::Text);

/// The column of another table by which its rows are named.
pub(crate) struct Parent {
    pub table: &'static str,
    pub column: &'static str,
}

#[rattlefmt::skip]
const SUPERVISORS: Parent = Parent { table: "supervisor", column: "code" };

#[rattlefmt::skip]
const PROJECTS: Parent = Parent { table: "project", column: "code" };

#[rattlefmt::skip]
const STUDENTS: Parent = Parent { table: "student", column: "code" };

#[rattlefmt::skip]
const ROUNDS: Parent = Parent { table: "round", column: "number" };

/// A reference from a column, which is counted from 1, with 0 for the rowid, to another table, with NO ACTION.
pub(crate) struct Link(pub usize, pub Parent);

/// The keys of a table. Columns are counted from 1, and 0 stands for the rowid.
pub(crate) struct Keys {
    /// The position of the column that is the rowid, if one is.
    pub rowid: Option<usize>,
    /// The key, which is the first columns or the rowid.
    pub primary: &'static [usize],
    /// Columns that no two rows share, the key among them unless it is the rowid.
    pub uniques: &'static [&'static [usize]],
}

/// The first column is the key, a text.
const BY_TEXT: Keys = Keys {
    rowid: None,
    primary: &[1],
    uniques: &[&[1]],
};

// In SQLite `INTEGER PRIMARY KEY` names the rowid itself: there is no further index, so no unique columns are listed.
/// The first column is the key, a number: the rowid.
const BY_ROWID: Keys = Keys {
    rowid: Some(0),
    primary: &[0],
    uniques: &[],
};

/// The first three columns are the key: a round, a student and a place. No two rows share a round, a student and a project.
const BY_PLACE: Keys = Keys {
    rowid: None,
    primary: &[1, 2, 3],
    uniques: &[&[1, 2, 3], &[1, 2, 4]],
};

/// The columns of a choice, and to which tables they refer.
const CHOICE_COLUMNS: &[DeclaredColumn] = &[ROUND, STUDENT, PLACE, PROJECT];

const CHOICE_LINKS: &[Link] = &[Link(1, ROUNDS), Link(2, STUDENTS), Link(4, PROJECTS)];

/// Those of a placement.
const PLACEMENT_COLUMNS: &[DeclaredColumn] = &[STUDENT, ROUND, PROJECT, RANK];

const PLACEMENT_LINKS: &[Link] = &[Link(1, STUDENTS), Link(2, ROUNDS), Link(3, PROJECTS)];

/// A table's description: what it is, and what its statements say.
pub(crate) struct Shape {
    pub name: &'static str,
    pub columns: &'static [DeclaredColumn],
    pub keys: Keys,
    pub links: &'static [Link],
    pub create: &'static str,
    pub insert: &'static str,
    pub update: &'static str,
    pub delete: &'static str,
    pub select: &'static str,
}

/// The tables.
#[rattlefmt::skip]
mod rows {
    use super::{BYTES, BY_PLACE, BY_ROWID, BY_TEXT, CHOICE_COLUMNS, CHOICE_LINKS, CODE, GENEROUS, ID, IMPORT, KIND, LABEL, NUMBER, OPEN, PLACEMENT_COLUMNS, PLACEMENT_LINKS, QUOTA, ROUND, ROUNDS, ROWS, SUPERVISOR, SUPERVISORS, Link, Shape};

    // Written out, and not made from the columns: so what the database reads stands here, and how it reads each is computed once.
    // A query shows the rowid first, by which its rows are put in order: ORDER BY would ask more of each proof of a reading.
    pub(crate) static EDITION_SHAPE: Shape = Shape { name: "edition", columns: &[ID, NUMBER], keys: BY_ROWID, links: &[],
        create: "CREATE TABLE edition (id INTEGER NOT NULL PRIMARY KEY CHECK (id = 1), number INTEGER NOT NULL) STRICT",
        insert: "INSERT INTO edition (id, number) VALUES (?1, ?2)", update: "UPDATE edition SET number = ?2 WHERE id = ?1",
        delete: "DELETE FROM edition WHERE id = ?1", select: "SELECT rowid, * FROM edition" };

    pub(crate) static SUPERVISOR_SHAPE: Shape = Shape { name: "supervisor", columns: &[CODE, LABEL, QUOTA], keys: BY_TEXT, links: &[],
        create: "CREATE TABLE supervisor (code TEXT NOT NULL PRIMARY KEY, label TEXT NOT NULL, quota INTEGER NOT NULL CHECK (quota BETWEEN 0 AND 500)) STRICT",
        insert: "INSERT INTO supervisor (code, label, quota) VALUES (?1, ?2, ?3)", update: "UPDATE supervisor SET code = ?1, label = ?2, quota = ?3 WHERE code = ?1",
        delete: "DELETE FROM supervisor WHERE code = ?1", select: "SELECT rowid, * FROM supervisor" };

    pub(crate) static PROJECT_SHAPE: Shape = Shape { name: "project", columns: &[CODE, LABEL, SUPERVISOR, QUOTA], keys: BY_TEXT, links: &[Link(3, SUPERVISORS)],
        create: "CREATE TABLE project (code TEXT NOT NULL PRIMARY KEY, label TEXT NOT NULL, supervisor TEXT NOT NULL REFERENCES supervisor (code), quota INTEGER NOT NULL CHECK (quota BETWEEN 0 AND 500)) STRICT",
        insert: "INSERT INTO project (code, label, supervisor, quota) VALUES (?1, ?2, ?3, ?4)", update: "UPDATE project SET code = ?1, label = ?2, supervisor = ?3, quota = ?4 WHERE code = ?1",
        delete: "DELETE FROM project WHERE code = ?1", select: "SELECT rowid, * FROM project" };

    pub(crate) static STUDENT_SHAPE: Shape = Shape { name: "student", columns: &[CODE, LABEL], keys: BY_TEXT, links: &[],
        create: "CREATE TABLE student (code TEXT NOT NULL PRIMARY KEY, label TEXT NOT NULL) STRICT",
        insert: "INSERT INTO student (code, label) VALUES (?1, ?2)", update: "UPDATE student SET code = ?1, label = ?2 WHERE code = ?1",
        delete: "DELETE FROM student WHERE code = ?1", select: "SELECT rowid, * FROM student" };

    pub(crate) static ROUND_SHAPE: Shape = Shape { name: "round", columns: &[NUMBER, OPEN], keys: BY_ROWID, links: &[],
        create: "CREATE TABLE round (number INTEGER NOT NULL PRIMARY KEY, open INTEGER NOT NULL CHECK (open IN (0, 1))) STRICT",
        insert: "INSERT INTO round (number, open) VALUES (?1, ?2)", update: "UPDATE round SET open = ?2 WHERE number = ?1",
        delete: "DELETE FROM round WHERE number = ?1", select: "SELECT rowid, * FROM round" };

    // As editions 1 and 2 made it, with the CHECK of eight: a table has one shape in all editions, so no migration changes one.
    pub(crate) static OLD_CHOICE_SHAPE: Shape = Shape { name: "choice", columns: CHOICE_COLUMNS, keys: BY_PLACE, links: CHOICE_LINKS,
        create: "CREATE TABLE choice (round INTEGER NOT NULL REFERENCES round (number), student TEXT NOT NULL REFERENCES student (code), place INTEGER NOT NULL CHECK (place BETWEEN 1 AND 8), project TEXT NOT NULL REFERENCES project (code), PRIMARY KEY (round, student, place), UNIQUE (round, student, project)) STRICT",
        insert: "INSERT INTO choice (round, student, place, project) VALUES (?1, ?2, ?3, ?4)", update: "UPDATE choice SET round = ?1, student = ?2, place = ?3, project = ?4 WHERE round = ?1 AND student = ?2 AND place = ?3",
        delete: "DELETE FROM choice WHERE round = ?1 AND student = ?2 AND place = ?3", select: "SELECT rowid, * FROM choice" };

    pub(crate) static OLD_PLACEMENT_SHAPE: Shape = Shape { name: "placement", columns: PLACEMENT_COLUMNS, keys: BY_TEXT, links: PLACEMENT_LINKS,
        create: "CREATE TABLE placement (student TEXT NOT NULL PRIMARY KEY REFERENCES student (code), round INTEGER NOT NULL REFERENCES round (number), project TEXT NOT NULL REFERENCES project (code), rank INTEGER NOT NULL CHECK (rank BETWEEN 1 AND 8)) STRICT",
        insert: "INSERT INTO placement (student, round, project, rank) VALUES (?1, ?2, ?3, ?4)", update: "UPDATE placement SET student = ?1, round = ?2, project = ?3, rank = ?4 WHERE student = ?1",
        delete: "DELETE FROM placement WHERE student = ?1", select: "SELECT rowid, * FROM placement" };

    pub(crate) static IMPORT_SHAPE: Shape = Shape { name: "import", columns: &[IMPORT, KIND, BYTES, ROWS], keys: BY_TEXT, links: &[],
        create: "CREATE TABLE import (id TEXT NOT NULL PRIMARY KEY, kind TEXT NOT NULL CHECK (kind IN ('supervisors', 'projects', 'students', 'lists')), bytes BLOB NOT NULL, rows INTEGER NOT NULL) STRICT",
        insert: "INSERT INTO import (id, kind, bytes, rows) VALUES (?1, ?2, ?3, ?4)", update: "UPDATE import SET id = ?1, kind = ?2, bytes = ?3, rows = ?4 WHERE id = ?1",
        delete: "DELETE FROM import WHERE id = ?1", select: "SELECT rowid, * FROM import" };

    pub(crate) static ROUND_AIM_SHAPE: Shape = Shape { name: "round_aim", columns: &[ROUND, GENEROUS], keys: BY_ROWID, links: &[Link(0, ROUNDS)],
        create: "CREATE TABLE round_aim (round INTEGER NOT NULL PRIMARY KEY REFERENCES round (number), generous INTEGER NOT NULL CHECK (generous IN (0, 1))) STRICT",
        insert: "INSERT INTO round_aim (round, generous) VALUES (?1, ?2)", update: "UPDATE round_aim SET generous = ?2 WHERE round = ?1",
        delete: "DELETE FROM round_aim WHERE round = ?1", select: "SELECT rowid, * FROM round_aim" };

    pub(crate) static CHOICE_SHAPE: Shape = Shape { name: "choice12", columns: CHOICE_COLUMNS, keys: BY_PLACE, links: CHOICE_LINKS,
        create: "CREATE TABLE choice12 (round INTEGER NOT NULL REFERENCES round (number), student TEXT NOT NULL REFERENCES student (code), place INTEGER NOT NULL CHECK (place BETWEEN 1 AND 12), project TEXT NOT NULL REFERENCES project (code), PRIMARY KEY (round, student, place), UNIQUE (round, student, project)) STRICT",
        insert: "INSERT INTO choice12 (round, student, place, project) VALUES (?1, ?2, ?3, ?4)", update: "UPDATE choice12 SET round = ?1, student = ?2, place = ?3, project = ?4 WHERE round = ?1 AND student = ?2 AND place = ?3",
        delete: "DELETE FROM choice12 WHERE round = ?1 AND student = ?2 AND place = ?3", select: "SELECT rowid, * FROM choice12" };

    pub(crate) static PLACEMENT_SHAPE: Shape = Shape { name: "placement12", columns: PLACEMENT_COLUMNS, keys: BY_TEXT, links: PLACEMENT_LINKS,
        create: "CREATE TABLE placement12 (student TEXT NOT NULL PRIMARY KEY REFERENCES student (code), round INTEGER NOT NULL REFERENCES round (number), project TEXT NOT NULL REFERENCES project (code), rank INTEGER NOT NULL CHECK (rank BETWEEN 1 AND 12)) STRICT",
        insert: "INSERT INTO placement12 (student, round, project, rank) VALUES (?1, ?2, ?3, ?4)", update: "UPDATE placement12 SET student = ?1, round = ?2, project = ?3, rank = ?4 WHERE student = ?1",
        delete: "DELETE FROM placement12 WHERE student = ?1", select: "SELECT rowid, * FROM placement12" };
}

/// Returns the text that takes the rows of a group out of their table.
pub(crate) fn removal(group: Group) -> &'static str
    ensures { result.now ≡ removal group }
{
    // Of the latest edition alone: rows of the earlier tables are taken out one by one, by their keys, when these are migrated.
    match group {
        Group::Key(table) => table.shape().delete,
        Group::List => "DELETE FROM choice12 WHERE round = ?1 AND student = ?2",
        Group::Placed => "DELETE FROM placement12 WHERE round = ?1",
    }
}

// A trait, since `Table` is of `schema`, which knows no SQL.
/// What has a shape.
pub(crate) trait Shaped {
    fn shape(self) -> &'static Shape;
}

impl Shaped for Table {
    /// Returns what the table is, and what its statements say.
    fn shape(self) -> &'static Shape
        ensures shape { shape_by result.now ≡ shape_of self }
        ensures texts { texts_by result.now ≡ sql_of self }
    {
        match self {
            Table::Edition => &rows::EDITION_SHAPE,
            Table::Supervisor => &rows::SUPERVISOR_SHAPE,
            Table::Project => &rows::PROJECT_SHAPE,
            Table::Student => &rows::STUDENT_SHAPE,
            Table::Round => &rows::ROUND_SHAPE,
            Table::OldChoice => &rows::OLD_CHOICE_SHAPE,
            Table::OldPlacement => &rows::OLD_PLACEMENT_SHAPE,
            Table::Import => &rows::IMPORT_SHAPE,
            Table::RoundAim => &rows::ROUND_AIM_SHAPE,
            Table::Choice => &rows::CHOICE_SHAPE,
            Table::Placement => &rows::PLACEMENT_SHAPE,
        }
    }
}
