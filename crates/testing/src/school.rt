//! A small school, which several plays begin with.

/// A supervisor of quota 5 with projects P and Q of quota 1 and Z of quota 0, and students A, B and C.
#[rattlefmt::skip]
pub const SCHOOL: &str =
    r#"PUT /supervisors/L | {"name":"Lee","quota":5}                    | 200 OK | {"ok":true}
       PUT /projects/P    | {"name":"Pumps","quota":1,"supervisor":"L"} | 200 OK | {"ok":true}
       PUT /projects/Q    | {"name":"Quays","quota":1,"supervisor":"L"} | 200 OK | {"ok":true}
       PUT /projects/Z    | {"name":"Zinc","quota":0,"supervisor":"L"}  | 200 OK | {"ok":true}
       PUT /students/A    | {"name":"Ann"}                              | 200 OK | {"ok":true}
       PUT /students/B    | {"name":"Bob"}                              | 200 OK | {"ok":true}
       PUT /students/C    | {"name":"Cy"}                               | 200 OK | {"ok":true}"#;

/// A round is open, in which A lists P and Q, and C lists Z and P.
#[rattlefmt::skip]
pub const LISTED: &str =
    r#"POST /rounds | | 200 OK | {"round":1}
       PUT /lists/A | {"choices":["P","Q"]} | 200 OK | {"ok":true}
       PUT /lists/C | {"choices":["Z","P"]} | 200 OK | {"ok":true}"#;

/// The tables of the first edition, as they were made then, in which rounds had no aim: the round is closed, and another is open, in which
/// B lists Z. B came by an import.
#[rattlefmt::skip]
pub const FIRST_EDITION: &str =
    "CREATE TABLE edition (id INTEGER NOT NULL PRIMARY KEY CHECK (id = 1), number INTEGER NOT NULL) STRICT;
     CREATE TABLE supervisor (code TEXT NOT NULL PRIMARY KEY, label TEXT NOT NULL, quota INTEGER NOT NULL CHECK (quota BETWEEN 0 AND 500)) STRICT;
     CREATE TABLE project (code TEXT NOT NULL PRIMARY KEY, label TEXT NOT NULL, supervisor TEXT NOT NULL REFERENCES supervisor (code), quota INTEGER NOT NULL CHECK (quota BETWEEN 0 AND 500)) STRICT;
     CREATE TABLE student (code TEXT NOT NULL PRIMARY KEY, label TEXT NOT NULL) STRICT;
     CREATE TABLE round (number INTEGER NOT NULL PRIMARY KEY, open INTEGER NOT NULL CHECK (open IN (0, 1))) STRICT;
     CREATE TABLE choice (round INTEGER NOT NULL REFERENCES round (number), student TEXT NOT NULL REFERENCES student (code), place INTEGER NOT NULL CHECK (place BETWEEN 1 AND 8), project TEXT NOT NULL REFERENCES project (code), PRIMARY KEY (round, student, place), UNIQUE (round, student, project)) STRICT;
     CREATE TABLE placement (student TEXT NOT NULL PRIMARY KEY REFERENCES student (code), round INTEGER NOT NULL REFERENCES round (number), project TEXT NOT NULL REFERENCES project (code), rank INTEGER NOT NULL CHECK (rank BETWEEN 1 AND 8)) STRICT;
     CREATE TABLE import (id TEXT NOT NULL PRIMARY KEY, kind TEXT NOT NULL CHECK (kind IN ('supervisors', 'projects', 'students', 'lists')), bytes BLOB NOT NULL, rows INTEGER NOT NULL) STRICT;
     INSERT INTO edition VALUES (1, 1);
     INSERT INTO supervisor VALUES ('L', 'Lee', 5);
     INSERT INTO project VALUES ('P', 'Pumps', 'L', 1), ('Q', 'Quays', 'L', 1), ('Z', 'Zinc', 'L', 0);
     INSERT INTO student VALUES ('A', 'Ann'), ('B', 'Bob'), ('C', 'Cy');
     INSERT INTO round VALUES (1, 0), (2, 1);
     INSERT INTO choice VALUES (1, 'A', 1, 'P'), (1, 'A', 2, 'Q'), (1, 'C', 1, 'Z'), (1, 'C', 2, 'P'), (2, 'B', 1, 'Z');
     INSERT INTO placement VALUES ('A', 1, 'Q', 2), ('C', 1, 'P', 2);
     INSERT INTO import VALUES ('I1', 'students', x'422C426F62', 1);";

/// What makes them tables of the second edition, in which each round has an aim: the open one is generous.
#[rattlefmt::skip]
pub const SECOND_EDITION: &str =
    "CREATE TABLE round_aim (round INTEGER NOT NULL PRIMARY KEY REFERENCES round (number), generous INTEGER NOT NULL CHECK (generous IN (0, 1))) STRICT;
     INSERT INTO round_aim SELECT number, open FROM round;
     UPDATE edition SET number = 2;";
