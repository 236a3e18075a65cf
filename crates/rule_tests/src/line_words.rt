//! The words of commands, and the values that they stand for.

use args::{Line, LineFault, command};
use office_model::ReportKind;
use std::alloc::{AllocError, Global};
use std::rt::HostRuntime;
use std::test::Fail;
use testing::judged::holds;

/// Names a kind of reports, unlike the others.
fn report_name(kind: ReportKind) -> &'static str {
    match kind {
        ReportKind::Profile => "Profile",
        ReportKind::Loads => "Loads",
        ReportKind::Unplaced => "Unplaced",
        ReportKind::Placements => "Placements",
        ReportKind::Offers => "Offers",
        ReportKind::Missing => "Missing",
        ReportKind::Text => "Text",
    }
}

/// Returns a line and its values.
fn shown(alloc: Global, line: &Line) -> Result<String, AllocError> {
    match line {
        Line::Serve {
            database,
            port,
            count,
        } => format!(in alloc; "Serve {database}, {port}, {count}"),
        Line::Import {
            database,
            kind,
            id,
            file,
        } => format!(in alloc; "Import {database}, {}, {id}, {file}", kind.word()),
        Line::OpenRound { database, aim } => {
            format!(in alloc; "OpenRound {database}, {}", aim.word())
        }
        Line::ReopenRound(database) => format!(in alloc; "ReopenRound {database}"),
        Line::CloseRound(database) => format!(in alloc; "CloseRound {database}"),
        Line::Report {
            database,
            kind,
            round,
        } => format!(in alloc; "Report {database}, {}, {round}", report_name(*kind)),
        Line::Solve(file) => format!(in alloc; "Solve {file}"),
        Line::Check(file) => format!(in alloc; "Check {file}"),
        Line::Publish(file) => format!(in alloc; "Publish {file}"),
        Line::CheckOwn { file, own } => format!(in alloc; "CheckOwn {file}, {own}"),
    }
}

// The words, and the line. Each range is met at both ends.
#[rattlefmt::skip]
static LINES: [(&str, &str); 26] = [
    ("spadesk serve school.db 1 1",                      "Serve school.db, 1, 1"),
    ("spadesk serve school.db 65535 1000000",            "Serve school.db, 65535, 1000000"),
    ("spadesk import a.db supervisors I1 x.csv",         "Import a.db, supervisors, I1, x.csv"),
    ("spadesk import a.db projects I2 y.csv",            "Import a.db, projects, I2, y.csv"),
    ("spadesk import a.db students I3 z.csv",            "Import a.db, students, I3, z.csv"),
    ("spadesk import a.db lists I4 w.csv",               "Import a.db, lists, I4, w.csv"),
    ("spadesk open-round school.db",                     "OpenRound school.db, greedy"),
    ("spadesk open-round school.db greedy",              "OpenRound school.db, greedy"),
    ("spadesk open-round school.db generous",            "OpenRound school.db, generous"),
    ("spadesk reopen-round school.db",                   "ReopenRound school.db"),
    ("spadesk close-round school.db",                    "CloseRound school.db"),
    ("spadesk report a.db profile 0",                    "Report a.db, Profile, 0"),
    ("spadesk report a.db loads 9999",                   "Report a.db, Loads, 9999"),
    ("spadesk report a.db unplaced 1",                   "Report a.db, Unplaced, 1"),
    ("spadesk report a.db placements 12",                "Report a.db, Placements, 12"),
    ("spadesk report a.db offers 2",                     "Report a.db, Offers, 2"),
    ("spadesk report a.db missing 3",                    "Report a.db, Missing, 3"),
    ("spadesk report a.db text 4",                       "Report a.db, Text, 4"),
    ("spadesk solve round.txt",                          "Solve round.txt"),
    ("spadesk check round.txt",                          "Check round.txt"),
    ("spadesk check -- --help",                          "Check --help"),
    ("spadesk publish proof.txt",                        "Publish proof.txt"),
    ("spadesk check-own a.txt S P",                      "CheckOwn a.txt, S,P"),
    ("spadesk check-own a.txt S 1 2 3 4 5 6 7 8 9 A B C", "CheckOwn a.txt, S,1,2,3,4,5,6,7,8,9,A,B,C"),
    ("spadesk --version",                                "the version"),
    ("spadesk -V",                                       "the version"),
];

/// Returns these words, parted by spaces.
fn parted(alloc: Global, words: &str) -> Result<Vec<String>, AllocError> {
    let mut list = Vec::new(alloc);
    for word in words.split(' ') {
        list.push(String::from_str(alloc, word)?)?;
    }
    Ok(list)
}

/// Whether words stand for this line.
fn is_line(alloc: Global, words: &str, want: &str) -> Result<bool, AllocError> {
    match command(alloc, &parted(alloc, words)?) {
        Ok(line) => Ok(shown(alloc, &line)?.as_str() == want),
        Err(LineFault::Version(_)) => Ok(want == "the version"),
        Err(_) => Ok(false),
    }
}

#[test]
fn words_are_lines(rt: HostRuntime) -> Result<(), Fail> {
    for (words, want) in LINES.as_slice() {
        let is_line = is_line(rt.alloc(), words, want)?;
        holds(is_line, words)?;
    }
    Ok(())
}
