//! The lines of the program, each described once.

ghost use Rattle.std.specs.Prelude.{◌≡◌, map};
ghost use Rattle.args.specs.Table.{choices, lines};
ghost use Rattle.args.specs.Inside.Table.{argument_by, told_by};

use self::given::{
    AIM, CHOICES, COUNT, DATABASE, EIGHTH, ELEVENTH, FIFTH, FILE, FIRST, FOURTH, ID, IMPORT_KIND,
    NINTH, PORT, REPORT_KIND, ROUND, SECOND, SEVENTH, SIXTH, STUDENT, TENTH, THIRD, TWELFTH,
};

/// What the word of an argument may be.
#[derive(Clone, Copy)]
pub(crate) enum Takes {
    /// Any text.
    Word,
    /// A number from the first to the second.
    Number(u64, u64),
    /// The word of a kind of imports.
    ImportKind,
    /// The word of a kind of reports.
    ReportKind,
    /// The word of an aim.
    Aim,
}

/// An argument of a line.
pub(crate) struct Argument {
    /// What help calls it.
    pub name: &'static str,
    /// What help says of it.
    pub help: &'static str,
    pub takes: Takes,
    /// Whether it has to be given.
    pub needed: bool,
}

/// A line: its name, what it does, an example of it, and its arguments in order.
pub(crate) struct Described {
    pub name: &'static str,
    pub about: &'static str,
    pub example: &'static str,
    pub arguments: &'static [Argument],
}

/// The arguments.
#[rattlefmt::skip]
pub(crate) mod given {
    use super::{Argument, Takes};

    pub(crate) const DATABASE: Argument = Argument { name: "DATABASE", help: "The database file; it is made if it is not there", takes: Takes::Word, needed: true };
    pub(crate) const PORT: Argument = Argument { name: "PORT", help: "The port of 127.0.0.1 to listen on, 1 to 65535", takes: Takes::Number(1, 65_535), needed: true };
    pub(crate) const COUNT: Argument = Argument { name: "COUNT", help: "How many connections to serve, 1 to 1000000", takes: Takes::Number(1, 1_000_000), needed: true };
    pub(crate) const IMPORT_KIND: Argument = Argument { name: "KIND", help: "What the records are", takes: Takes::ImportKind, needed: true };
    pub(crate) const ID: Argument = Argument { name: "ID", help: "A code of your choice for this import, such as I1; sent again under it, the same import changes nothing", takes: Takes::Word, needed: true };
    pub(crate) const FILE: Argument = Argument { name: "FILE", help: "The file to read", takes: Takes::Word, needed: true };
    pub(crate) const AIM: Argument = Argument { name: "AIM", help: "By which aim the round is closed; without it greedy", takes: Takes::Aim, needed: false };
    pub(crate) const REPORT_KIND: Argument = Argument { name: "KIND", help: "What to report", takes: Takes::ReportKind, needed: true };
    pub(crate) const ROUND: Argument = Argument { name: "ROUND", help: "The number of the round, 0 to 9999; the first round is 1", takes: Takes::Number(0, 9_999), needed: true };
    pub(crate) const STUDENT: Argument = Argument { name: "STUDENT", help: "The student's code", takes: Takes::Word, needed: true };
    pub(crate) const FIRST: Argument = Argument { name: "P1", help: "The project of the student's first choice", takes: Takes::Word, needed: true };
    pub(crate) const SECOND: Argument = Argument { name: "P2", help: "The project of the second choice", takes: Takes::Word, needed: false };
    pub(crate) const THIRD: Argument = Argument { name: "P3", help: "The project of the third choice", takes: Takes::Word, needed: false };
    pub(crate) const FOURTH: Argument = Argument { name: "P4", help: "The project of the fourth choice", takes: Takes::Word, needed: false };
    pub(crate) const FIFTH: Argument = Argument { name: "P5", help: "The project of the fifth choice", takes: Takes::Word, needed: false };
    pub(crate) const SIXTH: Argument = Argument { name: "P6", help: "The project of the sixth choice", takes: Takes::Word, needed: false };
    pub(crate) const SEVENTH: Argument = Argument { name: "P7", help: "The project of the seventh choice", takes: Takes::Word, needed: false };
    pub(crate) const EIGHTH: Argument = Argument { name: "P8", help: "The project of the eighth choice", takes: Takes::Word, needed: false };
    pub(crate) const NINTH: Argument = Argument { name: "P9", help: "The project of the ninth choice", takes: Takes::Word, needed: false };
    pub(crate) const TENTH: Argument = Argument { name: "P10", help: "The project of the tenth choice", takes: Takes::Word, needed: false };
    pub(crate) const ELEVENTH: Argument = Argument { name: "P11", help: "The project of the eleventh choice", takes: Takes::Word, needed: false };
    pub(crate) const TWELFTH: Argument = Argument { name: "P12", help: "The project of the twelfth choice", takes: Takes::Word, needed: false };
    pub(super) const CHOICES: [Argument; 12] = [FIRST, SECOND, THIRD, FOURTH, FIFTH, SIXTH, SEVENTH, EIGHTH, NINTH, TENTH, ELEVENTH, TWELFTH];
}

#[rattlefmt::skip]
const ROWS: [Described; 10] = [
    Described { name: "serve", about: "Serves the database to COUNT connections, one after another, then ends", example: "Example: spadesk serve school.db 8080 1000", arguments: &[DATABASE, PORT, COUNT] },
    Described { name: "import", about: "Imports supervisors, projects, students or lists from a CSV file", example: "Example: spadesk import school.db students I1 students.csv", arguments: &[DATABASE, IMPORT_KIND, ID, FILE] },
    Described { name: "open-round", about: "Opens the next round, for which students may then have lists", example: "Example: spadesk open-round school.db generous", arguments: &[DATABASE, AIM] },
    Described { name: "reopen-round", about: "Opens the last round again: its lists stay, its placements go", example: "Example: spadesk reopen-round school.db", arguments: &[DATABASE] },
    Described { name: "close-round", about: "Closes the open round and places the students who have lists in it", example: "Example: spadesk close-round school.db", arguments: &[DATABASE] },
    Described { name: "report", about: "Prints a report of one round", example: "Example: spadesk report school.db placements 1", arguments: &[DATABASE, REPORT_KIND, ROUND] },
    Described { name: "solve", about: "Prints the round of FILE with a best matching and prices that prove it", example: "Example: spadesk solve round.txt", arguments: &[FILE] },
    Described { name: "check", about: "Checks the matching and the prices of the round of FILE, or its public text", example: "Example: spadesk check round.txt", arguments: &[FILE] },
    Described { name: "publish", about: "Prints the public text of the round of FILE, which has no lists", example: "Example: spadesk publish proof.txt", arguments: &[FILE] },
    Described { name: "check-own", about: "Checks by the STUDENT's own list what the public text of FILE tells the STUDENT", example: "Example: spadesk check-own public.txt 100-A P7 P2 P9", arguments: &[FILE, STUDENT, FIRST, SECOND, THIRD, FOURTH, FIFTH, SIXTH, SEVENTH, EIGHTH, NINTH, TENTH, ELEVENTH, TWELFTH] },
];

/// Returns the places of a list.
pub(crate) fn choices() -> &'static [Argument]
    ensures { map argument_by result.now ≡ choices }
{
    &CHOICES
}

/// Returns the lines.
pub(crate) fn rows() -> &'static [Described]
    ensures { map told_by result.now ≡ lines }
{
    &ROWS
}
