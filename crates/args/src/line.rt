//! The lines of the program, and why words are none.

ghost use Rattle.std.specs.Prelude.{◌≡◌};
ghost use Rattle.args.specs.declared.line.LineFault.TheVariants.{Memory};

use office_model::{ImportKind, ReportKind};
use spa::Aim;
use std::alloc::AllocError;

/// A line of the program, with its values.
#[derive(Drop)]
pub enum Line {
    /// Serve connections to a database, one after another, and end.
    Serve {
        /// The file of the database; it is made where there is none.
        database: String,
        /// The port of 127.0.0.1 that is listened at, 1 to 65,535.
        port: u16,
        /// How many connections are served, 1 to 1,000,000.
        count: u32,
    },
    /// Import a file into a database.
    Import {
        /// The file of the database.
        database: String,
        /// What the records are.
        kind: ImportKind,
        /// The id under which the import is stored.
        id: String,
        /// The file with the records.
        file: String,
    },
    /// Open the next round of a database.
    OpenRound {
        /// The file of the database.
        database: String,
        /// By which aim the round is closed.
        aim: Aim,
    },
    /// Open the last round of this database again.
    ReopenRound(String),
    /// Close the open round of this database.
    CloseRound(String),
    /// Print a report of a round of a database.
    Report {
        /// The file of the database.
        database: String,
        /// What is reported.
        kind: ReportKind,
        /// The number of the round, 0 to 9,999. No round has the number 0.
        round: u32,
    },
    /// Print the round of this file with a best matching and prices.
    Solve(String),
    /// Check the matching and the prices of the round of this file, or what everybody can of the public text there.
    Check(String),
    /// Print the public text of the round of this file.
    Publish(String),
    /// Check what a public text assigns to a student.
    CheckOwn {
        /// The file of the public text.
        file: String,
        /// The student's code and list, with commas.
        own: String,
    },
}

/// Why words are no line.
#[derive(Drop)]
pub enum LineFault {
    /// An allocation failed.
    Memory,
    /// They ask for help, which is this text.
    Help(String),
    /// They ask for the version, which is this text.
    Version(String),
    /// They are no line of the program: a word is missing, unknown, one too many or out of its range. This text says which.
    Fault(String),
}

impl From<AllocError> for LineFault {
    ghost from_gives = { λ _ fault. fault ≡ Memory };

    fn from(_error: AllocError) -> LineFault {
        LineFault::Memory
    }
}
