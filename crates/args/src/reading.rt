//! The line that words stand for.

ghost use Rattle.std.specs.Prelude.{◌≡◌, ◌^◌, IfOk, IsSomeAnd, MatchResult, Some, codes, map, option_map, string_bytes, true};
ghost use Rattle.office_model.specs.Kinds.{word_of};
ghost use Rattle.clap.specs.Words.{found_of, kind_of, rows_of, subcommand_rows_of};
ghost use Rattle.args.specs.Kinds.{report_word};
ghost use Rattle.args.specs.Program.{AreWords};
ghost use Rattle.args.specs.Reading.{AreGiven, IsAimOf, IsAnswer, IsGiven, IsLineOf, fits, number_in, own_words, word_in};
ghost use Rattle.args.specs.Inside.Reading.{IsFaultAs, IsNumberBelow, IsReportedBy};
ghost use Rattle.args.specs.Table;
ghost use Rattle.args.specs.Inside.Table.{argument_by};

use crate::kinds::{aim_words, import_kind, import_words, report_kind, report_words};
use crate::line::{Line, LineFault};
use crate::program::{Kinds, program};
use crate::table::given::{
    AIM, COUNT, DATABASE, FILE, ID, IMPORT_KIND, PORT, REPORT_KIND, ROUND, STUDENT,
};
use crate::table::{Argument, choices};
use clap::error::ErrorKind;
use clap::{ArgMatches, Error};
use office_model::{ImportKind, ReportKind};
use spa::Aim;
use std::alloc::{AllocError, Global};
use std::string::ToString;

/// Returns the word of an argument, if it is given.
fn given_word<'a>(given: &ArgMatches<'a>, argument: &Argument) -> Option<&'a str>
    ensures { option_map (λ w. w.now) result ≡ word_in (rows_of (found_of given.now)) (argument_by argument.now) }
{
    given.get_str(argument.name)
}

/// Returns the word of an argument that has to be given.
fn word<'a>(given: &ArgMatches<'a>, argument: &Argument) -> &'a str
    requires given { IsGiven (rows_of (found_of given.now)) (argument_by argument.now) }
    requires needed { argument.now.needed ≡ true }
    ensures word { word_in (rows_of (found_of given.now)) (argument_by argument.now) ≡ Some result.now }
    ensures fits { fits argument.now.takes result.now ≡ true }
{
    given_word(given, argument).unwrap()
}

/// Returns the word of an argument, as a text of its own.
fn text(alloc: Global, given: &ArgMatches<'_>, argument: &Argument) -> Result<String, AllocError>
    requires given { IsGiven (rows_of (found_of given.now)) (argument_by argument.now) }
    requires needed { argument.now.needed ≡ true }
    ensures { IfOk result (λ t. word_in (rows_of (found_of given.now)) (argument_by argument.now) ≡ Some (string_bytes t)) }
{
    String::from_str(alloc, word(given, argument))
}

/// Returns the number that the word of an argument writes.
fn number(given: &ArgMatches<'_>, argument: &Argument) -> u32
    requires given { IsGiven (rows_of (found_of given.now)) (argument_by argument.now) }
    requires needed { argument.now.needed ≡ true }
    requires small { IsNumberBelow (2 ^ 32) argument.now.takes }
    ensures { number_in (rows_of (found_of given.now)) (argument_by argument.now) ≡ Some result }
{
    word(given, argument).parse::<u32>().unwrap()
}

/// Returns the port.
fn port(given: &ArgMatches<'_>) -> u16
    requires { IsGiven (rows_of (found_of given.now)) Rattle.args.specs.Table.port }
    ensures { number_in (rows_of (found_of given.now)) Rattle.args.specs.Table.port ≡ Some result }
{
    word(given, &PORT).parse::<u16>().unwrap()
}

/// Returns the kind of imports.
fn import(given: &ArgMatches<'_>) -> ImportKind
    requires { IsGiven (rows_of (found_of given.now)) Rattle.args.specs.Table.import_kind }
    ensures { word_in (rows_of (found_of given.now)) Rattle.args.specs.Table.import_kind ≡ Some (word_of result) }
{
    import_kind(word(given, &IMPORT_KIND)).unwrap()
}

/// Returns the kind of reports.
fn report(given: &ArgMatches<'_>) -> ReportKind
    requires { IsGiven (rows_of (found_of given.now)) Rattle.args.specs.Table.report_kind }
    ensures { word_in (rows_of (found_of given.now)) Rattle.args.specs.Table.report_kind ≡ Some (report_word result) }
{
    report_kind(word(given, &REPORT_KIND)).unwrap()
}

/// Returns the aim, which is greedy where none is given.
fn aim(given: &ArgMatches<'_>) -> Aim
    requires { IsGiven (rows_of (found_of given.now)) Rattle.args.specs.Table.aim }
    ensures { IsAimOf (word_in (rows_of (found_of given.now)) Rattle.args.specs.Table.aim) result }
{
    match given_word(given, &AIM) {
        None => Aim::Greedy,
        Some(word) => Aim::of_word(word).unwrap(),
    }
}

/// Returns the line that serves connections.
fn serve_line(alloc: Global, given: &ArgMatches<'_>) -> Result<Line, AllocError>
    requires { AreGiven (codes "serve") (rows_of (found_of given.now)) }
    ensures { IfOk result (IsLineOf (codes "serve") (rows_of (found_of given.now))) }
{
    Ok(Line::Serve {
        database: text(alloc, given, &DATABASE)?,
        port: port(given),
        count: number(given, &COUNT),
    })
}

/// Returns the line that imports a file.
fn import_line(alloc: Global, given: &ArgMatches<'_>) -> Result<Line, AllocError>
    requires { AreGiven (codes "import") (rows_of (found_of given.now)) }
    ensures { IfOk result (IsLineOf (codes "import") (rows_of (found_of given.now))) }
{
    Ok(Line::Import {
        database: text(alloc, given, &DATABASE)?,
        kind: import(given),
        id: text(alloc, given, &ID)?,
        file: text(alloc, given, &FILE)?,
    })
}

/// Returns the student's code and list, with commas.
fn own_words(alloc: Global, given: &ArgMatches<'_>) -> Result<String, AllocError>
    requires { IsGiven (rows_of (found_of given.now)) Rattle.args.specs.Table.student }
    ensures { IfOk result (λ t. IsSomeAnd (word_in (rows_of (found_of given.now)) Rattle.args.specs.Table.student) (λ code. string_bytes t ≡ own_words (rows_of (found_of given.now)) code)) }
{
    let mut words = text(alloc, given, &STUDENT)?;
    let list = choices();
    for choice in list {
        if let Some(word) = given_word(given, choice) {
            words.push_str(",")?;
            words.push_str(word)?;
        }
    }
    Ok(words)
}

/// Returns the line that checks what a student is assigned.
fn own_line(alloc: Global, given: &ArgMatches<'_>) -> Result<Line, AllocError>
    requires { AreGiven (codes "check-own") (rows_of (found_of given.now)) }
    ensures { IfOk result (IsLineOf (codes "check-own") (rows_of (found_of given.now))) }
{
    Ok(Line::CheckOwn {
        file: text(alloc, given, &FILE)?,
        own: own_words(alloc, given)?,
    })
}

/// Returns the line of the subcommand that was used.
fn line_of(alloc: Global, name: &str, given: &ArgMatches<'_>) -> Result<Line, AllocError>
    requires { AreGiven name.now (rows_of (found_of given.now)) }
    ensures { IfOk result (IsLineOf name.now (rows_of (found_of given.now))) }
{
    match name {
        "serve" => serve_line(alloc, given),
        "import" => import_line(alloc, given),
        "open-round" => Ok(Line::OpenRound {
            database: text(alloc, given, &DATABASE)?,
            aim: aim(given),
        }),
        "reopen-round" => Ok(Line::ReopenRound(text(alloc, given, &DATABASE)?)),
        "close-round" => Ok(Line::CloseRound(text(alloc, given, &DATABASE)?)),
        "report" => Ok(Line::Report {
            database: text(alloc, given, &DATABASE)?,
            kind: report(given),
            round: number(given, &ROUND),
        }),
        "solve" => Ok(Line::Solve(text(alloc, given, &FILE)?)),
        "check" => Ok(Line::Check(text(alloc, given, &FILE)?)),
        "publish" => Ok(Line::Publish(text(alloc, given, &FILE)?)),
        "check-own" => own_line(alloc, given),
        _ => unreachable!(),
    }
}

/// Returns the line that a parse found.
fn line_in(alloc: Global, matches: &ArgMatches<'_>) -> Result<Line, AllocError>
    requires { IsSomeAnd (subcommand_rows_of matches.now) (λ s. AreGiven s.0 s.1) }
    ensures { IfOk result (λ line. IsSomeAnd (subcommand_rows_of matches.now) (λ s. IsLineOf s.0 s.1 line)) }
{
    let (name, given) = matches.subcommand().unwrap();
    line_of(alloc, name, given)
}

/// Returns the fault of an error of this kind, whose text this is, where there was memory for one.
fn fault_as(kind: ErrorKind, text: Result<String, AllocError>) -> LineFault
    ensures { MatchResult text (λ text. IsFaultAs kind text result) (λ _. result ≡ LineFault.Memory) }
{
    match text {
        Err(_) => LineFault::Memory,
        Ok(_) if kind == ErrorKind::OutOfMemory => LineFault::Memory,
        Ok(text) if kind == ErrorKind::DisplayHelp => LineFault::Help(text),
        Ok(text) if kind == ErrorKind::DisplayVersion => LineFault::Version(text),
        Ok(text) => LineFault::Fault(text),
    }
}

/// Returns why the words were not taken.
fn fault_by(alloc: Global, error: &Error) -> LineFault
    ensures { IsReportedBy (kind_of error.now) result }
{
    fault_as(error.kind(), error.to_string(alloc))
}

/// Returns what the program's command makes of the words.
fn answer<'a>(alloc: Global, kinds: Kinds<'a>, words: &'a [String]) -> Result<Line, LineFault>
    requires { AreWords kinds }
    ensures { IsAnswer (map string_bytes words.entry.now) result }
{
    match program(alloc, kinds)?.try_get_matches_from(words) {
        Ok(matches) => Ok(line_in(alloc, &matches)?),
        Err(error) => Err(fault_by(alloc, &error)),
    }
}

/// Returns the line that the words stand for. The first word is the program's name.
///
/// The words are read as `clap` reads them. `Help`, `Version` and `Fault` have its text: help is asked for by `help` and by
/// `--help`, which may follow the name of a line, the version by `--version` in the place of a line, and a fault is a word that
/// is missing, unknown, one too many or out of its range. `Memory` says that an allocation failed.
pub fn command(alloc: Global, words: &[String]) -> Result<Line, LineFault>
    ensures { IsAnswer (map string_bytes words.now) result }
{
    let imports = import_words();
    let reports = report_words();
    let aims = aim_words();
    let kinds = Kinds {
        imports: imports.as_slice(),
        reports: reports.as_slice(),
        aims: aims.as_slice(),
    };
    answer(alloc, kinds, words)
}
