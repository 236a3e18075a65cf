//! The command by which `clap` reads the words.

ghost use Rattle.std.specs.Prelude.{◌≡◌, IfOk, false};
ghost use Rattle.clap.specs.Words.{app_of, rule_of};
ghost use Rattle.clap.specs.declared.builder.command.Command.TheViews.{out-Command};
ghost use Rattle.args.specs.Program.{line_app, parser_of, program, rule_by};
ghost use Rattle.args.specs.Inside.Table.{argument_by, told_by};

use crate::table::{Argument, Described, Takes, rows};
use crate::version::VERSION;
use clap::builder::ValueParser;
use clap::{Arg, Command};
use std::alloc::{AllocError, Global};

/// The words of the kinds, as they are lent to `clap`.
#[derive(Clone, Copy)]
pub(crate) struct Kinds<'a> {
    pub imports: &'a [&'a str],
    pub reports: &'a [&'a str],
    pub aims: &'a [&'a str],
}

/// Returns what `clap` asks of a word.
fn parser_of<'a>(kinds: Kinds<'a>, takes: Takes) -> ValueParser<'a>
    ensures { result ≡ parser_of kinds.entry takes }
{
    match takes {
        Takes::Word => ValueParser::String,
        Takes::Number(least, most) => ValueParser::Unsigned(least, most),
        Takes::ImportKind => ValueParser::Names(kinds.imports),
        Takes::ReportKind => ValueParser::Names(kinds.reports),
        Takes::Aim => ValueParser::Names(kinds.aims),
    }
}

/// Returns an argument, as `clap` takes it.
fn argument<'a>(alloc: Global, kinds: Kinds<'a>, declarations: &Argument) -> Arg<'a>
    ensures rule { rule_of result ≡ rule_by kinds.entry (argument_by declarations.now) }
    ensures local { result.global ≡ false }
{
    Arg::new(alloc, declarations.name)
        .help(declarations.help)
        .required(declarations.needed)
        .value_parser(parser_of(kinds, declarations.takes))
}

/// Returns a line, as a subcommand.
fn subcommand<'a>(
    alloc: Global,
    kinds: Kinds<'a>,
    row: &Described,
) -> Result<Command<'a>, AllocError>
    ensures app { IfOk result (λ c. app_of c ≡ line_app kinds.entry (told_by row.now)) }
    ensures local { IfOk result (λ c. (out-Command c).has_globals ≡ false) }
{
    let mut command = Command::new(alloc, row.name)
        .about(row.about)
        .after_help(row.example);
    for declarations in row.arguments {
        command = command.arg(argument(alloc, kinds, declarations))?;
    }
    Ok(command)
}

/// Returns the program: its lines are subcommands, and one must be given.
pub(crate) fn program<'a>(alloc: Global, kinds: Kinds<'a>) -> Result<Command<'a>, AllocError>
    ensures { IfOk result (λ c. app_of c ≡ program kinds.entry) }
{
    let mut command = Command::new(alloc, "spadesk")
        .version(VERSION)
        .about("Keeps a school's dissertation projects, and places students on them by their lists")
        .after_help("Example: spadesk help import")
        .subcommand_required(true);
    let lines = rows();
    for row in lines {
        command = command.subcommand(subcommand(alloc, kinds, row)?)?;
    }
    Ok(command)
}
