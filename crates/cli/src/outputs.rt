//! What a line writes to: standard output and standard error.

ghost use Rattle.std.specs.Prelude.{◌≡◌, [], OnOk, OnErr};
ghost use Rattle.cli.specs.Outputs.{CanFail, HasCut, HasPrinted, both_of};
ghost use Rattle.cli.specs.Outcomes.{Prints, prints_err, prints, refused, new_database, printed_reply};

use crate::printing::{print, print_reply, refuse, write_new};
use crate::status::Status;
use office_model::{Refusal, Reply};
use std::marker::Model;
use web::{Sink, StreamFault};

/// The writers of results and of messages.
#[derive(Drop)]
pub struct Outputs<O: Sink, E: Sink> {
    pub(crate) out: O,
    pub(crate) err: E,
}

impl<O: Sink, E: Sink> Model for Outputs<O, E> {
    ghost use Rattle.cli.specs.Outputs.{Both, both_of};
    ghost use Rattle.cli.specs.Inside.Outputs.{both_code};

    ghost Value = { Both O E };

    ghost coded = { both_code O.code E.code };

    ghost view = { λ e. both_of O.written O.failures E.written E.failures e.out e.err };
}

impl<O: Sink, E: Sink> Outputs<O, E> {
    /// Puts the two writers together.
    pub fn new(out: O, err: E) -> Self
        ensures { result ≡ both_of O.written O.failures E.written E.failures out err }
    {
        Outputs { out, err }
    }

    /// Returns the two writers.
    pub fn into_parts(self) -> (O, E)
        ensures { self ≡ both_of O.written O.failures E.written E.failures result.0 result.1 }
    {
        let Outputs { out, err } = self;
        (out, err)
    }

    /// Prints a result with this status.
    pub(crate) fn print(&mut self, text: &[u8], status: Status) -> Status
        requires { CanFail self.old }
        ensures { Prints (λ o. o ≡ record { out = text.now; err = []; status = status }) self.old self.new result }
    {
        print(&mut self.out, text, status)
    }

    /// Prints what is printed of an answer.
    pub(crate) fn print_reply(&mut self, reply: &Reply) -> Status
        requires { CanFail self.old }
        ensures { Prints (λ o. o ≡ prints (printed_reply reply.now)) self.old self.new result }
    {
        print_reply(&mut self.out, reply)
    }

    /// Prints a message with this status.
    pub(crate) fn print_err(&mut self, text: &[u8], status: Status) -> Status
        requires { CanFail self.old }
        ensures { Prints (λ o. o ≡ prints_err status text.now) self.old self.new result }
    {
        print(&mut self.err, text, status)
    }

    /// Prints that the database with this name is new.
    pub(crate) fn print_new(&mut self, name: &str) -> Result<(), StreamFault>
        requires { CanFail self.old }
        ensures ok { OnOk result (HasPrinted (new_database name.now) self.old self.new) }
        ensures err { OnErr result (HasCut (new_database name.now) self.old self.new) }
    {
        write_new(&mut self.err, name)
    }

    /// Prints a refusal.
    pub(crate) fn refuse(&mut self, refusal: Refusal) -> Status
        requires { CanFail self.old }
        ensures { Prints (λ o. o ≡ refused refusal) self.old self.new result }
    {
        refuse(&mut self.err, refusal)
    }
}
