//! The lines on a round file.

ghost use Rattle.std.specs.Prelude.{◌≡◌, MatchResult};
ghost use Rattle.cli.specs.Outputs.{CanFail};
ghost use Rattle.cli.specs.Outcomes.{Prints, OnFile};
ghost use Rattle.cli.specs.Inside.Rounds.{ComesBy};

use crate::files::read_file;
use crate::outputs::Outputs;
use crate::printing::print_round;
use crate::status::Status;
use host::World;
use intake::MAX_BYTES;
use office_model::Refusal;
use round_files::{Trouble, checked, checked_own, published, solved};
use std::alloc::Global;
use web::Sink;

/// What a line does with the round of a file.
#[derive(Clone, Copy, Drop)]
pub(crate) enum RoundTask<'a> {
    /// It solves the round.
    Solve,
    /// It checks the matching and the prices of the round, or what everybody can of a public text.
    Check,
    /// It publishes the round.
    Publish,
    /// It checks what a public text assigns to a student, by this code and list.
    CheckOwn(&'a str),
}

/// Does this with the round that was read of a file, or gives the refusal of the reading.
fn run_on_round(
    alloc: Global,
    way: RoundTask<'_>,
    read: Result<Vec<u8>, Refusal>,
) -> Result<String, Trouble>
    ensures { MatchResult read (λ bytes. ComesBy way.entry bytes.items result) (λ refusal. result ≡ Err (Trouble.Refused refusal)) }
{
    match read {
        Ok(bytes) => match way {
            RoundTask::Solve => solved(alloc, &bytes),
            RoundTask::Check => checked(alloc, &bytes),
            RoundTask::Publish => published(alloc, &bytes),
            RoundTask::CheckOwn(own) => checked_own(alloc, &bytes, own.as_bytes()),
        },
        Err(refusal) => Err(Trouble::Refused(refusal)),
    }
}

/// Does this with the round of a file, and prints what comes of it.
pub(crate) fn run_on_round_file<W: World, O: Sink, E: Sink>(
    alloc: Global,
    world: &W,
    way: RoundTask<'_>,
    file: &str,
    outputs: &mut Outputs<O, E>,
) -> Status
    requires { CanFail outputs.old }
    ensures { Prints (OnFile ((W.state world.now).holds file.now) (ComesBy way.entry)) outputs.old outputs.new result }
{
    let came = run_on_round(alloc, way, read_file(world, file, MAX_BYTES));
    print_round(came, outputs)
}
