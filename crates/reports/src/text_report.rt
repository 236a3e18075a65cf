//! The texts of rounds.

ghost use Rattle.std.specs.Prelude.{◌≡◌, IfOk, string_bytes};
ghost use Rattle.spa.specs.Named.{instance_of};
ghost use Rattle.office_model.specs.State.{aim_of};
ghost use Rattle.office_model.specs.Instances.{instance_of_round};
ghost use Rattle.intake.specs.Lines.{instance_text};
ghost use Rattle.reports.specs.Rounds.{IsRound};

use intake::write_round;
use office::Office;
use spa::{Aim, Instance};
use std::alloc::{AllocError, Global};

/// Writes the text of the instance of a round, and of an aim. An `Err` is out of memory.
pub fn instance_text(alloc: Global, instance: &Instance, aim: Aim) -> Result<String, AllocError>
    requires { IsRound (instance_of instance.now) }
    ensures { IfOk result (λ text. string_bytes text ≡ instance_text aim (instance_of instance.now)) }
{
    write_round(alloc, instance, aim, None)
}

/// Writes the text of a round, open or closed. An `Err` is out of memory.
pub fn text(alloc: Global, office: &Office, round: u32) -> Result<String, AllocError>
    ensures { IfOk result (λ text. string_bytes text ≡ instance_text (aim_of office.now round) (instance_of_round office.now round)) }
{
    let instance = office.instance_of_round(round)?;
    instance_text(alloc, &instance, office.aim_of(round))
}
