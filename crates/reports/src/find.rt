//! Look-ups by key among the entries that an office lends.

ghost use Rattle.std.specs.Prelude.{◌≡◌, option_copied};
ghost use Rattle.office_model.specs.State.{round_of, placement_of};

use office::Office;
use office_model::{Placement, Round, find};

/// Lends the round with this number.
pub fn round_of(office: &Office, round: u32) -> Option<&Round>
    ensures { option_copied result ≡ round_of office.now round }
{
    find(office.rounds(), round, "")
}

/// Lends a student's placement.
pub fn placement_of<'a>(office: &'a Office, student: &str) -> Option<&'a Placement>
    ensures { option_copied result ≡ placement_of office.now student.now }
{
    find(office.placements(), 0, student)
}
