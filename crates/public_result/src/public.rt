//! What everybody checks.
#![tactic(auto)]

ghost use Rattle.std.specs.Prelude.{◌↔◌, ℕ, List, IsTrue, IsOk, OnOk, IfErr};
ghost use Rattle.spa.specs.Order.{order};
ghost use Rattle.spa.specs.Matching.{IsBest};
ghost use Rattle.public_result.specs.Posted.{AreContent, IsCleared, IsFirstFailure, IsNotBelow, IsPlaced, assigned, with_lists};

use crate::posted::Posted;
use crate::quotas::{is_room_free, is_within};
use crate::shape::{has_prices, is_known};
use spa::Aim;
use verdict::are_not_below_zero;

/// The first condition of everybody's check that fails.
#[derive(Clone, Copy, PartialEq, Eq, Drop)]
pub enum PublicFault {
    /// A supervisor or project is unknown, or more students are assigned a project, or one of a supervisor, than the quota.
    NotMatching,
    /// There is not one price within the limits for each project and each supervisor.
    Shape,
    /// A price is below zero, as the aim reads it.
    Below,
    /// A project or supervisor with room has a price.
    Room,
}

/// Whether what is assigned is a matching, whatever lists it stands in.
fn is_placed(posted: &Posted) -> bool
    ensures { IsTrue result ↔ IsPlaced posted.now }
{
    is_known(posted) && is_within(posted)
}

/// Whether no price comes before zero by an aim.
fn is_not_below(posted: &Posted, aim: Aim) -> bool
    ensures { IsTrue result ↔ IsNotBelow (order aim) posted.now }
{
    are_not_below_zero(aim, &posted.project_prices)
        && are_not_below_zero(aim, &posted.supervisor_prices)
}

/// Checks what everybody can check of a posted result, without any list. Allocates nothing. An `Err` is the first condition that does not
/// hold.
pub fn check_public(posted: &Posted, aim: Aim) -> Result<(), PublicFault>
    ensures accepted { IsOk result ↔ IsCleared (order aim) posted.now }
    ensures failed { IfErr result (λ fault. IsFirstFailure (order aim) posted.now fault) }

    // A yes, and a yes of each student's own check, prove what is posted best for the lists of these checks.
    ensures best { OnOk result ((lists : List (List ℕ)) → AreContent (order aim) posted.now lists → IsBest aim (with_lists posted.now lists) (assigned posted.now)) }
{
    if !is_placed(posted) {
        return Err(PublicFault::NotMatching);
    }
    if !has_prices(posted) {
        return Err(PublicFault::Shape);
    }
    if !is_not_below(posted, aim) {
        return Err(PublicFault::Below);
    }
    if !is_room_free(posted) {
        return Err(PublicFault::Room);
    }
    Ok(())
}
