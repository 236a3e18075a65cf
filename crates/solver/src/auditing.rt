//! Whether a matching is best by an aim, and a better one where it is not.
#![tactic(auto)]

ghost use Rattle.std.specs.Prelude.{IfOk};
ghost use Rattle.spa.specs.Matched.{IsMatched};
ghost use Rattle.solver.specs.Audited.{IsAudit};

use crate::outcome::Audit;
use crate::solving::solve;
use spa::{Aim, Instance, Matching, precedes, total_weight};
use std::alloc::{AllocError, Global};

/// Says `Best` exactly where the matching is best by the aim, else `Better` with a matching whose total weight comes
/// after, as the aim reads it.
///
/// It solves the instance anew and compares. An `Err` is out of memory.
pub fn audit(
    alloc: Global,
    instance: &Instance,
    aim: Aim,
    matching: &Matching,
) -> Result<Audit, AllocError>
    requires { IsMatched instance.now.shape matching.now.places.items }
    ensures { IfOk result (λ a. IsAudit aim instance.now.shape matching.now.places.items a) }
{
    let solved = solve(alloc, instance, aim)?;
    let weight = total_weight(instance, matching);
    let best = total_weight(instance, &solved.matching);
    if precedes(aim, &weight, &best) {
        Ok(Audit::Better(solved.matching))
    } else {
        Ok(Audit::Best)
    }
}
