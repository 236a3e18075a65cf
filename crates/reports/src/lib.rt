//! The reports on a round of an office, as texts of lines.
//!
//! Nothing here decides what is placed: the reports read what an `Office` lends.
//!
//! Promised: `report` writes exactly the bytes that `report_text` of `specs/Texts.antt` makes of the abstract office, or refuses
//! a round that is not known, and only running out of memory keeps it from either.
#![tactic(auto)]

mod find;
mod placements_report;
mod places_report;
mod profile_report;
mod students_report;
mod text_report;

ghost use Rattle.std.specs.Prelude.{◌≡◌, ◌⊎◌, IfOk, IfErr, Some, None, string_bytes};
ghost use Rattle.office_model.specs.Refusing.{refusal_of};
ghost use Rattle.office_model.specs.declared.request.Request.TheVariants as request;
ghost use Rattle.reports.specs.Texts.{report_text};

use office::Office;
use office_model::{Refusal, ReportKind, Request};
use placements_report::placements;
use places_report::{Places, by_supervisor};
use profile_report::profile;
use std::alloc::Global;
use students_report::{Whom, students};
pub use text_report::instance_text;
use text_report::text;

/// Writes a report on a round that the office knows. An `Err` is the refusal of another round, or `Memory`.
pub fn report(
    alloc: Global,
    office: &Office,
    kind: ReportKind,
    round: u32,
) -> Result<String, Refusal>
    ensures text { IfOk result (λ text. string_bytes text ≡ report_text office.now kind round) }
    ensures known { IfOk result (λ _. refusal_of office.now (request.Report kind round) ≡ None) }
    ensures refused { IfErr result (λ r. (r ≡ Refusal.Memory) ⊎ (refusal_of office.now (request.Report kind round) ≡ Some r)) }
{
    if let Some(refusal) = office.refusal_of(&Request::Report { kind, round }) {
        return Err(refusal);
    }
    Ok(match kind {
        ReportKind::Profile => profile(alloc, office, round)?,
        ReportKind::Loads => by_supervisor(alloc, office, Places::Loads, round)?,
        ReportKind::Unplaced => students(alloc, office, Whom::Unplaced, round)?,
        ReportKind::Placements => placements(alloc, office, round)?,
        ReportKind::Offers => by_supervisor(
            alloc,
            office,
            Places::Offers,
            round.saturating_sub(1),
        )?,
        ReportKind::Missing => students(alloc, office, Whom::Missing, round)?,
        ReportKind::Text => text(alloc, office, round)?,
    })
}
