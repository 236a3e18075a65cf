//! The reports `loads` and `offers`: what has been placed with each supervisor and in each project, and what is left.

ghost use Rattle.std.specs.Prelude.{◌≡◌, ◌<◌, ◌++◌, ◌∷◌, [], ℕ, Some, IfOk, OnOk, slice_get, string_bytes, flat_map, filter};
ghost use Rattle.std.specs.Str.{bytes_eq};
ghost use Rattle.spa.specs.declared.TheConstants.{MAX_PROJECTS, MAX_SUPERVISORS};
ghost use Rattle.office_model.specs.State.{State};
ghost use Rattle.reports.specs.Inside.Texts.{AreLoads, own_rows, project_row, rows_of};
ghost use Rattle.reports.specs.Texts.{left, load_row, right};

use office::Office;
use office_model::{Project, Supervisor, counted};
use spa::{Code, Counts};
use std::alloc::{AllocError, Global};
use std::fmt::Write;

/// What a report says of the places of supervisors and projects.
#[derive(Clone, Copy)]
pub enum Places {
    /// How many are taken, next to the quotas.
    Loads,
    /// How many each project could still give.
    Offers,
}

/// Appends a line of loads.
fn push_load(
    out: &mut String,
    width: usize,
    code: &Code,
    placed: usize,
    quota: u32,
) -> Result<(), AllocError>
    ensures { OnOk result (string_bytes out.new ≡ string_bytes out.old ++ load_row width code.now placed quota) }
{
    let code = code.as_str();
    writeln!(out, "{code:<width$}{placed:>5}{quota:>5}")?;
    Ok(())
}

/// Appends a project with the places that it could still give.
fn push_offer(
    out: &mut String,
    supervisor: &Supervisor,
    project: &Project,
    places: u32,
) -> Result<(), AllocError>
    ensures { let s = supervisor.now in let p = project.now in OnOk result (string_bytes out.new ≡ string_bytes out.old ++ (left 16 p.code ++ right 5 places ++ 32 ∷ left 16 s.code ++ 32 ∷ s.label ++ 9 ∷ p.label ++ 10 ∷ [])) }
{
    let code = project.code.as_str();
    let by = supervisor.code.as_str();
    let name = supervisor.label.as_str();
    let title = project.label.as_str();
    writeln!(out, "{code:<16}{places:>5} {by:<16} {name}\t{title}")?;
    Ok(())
}

/// Appends the line of a project, if the supervisor offers it. Both are named with their positions.
fn push_project(
    out: &mut String,
    told: Places,
    counts: &Counts,
    at: usize,
    supervisor: &Supervisor,
    position: usize,
    project: &Project,
) -> Result<(), AllocError>
    requires supervisor { at < MAX_SUPERVISORS }
    requires project { position < MAX_PROJECTS }
    ensures { OnOk result ((o : State) (n : ℕ) → slice_get o.supervisors at ≡ Some supervisor.now → slice_get o.projects position ≡ Some project.now → AreLoads o n counts.now → string_bytes out.new ≡ string_bytes out.old ++ flat_map (project_row told o n supervisor.now) (filter (λ p. let s = supervisor.now in bytes_eq s.code p.supervisor) (project.now ∷ []))) }
{
    if supervisor.code.as_str() == project.supervisor.as_str() {
        let placed = counts.in_project(position);
        match told {
            Places::Loads => {
                out.push_str("  ")?;
                push_load(out, 16, &project.code, placed as usize, project.quota)?;
            }
            Places::Offers => {
                let rest = supervisor.quota.saturating_sub(counts.with_supervisor(at));
                let places = project.quota.saturating_sub(placed).min(rest);
                push_offer(out, supervisor, project, places)?;
            }
        }
    }
    Ok(())
}

/// Appends the lines of the projects that a supervisor offers.
fn push_offered(
    out: &mut String,
    office: &Office,
    told: Places,
    counts: &Counts,
    at: usize,
    supervisor: &Supervisor,
) -> Result<(), AllocError>
    requires { at < MAX_SUPERVISORS }
    ensures { OnOk result ((n : ℕ) → slice_get (let o = office.now in o.supervisors) at ≡ Some supervisor.now → AreLoads office.now n counts.now → string_bytes out.new ≡ string_bytes out.old ++ own_rows told office.now n supervisor.now) }
{
    let projects = office.projects();
    for position in 0..projects.len() {
        push_project(
            out,
            told,
            counts,
            at,
            supervisor,
            position,
            &projects[position],
        )?;
    }
    Ok(())
}

/// Appends the lines of a supervisor.
fn push_supervisor(
    out: &mut String,
    office: &Office,
    told: Places,
    counts: &Counts,
    at: usize,
    supervisor: &Supervisor,
) -> Result<(), AllocError>
    requires { at < MAX_SUPERVISORS }
    ensures { OnOk result ((n : ℕ) → slice_get (let o = office.now in o.supervisors) at ≡ Some supervisor.now → AreLoads office.now n counts.now → string_bytes out.new ≡ string_bytes out.old ++ rows_of told office.now n supervisor.now) }
{
    if let Places::Loads = told {
        let placed = counts.with_supervisor(at) as usize;
        push_load(out, 18, &supervisor.code, placed, supervisor.quota)?;
    }
    push_offered(out, office, told, counts, at, supervisor)?;
    Ok(())
}

/// Writes what is reported of the places that the rounds up to this one took. The placements are counted in one pass. An `Err` is out of
/// memory.
pub fn by_supervisor(
    alloc: Global,
    office: &Office,
    told: Places,
    round: u32,
) -> Result<String, AllocError>
    ensures { let o = office.now in IfOk result (λ text. string_bytes text ≡ flat_map (rows_of told o round) o.supervisors) }
{
    let supervisors = office.supervisors();
    let counts = counted(
        Some(round),
        supervisors,
        office.projects(),
        office.placements(),
    );
    let mut out = String::new(alloc);
    for at in 0..supervisors.len() {
        push_supervisor(&mut out, office, told, &counts, at, &supervisors[at])?;
    }
    Ok(out)
}
