//! Lines of a round text, written.
#![tactic(auto)]

ghost use Rattle.std.specs.Prelude.{◌≡◌, ◌<◌, List, [], ◌∷◌, ◌++◌, map, flat_map, All, OnOk, string_bytes, codes, decimal, length};
ghost use Rattle.std.specs.Fmt.{signed_decimal};
ghost use Rattle.spa.specs.Codes.{code_at};
ghost use Rattle.intake.specs.Lines.{line, ended};

use spa::{COMPONENTS, Code};
use std::alloc::AllocError;

/// Appends a supervisor's line.
pub(crate) fn push_supervisor(out: &mut String, code: &str, quota: u32) -> Result<(), AllocError>
    ensures { OnOk result (string_bytes out.new ≡ string_bytes out.old ++ ended (line (codes "S") (code.now ∷ decimal quota ∷ []) ∷ [])) }
{
    writeln!(out, "S,{code},{quota}")
}

/// Appends a project's line.
pub(crate) fn push_project(
    out: &mut String,
    supervisors: &[Code],
    code: &str,
    project: (usize, u32),
) -> Result<(), AllocError>
    requires { project.0 < length supervisors.now }
    ensures { OnOk result (string_bytes out.new ≡ string_bytes out.old ++ ended (line (codes "P") (code.now ∷ code_at supervisors.now project.0 ∷ decimal project.1 ∷ []) ∷ [])) }
{
    let (owner, quota) = project;
    writeln!(out, "P,{code},{},{quota}", supervisors[owner].as_str())
}

/// Appends a pair's line.
pub(crate) fn push_pair(out: &mut String, student: &str, project: &str) -> Result<(), AllocError>
    ensures { OnOk result (string_bytes out.new ≡ string_bytes out.old ++ ended (line (codes "M") (student.now ∷ project.now ∷ []) ∷ [])) }
{
    writeln!(out, "M,{student},{project}")
}

/// Appends codes as fields.
fn push_codes(out: &mut String, known: &[Code], positions: &[usize]) -> Result<(), AllocError>
    requires { All (λ p. p < length known.now) positions.now }
    ensures { OnOk result (string_bytes out.new ≡ string_bytes out.old ++ flat_map (λ field. 44 ∷ field) (map (code_at known.now) positions.now)) }
{
    for position in positions {
        out.push_str(",")?;
        out.push_str(known[*position].as_str())?;
    }
    Ok(())
}

/// Appends a student's line.
pub(crate) fn push_student(
    out: &mut String,
    letter: &str,
    code: &str,
    projects: &[Code],
    list: &[usize],
) -> Result<(), AllocError>
    requires { All (λ p. p < length projects.now) list.now }
    ensures { OnOk result (string_bytes out.new ≡ string_bytes out.old ++ ended (line letter.now (code.now ∷ map (code_at projects.now) list.now) ∷ [])) }
{
    write!(out, "{letter},{code}")?;
    push_codes(out, projects, list)?;
    out.push_str("\n")
}

/// Appends the numbers of a price as fields.
fn push_numbers(out: &mut String, price: &[i64; COMPONENTS]) -> Result<(), AllocError>
    ensures { OnOk result (string_bytes out.new ≡ string_bytes out.old ++ flat_map (λ field. 44 ∷ field) (map signed_decimal price.now)) }
{
    for number in price {
        write!(out, ",{number}")?;
    }
    Ok(())
}

/// Appends a price's line.
pub(crate) fn push_price(
    out: &mut String,
    letter: &str,
    code: &str,
    price: &[i64; COMPONENTS],
) -> Result<(), AllocError>
    ensures { OnOk result (string_bytes out.new ≡ string_bytes out.old ++ ended (line letter.now (code.now ∷ map signed_decimal price.now) ∷ [])) }
{
    write!(out, "{letter},{code}")?;
    push_numbers(out, price)?;
    out.push_str("\n")
}
