//! Public texts, written.
#![tactic(auto)]

ghost use Rattle.std.specs.Prelude.{◌≡◌, [], ◌∷◌, ◌++◌, ◌<◌, map, IfOk, IfSome, OnOk, All, string_bytes, codes, length};
ghost use Rattle.spa.specs.Named.{students_named};
ghost use Rattle.spa.specs.Codes.{code_at};
ghost use Rattle.public_result.specs.Posted.{IsKnown};
ghost use Rattle.intake.specs.Lines.{line, ended, section_lines, public_text, student_row};
ghost use Rattle.intake.specs.Public.{posted_parts, assigned_list};

use crate::lines::push_student;
use crate::section::Kind;
use crate::write::{write_aim, write_prices, write_projects, write_supervisors};
use public_result::Posted;
use spa::{Aim, Code};
use std::alloc::{AllocError, Global};

/// Appends the line of what a student is assigned.
fn push_assigned(
    out: &mut String,
    projects: &[Code],
    student: &str,
    assigned: Option<usize>,
) -> Result<(), AllocError>
    requires { IfSome assigned (λ p. p < length projects.now) }
    ensures { OnOk result (string_bytes out.new ≡ string_bytes out.old ++ ended (line (codes "R") (student.now ∷ map (code_at projects.now) (assigned_list assigned)) ∷ [])) }
{
    match assigned {
        None => push_student(out, "R", student, projects, &[]),
        Some(project) => push_student(out, "R", student, projects, &[project]),
    }
}

/// Appends the lines of what students are assigned.
fn write_assigned(
    out: &mut String,
    projects: &[Code],
    roll: &[Code],
    assigned: &[Option<usize>],
) -> Result<(), AllocError>
    requires one_each { length roll.now ≡ length assigned.now }
    requires known { All (λ t. IfSome t (λ p. p < length projects.now)) assigned.now }
    ensures { OnOk result (string_bytes out.new ≡ string_bytes out.old
        ++ ended (section_lines (record { letter = codes "R"; rows = map student_row (students_named projects.now roll.now (map assigned_list assigned.now)) }))) }
{
    for s in 0..roll.len() {
        push_assigned(out, projects, roll[s].as_str(), assigned[s])?;
    }
    Ok(())
}

/// Writes what is posted by an aim, with the codes of who is in it: the one text of these parts. An `Err` is out of memory.
pub fn write_public(
    alloc: Global,
    aim: Aim,
    supervisors: &[Code],
    projects: &[Code],
    students: &[Code],
    posted: &Posted,
) -> Result<String, AllocError>
    requires supervisors { length supervisors.now ≡ length posted.now.supervisors.items }
    requires projects { length projects.now ≡ length posted.now.projects.items }
    requires students { length students.now ≡ length posted.now.students.items }
    requires project_prices { length posted.now.project_prices.items ≡ length posted.now.projects.items }
    requires supervisor_prices { length posted.now.supervisor_prices.items ≡ length posted.now.supervisors.items }
    requires known { IsKnown posted.now }
    ensures text { IfOk result (λ text. string_bytes text ≡ public_text (posted_parts aim supervisors.now projects.now students.now posted.now)) }
{
    let kind = Kind::Public;
    let mut out = String::new(alloc);
    write_aim(&mut out, aim)?;
    write_supervisors(&mut out, supervisors, &posted.supervisors)?;
    write_projects(&mut out, supervisors, projects, &posted.projects)?;
    write_assigned(&mut out, projects, students, &posted.students)?;
    write_prices(&mut out, kind, "Y", projects, &posted.project_prices)?;
    write_prices(&mut out, kind, "Z", supervisors, &posted.supervisor_prices)?;
    Ok(out)
}
