//! The reports `unplaced` and `missing`.

ghost use Rattle.std.specs.Prelude.{◌≡◌, ◌++◌, ◌∷◌, [], IfOk, OnOk, string_bytes, flat_map, filter};
ghost use Rattle.office_model.specs.State.{is_placed_before};
ghost use Rattle.reports.specs.Inside.Texts.{is_named};
ghost use Rattle.reports.specs.Texts.{is_placed_by, student_line};

use crate::find::placement_of;
use office::Office;
use office_model::Student;
use std::alloc::{AllocError, Global};
use std::fmt::Write;

/// Whom a report on a round names.
#[derive(Clone, Copy)]
pub enum Whom {
    /// The students with a list in the round, which did not place them.
    Unplaced,
    /// The students without a list in the round whom no round before it placed.
    Missing,
}

/// Whether the round placed a student.
fn is_placed_by(office: &Office, round: u32, student: &str) -> bool
    ensures { result ≡ is_placed_by office.now round student.now }
{
    match placement_of(office, student) {
        Some(placement) => placement.round == round,
        None => false,
    }
}

/// Whether a round before this one placed a student.
fn is_placed_before(office: &Office, student: &str, round: u32) -> bool
    ensures { result ≡ is_placed_before office.now student.now round }
{
    match placement_of(office, student) {
        Some(placement) => placement.round < round,
        None => false,
    }
}

/// Whether a student is named.
fn is_named(office: &Office, whom: Whom, round: u32, student: &Student) -> bool
    ensures { result ≡ is_named whom office.now round student.now }
{
    let code = student.code.as_str();
    let is_listed = office.list_of(round, code).is_some();
    match whom {
        Whom::Unplaced => is_listed && !is_placed_by(office, round, code),
        Whom::Missing => !is_listed && !is_placed_before(office, code, round),
    }
}

/// Writes the students whom a report on a round names. An `Err` is out of memory.
pub fn students(
    alloc: Global,
    office: &Office,
    whom: Whom,
    round: u32,
) -> Result<String, AllocError>
    ensures { let o = office.now in IfOk result (λ text. string_bytes text ≡ flat_map student_line (filter (is_named whom o round) o.students)) }
{
    let mut out = String::new(alloc);
    for student in office.students() {
        push_student(&mut out, office, whom, round, student)?;
    }
    Ok(out)
}

/// Appends the line of a student who is named.
fn push_student(
    out: &mut String,
    office: &Office,
    whom: Whom,
    round: u32,
    student: &Student,
) -> Result<(), AllocError>
    ensures { OnOk result (string_bytes out.new ≡ string_bytes out.old ++ flat_map student_line (filter (is_named whom office.now round) (student.now ∷ []))) }
{
    if is_named(office, whom, round, student) {
        let code = student.code.as_str();
        let label = student.label.as_str();
        writeln!(out, "{code:<16} {label}")?;
    }
    Ok(())
}
