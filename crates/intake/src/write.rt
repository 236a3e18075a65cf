//! Round texts, written.
#![tactic(auto)]

ghost use Rattle.std.specs.Prelude.{◌≡◌, ◌<◌, ◌≤◌, ◌++◌, map, flat_map, drop, codes, IfOk, IfSome, OnOk, string_bytes, length, All, IsTrue};
ghost use Rattle.spa.specs.Text.{is_code};
ghost use Rattle.spa.specs.declared.TheConstants.{COMPONENTS};
ghost use Rattle.spa.specs.declared.aim.Aim.{Aim};
ghost use Rattle.spa.specs.Instance.{supervisor_codes, project_codes, student_codes};
ghost use Rattle.spa.specs.Named.{IsFit, Named, instance_of, supervisors_named, projects_named};
ghost use Rattle.spa.specs.Matched.{IsMatched, HasPlaces};
ghost use Rattle.verdict.specs.Verdict.{HasShape};
ghost use Rattle.intake.specs.declared.TheConstants.{MAX_BYTES};
ghost use Rattle.intake.specs.Parts.{Rise, IsRoundParts};
ghost use Rattle.intake.specs.Lines.{Section, aim_rows, supervisor_row, project_row, student_row, pair_rows, price_rows, sections, section_lines, ended, instance_text, round_text};
ghost use Rattle.intake.specs.declared.section.Kind.TheVariants.{Round};
ghost use Rattle.intake.specs.View.{proved, written};

use crate::draft::has_line;
use crate::lines::{push_pair, push_price, push_project, push_student, push_supervisor};
use crate::section::Kind;
use spa::{Aim, COMPONENTS, Code, Instance, Matching};
use std::alloc::{AllocError, Global};
use verdict::Prices;

/// Appends the line of an aim, where it has one.
pub(crate) fn write_aim(out: &mut String, aim: Aim) -> Result<(), AllocError>
    ensures text { OnOk result (string_bytes out.new ≡ string_bytes out.old ++ ended (section_lines (record { letter = codes "A"; rows = aim_rows aim }))) }
{
    match aim {
        Aim::Greedy => Ok(()),
        Aim::Generous => out.push_str("A,generous\n"),
    }
}

/// Appends the supervisors' lines.
pub(crate) fn write_supervisors(
    out: &mut String,
    roll: &[Code],
    quotas: &[u32],
) -> Result<(), AllocError>
    requires { length roll.now ≡ length quotas.now }
    ensures text { OnOk result (string_bytes out.new ≡ string_bytes out.old ++ ended (section_lines (record { letter = codes "S"; rows = map supervisor_row (supervisors_named roll.now quotas.now) }))) }
    ensures form { OnOk result (All (λ c. IsTrue (is_code c)) roll.now) }
{
    for l in 0..roll.len() {
        push_supervisor(out, roll[l].as_str(), quotas[l])?;
    }
    Ok(())
}

/// Appends the projects' lines.
pub(crate) fn write_projects(
    out: &mut String,
    supervisors: &[Code],
    roll: &[Code],
    projects: &[(usize, u32)],
) -> Result<(), AllocError>
    requires one_each { length roll.now ≡ length projects.now }
    requires offered { All (λ p. p.0 < length supervisors.now) projects.now }
    ensures text { OnOk result (string_bytes out.new ≡ string_bytes out.old ++ ended (section_lines (record { letter = codes "P"; rows = map project_row (projects_named supervisors.now roll.now projects.now) }))) }
    ensures form { OnOk result (All (λ c. IsTrue (is_code c)) roll.now) }
{
    for p in 0..roll.len() {
        push_project(out, supervisors, roll[p].as_str(), projects[p])?;
    }
    Ok(())
}

/// Appends the students' lines.
fn write_students(out: &mut String, instance: &Instance) -> Result<(), AllocError>
    ensures text { OnOk result (string_bytes out.new ≡ string_bytes out.old ++ ended (section_lines (record { letter = codes "C"; rows = map student_row (instance_of instance.now).students }))) }
    ensures form { OnOk result (All (λ c. IsTrue (is_code c)) instance.now.student_codes) }
{
    let codes = instance.student_codes();
    for s in 0..codes.len() {
        push_student(
            out,
            "C",
            codes[s].as_str(),
            instance.project_codes(),
            instance.list(s),
        )?;
    }
    Ok(())
}

/// Appends the lines of the pairs.
fn write_pairs(
    out: &mut String,
    instance: &Instance,
    places: &[Option<u8>],
) -> Result<(), AllocError>
    requires { HasPlaces instance.now.shape places.now }
    ensures { OnOk result (string_bytes out.new ≡ string_bytes out.old ++ ended (section_lines (record { letter = codes "M"; rows = pair_rows (instance_of instance.now).students places.now }))) }
{
    let codes = instance.student_codes();
    let projects = instance.project_codes();
    for s in 0..places.len() {
        if let Some(place) = places[s] {
            let project = instance.choice(s, place as usize);
            push_pair(out, codes[s].as_str(), projects[project].as_str())?;
        }
    }
    Ok(())
}

/// Appends the lines of the prices of a roll.
pub(crate) fn write_prices(
    out: &mut String,
    kind: Kind,
    letter: &str,
    roll: &[Code],
    prices: &[[i64; COMPONENTS]],
) -> Result<(), AllocError>
    requires { length prices.now ≡ length roll.now }
    ensures text { OnOk result (string_bytes out.new ≡ string_bytes out.old ++ ended (section_lines (record { letter = letter.now; rows = price_rows kind roll.now prices.now }))) }
    ensures numbers { OnOk result (All (λ v. length v ≡ COMPONENTS) prices.now) }
{
    for n in 0..prices.len() {
        if has_line(kind, &prices[n]) {
            push_price(out, letter, roll[n].as_str(), &prices[n])?;
        }
    }
    Ok(())
}

/// Appends the lines of an aim and an instance.
fn write_instance(out: &mut String, instance: &Instance, aim: Aim) -> Result<(), AllocError>
    ensures text { OnOk result (string_bytes out.new ≡ string_bytes out.old ++ instance_text aim (instance_of instance.now)) }
    ensures supervisors { OnOk result (All (λ c. IsTrue (is_code c)) instance.now.supervisor_codes) }
    ensures projects { OnOk result (All (λ c. IsTrue (is_code c)) instance.now.project_codes) }
    ensures students { OnOk result (All (λ c. IsTrue (is_code c)) instance.now.student_codes) }
    ensures fit { OnOk result (IsFit instance.now) }
{
    write_aim(out, aim)?;
    let supervisors = instance.supervisor_codes();
    write_supervisors(out, supervisors, instance.supervisors())?;
    write_projects(
        out,
        supervisors,
        instance.project_codes(),
        instance.projects(),
    )?;
    write_students(out, instance)
}

/// Appends the lines of a matching and of prices.
fn write_proof(
    out: &mut String,
    instance: &Instance,
    matching: &Matching,
    prices: &Prices,
) -> Result<(), AllocError>
    requires places { HasPlaces instance.now.shape matching.now.places.items }
    requires shape { HasShape instance.now.shape prices.now }
    ensures text { OnOk result ((aim : Aim) → string_bytes out.new ≡ string_bytes out.old ++ ended (flat_map section_lines (drop 4 (sections Round (proved instance.now aim matching.now.places.items prices.now))))) }
    ensures students { OnOk result (All (λ v. length v ≡ COMPONENTS) prices.now.students.items) }
    ensures projects { OnOk result (All (λ v. length v ≡ COMPONENTS) prices.now.projects.items) }
    ensures supervisors { OnOk result (All (λ v. length v ≡ COMPONENTS) prices.now.supervisors.items) }
{
    let kind = Kind::Round;
    write_pairs(out, instance, &matching.places)?;
    write_prices(out, kind, "U", instance.student_codes(), &prices.students)?;
    write_prices(out, kind, "Y", instance.project_codes(), &prices.projects)?;
    write_prices(
        out,
        kind,
        "Z",
        instance.supervisor_codes(),
        &prices.supervisors,
    )?;
    Ok(())
}

/// Writes an instance and an aim, alone or with a matching and prices: the one text of these parts. Codes rise in each roll. An `Err` is
/// out of memory.
pub fn write_round(
    alloc: Global,
    instance: &Instance,
    aim: Aim,
    proof: Option<(&Matching, &Prices)>,
) -> Result<String, AllocError>
    requires supervisors { Rise (supervisor_codes (instance_of instance.now)) }
    requires projects { Rise (project_codes (instance_of instance.now)) }
    requires students { Rise (student_codes (instance_of instance.now)) }

    // The first two faults of a check don't apply.
    requires matching { IfSome proof (λ p. IsMatched instance.now.shape p.0.now.places.items) }
    requires shape { IfSome proof (λ p. HasShape instance.now.shape p.1.now) }

    ensures text { IfOk result (λ text. string_bytes text ≡ round_text (written instance.now aim proof.entry)) }

    // It is never too large to be read.
    ensures small { IfOk result (λ text. length (string_bytes text) ≤ MAX_BYTES) }

    // So the law of round texts holds of them.
    ensures parts { OnOk result (IsRoundParts (written instance.now aim proof.entry)) }
{
    let mut out = String::new(alloc);
    write_instance(&mut out, instance, aim)?;
    if let Some((matching, prices)) = proof {
        write_proof(&mut out, instance, matching, prices)?;
    }
    Ok(out)
}
