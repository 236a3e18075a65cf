//! What the lines on public texts print.

ghost use Rattle.std.specs.Prelude.{◌≡◌, ◌∷◌, ◌++◌, [], ◌<◌, ◌↔◌, map, length, Contains, decimal, IsTrue, codes, IfOk, MatchOption, Some, None, is_some, count_by, string_bytes, slice_index_or, slice_get};
ghost use Rattle.std.specs.List.{AllZip};
ghost use Rattle.spa.specs.Order.{order};
ghost use Rattle.spa.specs.Matching.{rank_in};
ghost use Rattle.public_result.specs.Posted.{IsListed};
ghost use Rattle.verdict.specs.Verdict.{IsProvedBest};
ghost use Rattle.intake.specs.Public.{IsPublicParts};
ghost use Rattle.round_files.specs.Rounds.{IsPublished};
ghost use Rattle.round_files.specs.Public.{IsCheckedOwn, IsCheckedPublic, IsJudgedBy, IsJudgedOwn, IsPositionOf, IsPublicationOf, StandsNowhere, accepted_text, own_fault_text, own_text, public_fault_text};

use crate::rounds::{Trouble, failed};
use intake::{PublicParts, RoundParts, line_fields, read_public, read_round, write_public};
use public_result::{OwnFault, PublicFault, check_own, check_public, place_of, publish};
use spa::Code;
use std::alloc::{AllocError, Global};
use std::fmt::Write;
use verdict::check;

/// Returns the public text of the parts of a round, whose prices prove its matching best.
pub(crate) fn public_of(alloc: Global, parts: RoundParts) -> Result<String, AllocError>
    requires { IsProvedBest (order parts.aim) parts.instance.shape parts.matching.places.items parts.prices }
    ensures { IfOk result (λ text. IsPublicationOf parts (string_bytes text)) }
{
    let RoundParts {
        aim,
        instance,
        matching,
        prices,
    } = parts;
    let posted = publish(alloc, &instance, aim, &matching, prices)?;
    write_public(
        alloc,
        aim,
        instance.supervisor_codes(),
        instance.project_codes(),
        instance.student_codes(),
        &posted,
    )
}

/// Returns the public text of a round text whose prices prove its matching best by the text's aim, or else the first condition
/// that fails.
pub fn published(alloc: Global, text: &[u8]) -> Result<String, Trouble>
    ensures { IsPublished text.now result }
{
    let parts = read_round(alloc, text)?;
    match check(&parts.instance, parts.aim, &parts.matching, &parts.prices) {
        Ok(()) => Ok(public_of(alloc, parts)?),
        Err(fault) => Err(Trouble::Failed(failed(alloc, &parts, fault)?)),
    }
}

/// Returns how many students are assigned a project.
fn placed(told: &[Option<usize>]) -> usize
    ensures { result ≡ count_by is_some told.now }
{
    let mut placed = 0;
    for student in 0..told.len() {
        if told[student].is_some() {
            placed += 1;
        }
    }
    placed
}

/// Returns what is printed of a public text that everybody's check accepts.
fn accepted(alloc: Global, parts: &PublicParts) -> Result<String, AllocError>
    ensures { IfOk result (λ text. string_bytes text ≡ accepted_text parts.now.posted) }
{
    let students = parts.posted.students.len();
    let size = placed(&parts.posted.students);
    let mut text = String::new(alloc);
    writeln!(text, "accepted size {size} students {students}")?;
    Ok(text)
}

/// Returns what is printed of everybody's check that failed: the number of the condition.
fn public_failed(alloc: Global, fault: PublicFault) -> Result<String, AllocError>
    ensures { IfOk result (λ text. string_bytes text ≡ public_fault_text fault) }
{
    let mut text = String::new(alloc);
    match fault {
        PublicFault::NotMatching => text.push_str("fault 1\n")?,
        PublicFault::Shape => text.push_str("fault 2\n")?,
        PublicFault::Below => text.push_str("fault 3\n")?,
        PublicFault::Room => text.push_str("fault 5\n")?,
    }
    Ok(text)
}

/// Returns what everybody's check says of a public text: how many students have a project, and of how many, or the first condition that
/// fails.
pub(crate) fn checked_public(alloc: Global, text: &[u8]) -> Result<String, Trouble>
    ensures { IsCheckedPublic text.now result }
{
    let parts = read_public(alloc, text)?;
    match check_public(&parts.posted, parts.aim) {
        Ok(()) => Ok(accepted(alloc, &parts)?),
        Err(fault) => Err(Trouble::Failed(public_failed(alloc, fault)?)),
    }
}

/// Whether a code is this text.
fn is_text(code: &Code, text: &[u8]) -> bool
    ensures { IsTrue result ↔ (code.now ≡ text.now) }
{
    code.as_str().as_bytes() == text
}

/// Returns the position of a text among codes.
fn position_of(roll: &[Code], text: &[u8]) -> Option<usize>
    ensures { MatchOption result (StandsNowhere roll.now text.now) (λ p. slice_get roll.now p ≡ Some text.now) }
{
    for position in 0..roll.len() {
        if is_text(&roll[position], text) {
            return Some(position);
        }
    }
    None
}

/// Returns the position of a text among codes, or the one after the last where it is none of them.
fn position_or_end(roll: &[Code], text: &[u8]) -> usize
    ensures { IsPositionOf roll.now text.now result }
{
    match position_of(roll, text) {
        Some(position) => position,
        None => roll.len(),
    }
}

/// Returns the positions of texts among codes. A text that is none of them has the position after the last.
fn positions_of(alloc: Global, roll: &[Code], texts: &[&[u8]]) -> Result<Vec<usize>, AllocError>
    ensures { IfOk result (λ list. AllZip (IsPositionOf roll.now) (map (λ t. t.now) texts.now) list.items) }
{
    let mut list = Vec::new(alloc);
    for n in 0..texts.len() {
        list.push(position_or_end(roll, texts[n]))?;
    }
    Ok(list)
}

/// Returns the rank of a project on a list.
fn rank_of(list: &[usize], project: usize) -> usize
    requires { Contains list.now project }
    ensures { result ≡ rank_in list.now project }
{
    match place_of(list, project) {
        Some(rank) => rank,
        None => unreachable!(),
    }
}

/// Returns what is printed of a project that a student is assigned, with its rank.
fn placed_text(alloc: Global, project: &Code, rank: usize) -> Result<String, AllocError>
    ensures { IfOk result (λ text. string_bytes text ≡ codes "accepted " ++ project.now ++ 32 ∷ decimal rank ++ 10 ∷ []) }
{
    let mut text = String::new(alloc);
    let code = project.as_str();
    writeln!(text, "accepted {code} {rank}")?;
    Ok(text)
}

/// Returns what is printed of a student's own check that accepts: the project with its rank, or none.
fn own_accepted(
    alloc: Global,
    parts: &PublicParts,
    student: usize,
    list: &[usize],
) -> Result<String, AllocError>
    requires parts { IsPublicParts parts.now }
    requires student { student < length parts.now.posted.students.items }
    requires listed { IsListed list.now (slice_index_or parts.now.posted.students.items student None) }
    ensures { IfOk result (λ text. string_bytes text ≡ own_text parts.now.projects.items list.now (slice_index_or parts.now.posted.students.items student None)) }
{
    match parts.posted.students[student] {
        None => String::from_str(alloc, "accepted none\n"),
        Some(project) => {
            let rank = rank_of(list, project);
            placed_text(alloc, &parts.projects[project], rank)
        }
    }
}

/// Returns what is printed of a student's own check that failed: the number of the condition, and of what is worth more the place.
fn own_failed(alloc: Global, student: &Code, fault: OwnFault) -> Result<String, AllocError>
    ensures { IfOk result (λ text. string_bytes text ≡ own_fault_text student.now fault) }
{
    let mut text = String::new(alloc);
    let code = student.as_str();
    match fault {
        OwnFault::List => text.push_str("fault 7\n")?,
        OwnFault::NotListed => text.push_str("fault 6\n")?,
        OwnFault::Dear => writeln!(text, "fault 4 {code} 0")?,
        OwnFault::Better(place) => writeln!(text, "fault 4 {code} {place}")?,
    }
    Ok(text)
}

/// Returns what is printed where no line of a public text is the student's.
fn not_in_round(alloc: Global) -> Result<String, AllocError>
    ensures { IfOk result (λ text. string_bytes text ≡ codes "not in this round" ++ 10 ∷ []) }
{
    String::from_str(alloc, "not in this round\n")
}

/// Judges what the parts of a public text, which everybody's check accepts, assign to a student by the own list.
fn judged_own(
    alloc: Global,
    parts: &PublicParts,
    student: &[u8],
    list: &[&[u8]],
) -> Result<String, Trouble>
    requires parts { IsPublicParts parts.now }
    ensures { IsJudgedOwn parts.now student.now (map (λ p. p.now) list.now) result }
{
    let Some(position) = position_of(&parts.students, student) else {
        return Err(Trouble::Failed(not_in_round(alloc)?));
    };
    let list = positions_of(alloc, &parts.projects, list)?;
    match check_own(&parts.posted, parts.aim, position, &list) {
        Ok(()) => Ok(own_accepted(alloc, parts, position, &list)?),
        Err(fault) => {
            let text = own_failed(alloc, &parts.students[position], fault)?;
            Err(Trouble::Failed(text))
        }
    }
}

/// Judges what the parts of a public text assign to a student by the fields of a line: the student's code and list.
fn judged_line(alloc: Global, parts: &PublicParts, fields: &[&[u8]]) -> Result<String, Trouble>
    requires { IsPublicParts parts.now }
    ensures { IsJudgedBy parts.now (map (λ f. f.now) fields.now) result }
{
    match fields.split_first() {
        None => judged_own(alloc, parts, &[], fields),
        Some((student, list)) => judged_own(alloc, parts, student, list),
    }
}

/// Returns what a student's own check says of a public text: the project with its rank on the student's own list, or the first
/// condition that fails, of everybody's check or else of the student's. The line is the student's code and list, with commas.
pub fn checked_own(alloc: Global, text: &[u8], line: &[u8]) -> Result<String, Trouble>
    ensures { IsCheckedOwn text.now line.now result }
{
    let parts = read_public(alloc, text)?;
    match check_public(&parts.posted, parts.aim) {
        Ok(()) => {
            let fields = line_fields(alloc, line)?;
            judged_line(alloc, &parts, &fields)
        }
        Err(fault) => Err(Trouble::Failed(public_failed(alloc, fault)?)),
    }
}
