//! Texts, read.
#![tactic(auto)]

ghost use Rattle.std.specs.Prelude.{◌≡◌, ◌==◌, ◌↔◌, [], map, IfOk, IsTrue};
ghost use Rattle.std.specs.List.{slice_split};
ghost use Rattle.intake.specs.Inside.PartialRound.{draft_of, IsWhole, IsDraftReading};
ghost use Rattle.intake.specs.Public.{IsPublicReading, TellsStudent, TellsStudents};
ghost use Rattle.intake.specs.Reading.{IsReading};

use crate::MAX_BYTES;
use crate::draft::PartialRound;
use crate::fields::pieces;
use crate::public_parts::PublicParts;
use crate::round::{RoundFault, RoundParts};
use crate::section::Kind;
use spa::COMPONENTS;
use std::alloc::{AllocError, Global};

/// Whether a text may end with this after its last LF.
fn may_end(kind: Kind, draft: &PartialRound, last: &[u8]) -> bool
    ensures { IsTrue result ↔ (last.now ≡ []) × IsWhole kind (draft_of draft.now) }
{
    last.is_empty() && draft.is_whole(kind)
}

/// Reads a text of a kind: its lines, each of which must be one that may come after those before.
fn read(kind: Kind, alloc: Global, text: &[u8]) -> Result<PartialRound, RoundFault>
    ensures { IsDraftReading kind text.now result }
{
    if text.len() > MAX_BYTES {
        return Err(RoundFault::TooLarge);
    }
    let lines = pieces(alloc, text, b'\n', 64)?;
    let whole = lines.len() - 1;
    let mut draft = PartialRound::new(alloc);
    for n in 0..whole {
        if !draft.add_line(kind, alloc, lines[n])? {
            return Err(RoundFault::Line(n + 1));
        }
    }
    if !may_end(kind, &draft, lines[whole]) {
        return Err(RoundFault::Line(lines.len()));
    }
    Ok(draft)
}

/// Reads a round text. A text of more than 524,288 bytes is too large, whatever its lines; else the first bad line is
/// named, counted from 1. Whether the matching keeps the quotas is not judged.
pub fn read_round(alloc: Global, text: &[u8]) -> Result<RoundParts, RoundFault>
    ensures reading { IsReading text.now result }
{
    let draft = read(Kind::Round, alloc, text)?;
    Ok(draft.finish(alloc)?)
}

/// Reads a public text. A text of more than 524,288 bytes is too large, whatever its lines; else the first bad line is
/// named, counted from 1. Whether what is posted keeps the quotas is not judged.
pub fn read_public(alloc: Global, text: &[u8]) -> Result<PublicParts, RoundFault>
    ensures reading { IsPublicReading text.now result }
{
    let draft = read(Kind::Public, alloc, text)?;
    Ok(PublicParts::of(alloc, draft)?)
}

/// Whether a line assigns something to a student: it begins with an R.
fn tells_student(line: &[u8]) -> bool
    ensures { IsTrue result ↔ TellsStudent line.now }
{
    let Some((first, _)) = line.split_first() else {
        return false;
    };
    *first == b'R'
}

/// Whether a text is public: a line of it begins with an R. An `Err` is out of memory.
pub fn is_public(alloc: Global, text: &[u8]) -> Result<bool, AllocError>
    ensures { IfOk result (λ b. IsTrue b ↔ TellsStudents text.now) }
{
    let lines = pieces(alloc, text, b'\n', 64)?;
    Ok(lines.iter().any(|line| tells_student(line)))
}

/// Returns the fields of a line: what stands between its commas. An `Err` is out of memory.
pub fn line_fields<'a>(alloc: Global, line: &'a [u8]) -> Result<Vec<&'a [u8]>, AllocError>
    ensures { IfOk result (λ v. map (λ p. p.now) v.items ≡ slice_split (λ b. b == 44) line.now) }
{
    pieces(alloc, line, b',', COMPONENTS)
}
