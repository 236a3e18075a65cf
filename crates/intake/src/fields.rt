//! The pieces of a text: lines, their fields, and the codes and numbers that fields stand for.
#![tactic(auto)]

ghost use Rattle.std.specs.Prelude.{◌≡◌, ◌≤◌, ◌==◌, ℕ, ℤ, List, map, length, IfOk, IfSome, MatchOption, IsTrue, ◌↔◌, false, decimal};
ghost use Rattle.std.specs.Fmt.{signed_decimal};
ghost use Rattle.std.specs.List.{slice_split};
ghost use Rattle.spa.specs.Text.{is_code};
ghost use Rattle.verdict.specs.Rows.{InRange};
ghost use Rattle.intake.specs.Parts.{IsPrice};

use spa::{COMPONENTS, Code, MAX_QUOTA};
use std::alloc::{AllocError, Global};
use std::str;
use verdict::LIMIT;

/// Returns the pieces of a text between its bytes of a kind. There is room for `room` pieces before memory has to grow.
pub(crate) fn pieces<'a>(
    alloc: Global,
    text: &'a [u8],
    end: u8,
    room: usize,
) -> Result<Vec<&'a [u8]>, AllocError>
    ensures { IfOk result (λ v. map (λ p. p.now) v.items ≡ slice_split (λ b. b == end) text.now) }
{
    let mut pieces = Vec::with_capacity(alloc, room)?;
    let mut start = 0;
    for at in 0..text.len() {
        if text[at] == end {
            pieces.push(&text[start..at])?;
            start = at + 1;
        }
    }
    pieces.push(&text[start..])?;
    Ok(pieces)
}

/// Returns the code that a field is.
pub(crate) fn read_code(field: &[u8]) -> Option<Code>
    ensures { MatchOption result (is_code field.now ≡ false) (λ c. (c ≡ field.now) × IsTrue (is_code field.now)) }
{
    let Ok(text) = str::from_utf8(field) else {
        return None;
    };
    Code::read(text).ok()
}

/// Whether a field is the one text of a quota: no sign, and no zero before it.
fn is_decimal(field: &[u8], quota: u32) -> bool
    ensures { IsTrue result ↔ (field.now ≡ decimal quota) }
{
    let mut buffer = itoa::Buffer::new();
    buffer.format(quota).as_bytes() == field
}

/// Returns the quota that a field is.
pub(crate) fn read_quota(field: &[u8]) -> Option<u32>
    ensures { MatchOption result ((n : ℕ) → n ≤ MAX_QUOTA → ¬ (field.now ≡ decimal n)) (λ n. (n ≤ MAX_QUOTA) × (field.now ≡ decimal n)) }
{
    let Ok(text) = str::from_utf8(field) else {
        return None;
    };
    let Ok(quota) = text.parse::<u32>() else {
        return None;
    };
    if quota > MAX_QUOTA {
        return None;
    }
    if !is_decimal(field, quota) {
        return None;
    }
    Some(quota)
}

/// Whether a field is the one text of a signed number: no plus, and no zero before it.
fn is_signed_decimal(field: &[u8], number: i64) -> bool
    ensures { IsTrue result ↔ (field.now ≡ signed_decimal number) }
{
    let mut buffer = itoa::Buffer::new();
    buffer.format(number).as_bytes() == field
}

/// Whether a price may have this number.
fn is_in_range(number: i64) -> bool
    ensures { IsTrue result ↔ InRange number }
{
    number >= -LIMIT && number <= LIMIT
}

/// Returns the number that a field of one digit is, with a minus before it or none.
fn read_digit(field: &[u8]) -> Option<i64>
    ensures { IfSome result (λ n. InRange n × (field.now ≡ signed_decimal n)) }
{
    if field.len() == 1 {
        if field[0] < b'0' || field[0] > b'9' {
            return None;
        }
        return Some((field[0] - b'0') as i64);
    }
    if field.len() != 2 || field[0] != b'-' {
        return None;
    }
    if field[1] < b'1' || field[1] > b'9' {
        return None;
    }
    Some(-((field[1] - b'0') as i64))
}

/// Returns the number of a price that a field is.
fn read_number(field: &[u8]) -> Option<i64>
    ensures { MatchOption result ((n : ℤ) → InRange n → ¬ (field.now ≡ signed_decimal n)) (λ n. InRange n × (field.now ≡ signed_decimal n)) }
{
    // Most prices are small.
    if let Some(number) = read_digit(field) {
        return Some(number);
    }
    let Ok(text) = str::from_utf8(field) else {
        return None;
    };
    let Ok(number) = text.parse::<i64>() else {
        return None;
    };
    if !is_in_range(number) {
        return None;
    }
    if !is_signed_decimal(field, number) {
        return None;
    }
    Some(number)
}

/// Returns the price that fields are.
pub(crate) fn read_price(fields: &[&[u8]]) -> Option<[i64; COMPONENTS]>
    ensures { MatchOption result ((v : List ℤ) → IsPrice v → ¬ (map (λ f. f.now) fields.now ≡ map signed_decimal v)) (λ v. IsPrice v × (map (λ f. f.now) fields.now ≡ map signed_decimal v)) }
{
    if fields.len() != COMPONENTS {
        return None;
    }
    let mut price = [0; COMPONENTS];
    for t in 0..COMPONENTS {
        let Some(number) = read_number(fields[t]) else {
            return None;
        };
        price[t] = number;
    }
    Some(price)
}
