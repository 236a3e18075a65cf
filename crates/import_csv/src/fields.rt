//! What the fields of a record stand for.
#![tactic(auto)]

ghost use Rattle.std.specs.Prelude.{◌≡◌, ◌==◌, IfOk, true};
ghost use Rattle.std.specs.List.{slice_split};
ghost use Rattle.import_csv.specs.Fields.{text_of, is_quota, number_of, quota_of, choices_of};

use office_model::{Text, Texts};
use std::alloc::{AllocError, Global};
use std::str;

/// The quota that a field which is none stands for. It is above every limit, so the office refuses it.
const NO_QUOTA: u32 = 9_999;

/// The most digits of a quota.
const MAX_DIGITS: usize = 3;

/// Returns a field as a text. One that is not UTF-8 is the empty text.
fn readable(field: &[u8]) -> &str
    ensures { result.now ≡ text_of field.now }
{
    match str::from_utf8(field) {
        Ok(text) => text,
        Err(_) => "",
    }
}

/// Returns a field as a text of its own.
pub(crate) fn text_of(alloc: Global, field: &[u8]) -> Result<Text, AllocError>
    ensures { IfOk result (λ text. text ≡ text_of field.now) }
{
    Text::of(alloc, readable(field))
}

/// Whether a field is 1 to 3 digits.
fn is_quota(field: &[u8]) -> bool
    ensures { result ≡ is_quota field.now }
{
    !field.is_empty() && field.len() <= MAX_DIGITS && field.iter().all(|byte| byte.is_ascii_digit())
}

/// Returns the number that 1 to 3 digits write.
fn number_of(digits: &[u8]) -> u32
    requires { is_quota digits.now ≡ true }
    ensures { result ≡ number_of digits.now }
{
    let mut number = 0;
    for digit in digits {
        number = 10 * number + u32::from(*digit - b'0');
    }
    number
}

/// Returns the quota that a field writes.
pub(crate) fn quota_of(field: &[u8]) -> u32
    ensures { result ≡ quota_of field.now }
{
    if is_quota(field) {
        number_of(field)
    } else {
        NO_QUOTA
    }
}

/// Returns the codes between the spaces of a text.
fn codes_of(alloc: Global, list: &str) -> Result<Vec<Text>, AllocError>
    ensures { IfOk result (λ codes. codes.items ≡ slice_split (λ b. b == 32) list.now) }
{
    let mut codes = Vec::new(alloc);
    for code in list.split(' ') {
        codes.push(Text::of(alloc, code)?)?;
    }
    Ok(codes)
}

/// Returns the codes that a field lists. The empty text lists none.
pub(crate) fn choices_of(alloc: Global, field: &[u8]) -> Result<Texts, AllocError>
    ensures { IfOk result (λ choices. choices ≡ choices_of (text_of field.now)) }
{
    let list = readable(field);
    if list.is_empty() {
        return Ok(Texts::of(Vec::new(alloc)));
    }
    Ok(Texts::of(codes_of(alloc, list)?))
}
