//! What the fields of a head say of its body.
ghost use Rattle.std.specs.Prelude.{◌≡◌, ℕ, ◌+◌, ◌-◌, ◌^◌, ◌<◌, ◌≤◌, List, length, map, min, All, IsTrue, codes};
ghost use Rattle.std.specs.List.{list_all, list_any};
ghost use Rattle.std.specs.Char.{is_ascii_digit};
ghost use Rattle.std.specs.Str.Parse.{digits_value};
ghost use Rattle.httparse.specs.Spans.{IsHeaderWithin, header_bytes};
ghost use Rattle.http_stream.specs.Inside.Messages.{IsShort};
ghost use Rattle.http_stream.specs.Messages.{is_named, is_number, length_of, lengths, framing_by, framing_of};

use crate::{MAX_BODY_BYTES, MAX_FIELDS};
use httparse::spans::HeaderSpan;

/// What a head says of its body: the length, that it says something wrong, or that there is too much.
#[derive(Clone, Copy)]
pub enum Framing {
    Length(usize),
    Wrong,
    Long,
}

/// Whether the header has this name, in any case.
fn is_named(buf: &[u8], header: HeaderSpan, name: &[u8]) -> bool
    requires { IsHeaderWithin (length buf.now) header }
    ensures { result ≡ is_named name.now (header_bytes buf.now header) }
{
    header.name.of(buf).eq_ignore_ascii_case(name)
}

/// Whether a header has this name.
fn has_field(buf: &[u8], headers: &[HeaderSpan], name: &[u8]) -> bool
    requires { All (IsHeaderWithin (length buf.now)) headers.now }
    ensures { result ≡ list_any (is_named name.now) (map (header_bytes buf.now) headers.now) }
{
    for header in headers {
        if is_named(buf, *header, name) {
            return true;
        }
    }
    false
}

/// Whether the value is one or more digits.
fn is_number(value: &[u8]) -> bool
    ensures { result ≡ is_number value.now }
{
    // `Content-Length = 1*DIGIT` (RFC 9110, section 8.6): no sign, no space within, and at least one digit.
    for b in value {
        if !b.is_ascii_digit() {
            return false;
        }
    }
    !value.is_empty()
}

/// Returns the number, as far as it can be a length.
fn saturated(value: &[u8]) -> u64
    requires { IsTrue (is_number value.now) }
    ensures { result ≡ min (digits_value 10 value.now) (MAX_BODY_BYTES + 1) }
{
    let mut total = 0;
    for digit in value {
        // Cut off at each digit, so that a length of any number of digits cannot overflow.
        total = (total * 10 + u64::from(*digit - b'0')).min(MAX_BODY_BYTES + 1);
    }
    total
}

/// Returns what the value of a field `Content-Length` says.
fn length_of(value: &[u8]) -> Framing
    ensures value { result ≡ length_of value.now }
    ensures small { IsShort result }
{
    if !is_number(value) {
        return Framing::Wrong;
    }
    let number = saturated(value);
    if number > MAX_BODY_BYTES {
        return Framing::Long;
    }
    Framing::Length(number as usize)
}

/// Returns what the fields `Content-Length` say. Two of them are refused, even if they agree, as RFC 9112, section 6.3, lets a server do.
fn framing_by_lengths(buf: &[u8], headers: &[HeaderSpan]) -> Framing
    requires { All (IsHeaderWithin (length buf.now)) headers.now }
    ensures value { result ≡ framing_by (lengths (map (header_bytes buf.now) headers.now)) }
    ensures small { IsShort result }
{
    let mut found = None;
    for header in headers {
        if is_named(buf, *header, b"content-length") {
            if found.is_some() {
                return Framing::Wrong;
            }
            found = Some(header.value);
        }
    }
    match found {
        // RFC 9112, section 6.3, item 7: a request without these fields has no body.
        None => Framing::Length(0),
        Some(value) => length_of(value.of(buf)),
    }
}

/// Returns what a head of this version and these headers says of its body, as RFC 9112, section 6.3, has it. `Transfer-Encoding` is not
/// read here: a head with it is refused.
pub fn framing_of(buf: &[u8], minor: u8, headers: &[HeaderSpan]) -> Framing
    requires { All (IsHeaderWithin (length buf.now)) headers.now }
    ensures value { result ≡ framing_of minor (map (header_bytes buf.now) headers.now) }
    ensures small { IsShort result }
{
    if headers.len() > MAX_FIELDS {
        return Framing::Long;
    }
    if minor != 1 || has_field(buf, headers, b"transfer-encoding") {
        return Framing::Wrong;
    }
    framing_by_lengths(buf, headers)
}
