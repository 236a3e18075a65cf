//! Answers in a fixed array, which allocate nothing.
ghost use Rattle.std.specs.Prelude.{◌≡◌, ◌+◌, ◌≤◌, ◌++◌, length, decimal};
ghost use Rattle.http_stream.specs.declared.TheConstants.{MAX_SHORT_TEXT, MAX_SHORT_BODY};
ghost use Rattle.arrayvec.specs.ArrayVec.{array_vec_len};
ghost use Rattle.std.specs.Prelude.{◌*◌};
ghost use Rattle.http_api.specs.Texts.{numbers_text};
ghost use Rattle.http_api.specs.Text.{reason_of, answer_head, json_answer, fault_body, fault_answer};

use arrayvec::ArrayVec;
use http::StatusCode;
use http_stream::ShortText;

/// Appends bytes.
pub fn push(out: &mut ShortText, bytes: &[u8])
    requires { array_vec_len out.old + length bytes.now ≤ MAX_SHORT_TEXT }
    ensures { out.new.items ≡ out.old.items ++ bytes.now }
{
    let _ = out.try_extend_from_slice(bytes);
}

/// Appends a number's digits.
pub fn push_number(out: &mut ShortText, number: u64)
    requires { array_vec_len out.old + 20 ≤ MAX_SHORT_TEXT }
    ensures items { out.new.items ≡ out.old.items ++ decimal number }
    ensures len { array_vec_len out.new ≤ array_vec_len out.old + 20 }
{
    let mut buffer = itoa::Buffer::new();
    push(out, buffer.format(number).as_bytes());
}

/// Appends a number of 32 bits.
fn push_count(out: &mut ShortText, number: u32)
    requires { array_vec_len out.old + 10 ≤ MAX_SHORT_TEXT }
    ensures items { out.new.items ≡ out.old.items ++ decimal number }
    ensures len { array_vec_len out.new ≤ array_vec_len out.old + 10 }
{
    let mut buffer = itoa::Buffer::new();
    push(out, buffer.format(number).as_bytes());
}

/// Appends a label and a number.
pub fn push_labelled(out: &mut ShortText, label: &[u8], number: u32)
    requires { array_vec_len out.old + (length label.now + 10) ≤ MAX_SHORT_TEXT }
    ensures items { out.new.items ≡ out.old.items ++ (label.now ++ decimal number) }
    ensures len { array_vec_len out.new ≤ array_vec_len out.old + (length label.now + 10) }
{
    push(out, label);
    push_count(out, number);
}

/// Appends numbers, and the bracket that closes them.
pub fn push_numbers(out: &mut ShortText, counts: &[u32])
    requires { array_vec_len out.old + (11 * length counts.now + 1) ≤ MAX_SHORT_TEXT }
    ensures items { out.new.items ≡ out.old.items ++ numbers_text counts.now }
    ensures len { array_vec_len out.new ≤ array_vec_len out.old + (11 * length counts.now + 1) }
{
    let mut comma: &[u8] = b"";
    for number in counts {
        push_labelled(out, comma, *number);
        comma = b",";
    }
    push(out, b"]");
}

/// Appends a refusal's body.
fn push_fault(out: &mut ShortText, name: &str, number: u64)
    requires { array_vec_len out.old + (length name.now + 42) ≤ MAX_SHORT_TEXT }
    ensures items { out.new.items ≡ out.old.items ++ fault_body name.now number }
    ensures len { array_vec_len out.new ≤ array_vec_len out.old + (length name.now + 42) }
{
    push(out, b"{\"fault\":\"");
    push(out, name.as_bytes());
    push(out, b"\",\"number\":");
    push_number(out, number);
    push(out, b"}");
}

/// Returns the standard reason phrase.
#[tactic(auto, unfolding(crate::specs::Text::reason_of))]
fn reason(status: StatusCode) -> &'static str
    ensures { result.now ≡ reason_of status }
{
    match status.canonical_reason() {
        Some(reason) => reason,
        None => "",
    }
}

/// Returns what comes before the body of an answer of a type.
pub fn answer_head(status: StatusCode, kind: &str, len: usize) -> ShortText
    requires reason { length (reason_of status) ≤ 32 }
    requires kind { length kind.now ≤ 40 }
    ensures items { result.items ≡ answer_head status kind.now len }
    ensures len { array_vec_len result ≤ length kind.now + 120 }
{
    let mut out = ArrayVec::new();
    push(&mut out, b"HTTP/1.1 ");
    push_number(&mut out, u64::from(status.as_u16()));
    push(&mut out, b" ");
    push(&mut out, reason(status).as_bytes());
    push(&mut out, b"\r\n");
    push(&mut out, b"Content-Type: ");
    push(&mut out, kind.as_bytes());
    push(&mut out, b"\r\nContent-Length: ");
    push_number(&mut out, len as u64);
    push(&mut out, b"\r\n\r\n");
    out
}

/// The type of a body in JSON.
pub const JSON: &str = "application/json";

/// The type of a body that is a text.
pub const TEXT: &str = "text/plain; charset=utf-8";

/// Returns an answer in JSON whose body is short.
pub fn json(status: StatusCode, body: &[u8]) -> ShortText
    requires reason { length (reason_of status) ≤ 32 }
    requires body { length body.now ≤ MAX_SHORT_BODY }
    ensures { result.items ≡ json_answer status body.now }
{
    let mut out = answer_head(status, JSON, body.len());
    push(&mut out, body);
    out
}

/// Returns the answer of a refusal.
pub fn refused(status: StatusCode, name: &str, number: u32) -> ShortText
    requires reason { length (reason_of status) ≤ 32 }
    requires name { length name.now ≤ 100 }
    ensures { result.items ≡ fault_answer status name.now number }
{
    let mut body = ArrayVec::new();
    push_fault(&mut body, name, u64::from(number));
    json(status, body.as_slice())
}
