//! The bytes of answers.
ghost use Rattle.std.specs.Prelude.{◌≡◌, false, ◌≤◌, ◌⊎◌, ◌++◌, Some, length, codes, decimal, IfOk, OnErr, string_bytes};
ghost use Rattle.arrayvec.specs.ArrayVec.{array_vec_len};
ghost use Rattle.office_model.specs.RefusalInfo.{status_of};
ghost use Rattle.serde_json.specs.View.{view};
ghost use Rattle.serde_json.specs.Written.{compact_text, has_float};
ghost use Rattle.http_stream.specs.declared.TheConstants.{MAX_SHORT_BODY};
ghost use Rattle.http_stream.specs.Answers.{answer_bytes};
ghost use Rattle.http_api.specs.Text.{reason_of, typed_answer, json_answer};
ghost use Rattle.http_api.specs.Texts.{numbers_text, refusal_text, row_text, supervisor_data, project_data, list_data, placed_data, student_data, truth_text, round_json, closed_text, preview_text, reply_text, text_of, IsRead};

use crate::answers::{JSON, TEXT, answer_head, json, push, push_labelled, push_numbers, refused};
use arrayvec::ArrayVec;
use http::StatusCode;
use http_stream::{Answer, ShortText};
use office_model::{Choices, Placement, Refusal, Reply};
use serde_json::{Value, json};
use spa::{Aim, RANKS};
use std::alloc::{AllocError, Global};

/// Returns the status of a refusal.
fn status_of(refusal: Refusal) -> StatusCode
    ensures value { result ≡ status_of refusal }
    ensures short { length (reason_of result) ≤ 32 }
{
    match StatusCode::from_u16(refusal.status()) {
        Ok(status) => status,
        Err(_) => StatusCode::SERVICE_UNAVAILABLE,
    }
}

/// Returns the body of a refused record.
fn row_body(number: u32, inner: u32) -> ShortText
    ensures items { result.items ≡ row_text number inner }
    ensures len { array_vec_len result ≤ MAX_SHORT_BODY }
{
    let mut out = ArrayVec::new();
    push_labelled(&mut out, b"{\"fault\":\"Row\",\"inner\":", inner);
    push_labelled(&mut out, b",\"number\":29,\"record\":", number);
    push(&mut out, b"}");
    out
}

/// Returns the answer of a refusal. Allocates nothing.
pub fn refusal_answer(refusal: Refusal) -> ShortText
    ensures { result.items ≡ refusal_text refusal }
{
    match refusal {
        Refusal::Row { record, inner } => {
            json(status_of(refusal), row_body(record, inner).as_slice())
        }
        _ => refused(status_of(refusal), refusal.name(), refusal.number()),
    }
}

/// Returns the answer of a change. Allocates nothing.
#[tactic(auto, unfolding(crate::specs::Text::reason_of))]
fn done_answer() -> ShortText
    ensures { result.items ≡ reply_text Reply.Done }
{
    json(StatusCode::OK, b"{\"ok\":true}")
}

/// Returns the answer of success with a body of a round.
#[tactic(auto, unfolding(crate::specs::Text::reason_of))]
fn round_answer(body: &ShortText) -> ShortText
    requires { array_vec_len body.now ≤ MAX_SHORT_BODY }
    ensures { result.items ≡ json_answer 200 body.now.items }
{
    json(StatusCode::OK, body.as_slice())
}

/// Returns the body of one member, which is a number.
fn number_body(member: &[u8], number: u32) -> ShortText
    requires { length member.now ≤ 20 }
    ensures items { result.items ≡ member.now ++ decimal number ++ codes "}" }
    ensures len { array_vec_len result ≤ MAX_SHORT_BODY }
{
    let mut out = ArrayVec::new();
    push_labelled(&mut out, member, number);
    push(&mut out, b"}");
    out
}

/// Returns a body up to the end of its profile.
fn profile_body(profile: &[u32; RANKS]) -> ShortText
    ensures items { result.items ≡ codes "{\"profile\":[" ++ numbers_text profile.now }
    ensures len { array_vec_len result ≤ 145 }
{
    let mut out = ArrayVec::new();
    push(&mut out, b"{\"profile\":[");
    push_numbers(&mut out, profile);
    out
}

/// Returns the body of a closed round.
fn closed_body(round: u32, size: u32, profile: &[u32; RANKS]) -> ShortText
    ensures items { result.items ≡ closed_text round size profile.now }
    ensures len { array_vec_len result ≤ MAX_SHORT_BODY }
{
    let mut out = profile_body(profile);
    push_labelled(&mut out, b",\"round\":", round);
    push_labelled(&mut out, b",\"size\":", size);
    push(&mut out, b"}");
    out
}

/// Returns the body of a preview.
fn preview_body(size: u32, profile: &[u32; RANKS]) -> ShortText
    ensures items { result.items ≡ preview_text size profile.now }
    ensures len { array_vec_len result ≤ MAX_SHORT_BODY }
{
    let mut out = profile_body(profile);
    push_labelled(&mut out, b",\"size\":", size);
    push(&mut out, b"}");
    out
}

/// Returns how the body of a round goes on after its aim.
fn round_start(is_open: bool) -> &'static [u8]
    ensures text { result.now ≡ codes "\",\"open\":" ++ truth_text is_open ++ codes ",\"placed\":" }
    ensures len { length result.now ≤ 25 }
{
    if is_open {
        b"\",\"open\":true,\"placed\":"
    } else {
        b"\",\"open\":false,\"placed\":"
    }
}

/// Returns the body of a round with this aim, open or not.
fn round_body(
    number: u32,
    state: (Aim, bool),
    placed: u32,
    profile: &[u32; RANKS],
    students: u32,
) -> ShortText
    ensures items { result.items ≡ round_json number state.0 state.1 placed profile.now students }
    ensures len { array_vec_len result ≤ MAX_SHORT_BODY }
{
    let mut out = ArrayVec::new();
    push(&mut out, b"{\"aim\":\"");
    push(&mut out, state.0.word().as_bytes());
    push_labelled(&mut out, round_start(state.1), placed);
    push(&mut out, b",\"profile\":[");
    push_numbers(&mut out, profile);
    push_labelled(&mut out, b",\"round\":", number);
    push_labelled(&mut out, b",\"students\":", students);
    push(&mut out, b"}");
    out
}

/// Returns a supervisor in JSON.
fn supervisor_value(alloc: Global, name: &str, placed: u32, quota: u32) -> Result<Value, AllocError>
    ensures { IfOk result (λ value. view value ≡ supervisor_data name.now placed quota) }
{
    json!(in alloc; {"name": name, "placed": u64::from(placed), "quota": u64::from(quota)})
}

/// Returns a project in JSON.
fn project_value(
    alloc: Global,
    name: &str,
    placed: u32,
    quota: u32,
    supervisor: &str,
) -> Result<Value, AllocError>
    ensures { IfOk result (λ value. view value ≡ project_data name.now placed quota supervisor.now) }
{
    json!(in alloc; {
        "name": name, "placed": u64::from(placed), "quota": u64::from(quota), "supervisor": supervisor
    })
}

/// Returns texts in JSON.
fn codes_value(alloc: Global, choices: &Choices) -> Result<Value, AllocError>
    ensures { IfOk result (λ value. view value ≡ list_data (Some choices.now)) }
{
    let mut items = Vec::new(alloc);
    for code in choices.as_slice() {
        items.push(Value::String(String::from_str(alloc, code.as_str())?))?;
    }
    Ok(Value::Array(items))
}

/// Returns a student's list in JSON.
fn list_value(alloc: Global, list: &Option<Choices>) -> Result<Value, AllocError>
    ensures { IfOk result (λ value. view value ≡ list_data list.now) }
{
    match list {
        None => Ok(Value::Null),
        Some(choices) => codes_value(alloc, choices),
    }
}

/// Returns a placement in JSON.
fn placement_value(alloc: Global, placement: &Placement) -> Result<Value, AllocError>
    ensures { IfOk result (λ value. view value ≡ placed_data (Some placement.now)) }
{
    json!(in alloc; {
        "project": placement.project.as_str(),
        "rank": u64::from(placement.rank),
        "round": u64::from(placement.round)
    })
}

/// Returns a student's placement in JSON.
fn placed_value(alloc: Global, placed: &Option<Placement>) -> Result<Value, AllocError>
    ensures { IfOk result (λ value. view value ≡ placed_data placed.now) }
{
    match placed {
        None => Ok(Value::Null),
        Some(placement) => placement_value(alloc, placement),
    }
}

/// Returns a student in JSON.
fn student_value(
    alloc: Global,
    name: &str,
    list: &Option<Choices>,
    placed: &Option<Placement>,
) -> Result<Value, AllocError>
    ensures { IfOk result (λ value. view value ≡ student_data name.now list.now placed.now) }
{
    let list = list_value(alloc, list)?;
    let placed = placed_value(alloc, placed)?;
    json!(in alloc; {"list": &list, "name": name, "placed": &placed})
}

/// Returns the answer of success with a body.
#[tactic(auto, unfolding(crate::specs::Text::reason_of))]
fn with_head(alloc: Global, kind: &str, body: &str) -> Result<Answer, AllocError>
    requires { length kind.now ≤ 40 }
    ensures { IfOk result (λ answer. answer_bytes answer ≡ typed_answer 200 kind.now body.now) }
{
    let head = answer_head(StatusCode::OK, kind, body.len());
    let mut bytes = Vec::from_slice(alloc, head.as_slice())?;
    bytes.extend_from_slice(body.as_bytes())?;
    Ok(Answer::Long(bytes))
}

/// Returns the answer of success with a value that has no float.
fn value_answer(alloc: Global, value: &Value) -> Result<Answer, AllocError>
    requires { has_float (view value.now) ≡ false }
    ensures { IfOk result (λ answer. answer_bytes answer ≡ json_answer 200 (compact_text (view value.now))) }
{
    let body = value.to_string(alloc)?;
    with_head(alloc, JSON, body.as_str())
}

/// Returns the answer of success. For a change it allocates nothing.
fn reply_answer(alloc: Global, reply: &Reply) -> Result<Answer, AllocError>
    ensures text { IfOk result (λ answer. answer_bytes answer ≡ text_of (Ok reply.now)) }
    ensures memory { OnErr result (IsRead (Ok reply.now)) }
{
    match reply {
        Reply::Done => Ok(Answer::Short(done_answer())),
        Reply::Supervisor {
            name,
            placed,
            quota,
        } => {
            let value = supervisor_value(alloc, name.as_str(), *placed, *quota)?;
            value_answer(alloc, &value)
        }
        Reply::Project {
            name,
            placed,
            quota,
            supervisor,
        } => {
            let value = project_value(alloc, name.as_str(), *placed, *quota, supervisor.as_str())?;
            value_answer(alloc, &value)
        }
        Reply::Student { name, list, placed } => {
            let value = student_value(alloc, name.as_str(), list, placed)?;
            value_answer(alloc, &value)
        }
        Reply::Opened { round } => {
            let body = number_body(b"{\"round\":", *round);
            Ok(Answer::Short(round_answer(&body)))
        },
        Reply::Round {
            number,
            aim,
            is_open,
            placed,
            profile,
            students,
        } => {
            let body = round_body(*number, (*aim, *is_open), *placed, profile, *students);
            Ok(Answer::Short(round_answer(&body)))
        }
        Reply::Closed {
            round,
            size,
            profile,
        } => Ok(Answer::Short(round_answer(&closed_body(*round, *size, profile)))),
        Reply::Preview { size, profile } => {
            Ok(Answer::Short(round_answer(&preview_body(*size, profile))))
        }
        Reply::Text(text) => with_head(alloc, TEXT, text.as_str()),
        Reply::Rows(rows) => {
            let body = number_body(b"{\"rows\":", *rows);
            Ok(Answer::Short(round_answer(&body)))
        },
    }
}

/// Returns the answer; that of a read may be refused where memory runs out.
pub fn answer_of(alloc: Global, outcome: Result<Reply, Refusal>) -> Answer
    ensures { (answer_bytes result ≡ text_of outcome)
        ⊎ (IsRead outcome × (answer_bytes result ≡ refusal_text Refusal.Memory)) }
{
    match outcome {
        Err(refusal) => Answer::Short(refusal_answer(refusal)),
        Ok(reply) => match reply_answer(alloc, &reply) {
            Ok(answer) => answer,
            Err(_) => Answer::Short(refusal_answer(Refusal::Memory)),
        },
    }
}
