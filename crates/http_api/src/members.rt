//! What the members of a body say.
ghost use Rattle.std.specs.Prelude.{◌≡◌, ◌⊎◌, Some, None, IfOk, IfErr, option_map, option_and_then, codes};
ghost use Rattle.serde_json.specs.View.{view, items_view};
ghost use Rattle.serde_json.specs.Find.{as_object, as_array, as_number, as_str, get};
ghost use Rattle.http_api.specs.Members.{json_of, members_count, has_size, text_in, quota_of, quota_in, lone_text, name_of, name_and_quota, supervisor_members, project_members, aim_of, texts_of, choices_of};

use office_model::{Refusal, Text, Texts};
use serde_json::Value;
use spa::Aim;
use std::alloc::{AllocError, Global};

/// Handed on in place of a number that is no quota; the office refuses it as too great.
const NO_QUOTA: u32 = 9999;

/// A name and a quota.
#[derive(Drop)]
pub struct NameAndQuota<'v> {
    pub name: &'v str,
    pub quota: u32,
}

/// The members of a project.
#[derive(Drop)]
pub struct ProjectMembers<'v> {
    pub name: &'v str,
    pub quota: u32,
    pub supervisor: &'v str,
}

/// Reads a body as JSON. `Json` where it is none, `Memory` where it runs out.
pub fn read_json(alloc: Global, body: &[u8]) -> Result<Value, Refusal>
    ensures ok { IfOk result (λ value. json_of body.now ≡ Some (view value)) }
    ensures err { IfErr result (λ refusal.
        (refusal ≡ Refusal.Memory) ⊎ ((refusal ≡ Refusal.Json) × (json_of body.now ≡ None))) }
{
    match Value::from_slice(alloc, body) {
        Ok(value) => Ok(value),
        Err(error) => {
            if error.is_memory() {
                Err(Refusal::Memory)
            } else {
                Err(Refusal::Json)
            }
        }
    }
}

/// Returns how many members an object has.
fn member_count(value: &Value) -> Option<usize>
    ensures { result ≡ option_map members_count (as_object (view value.now)) }
{
    Some(value.as_object()?.len())
}

/// Whether it is an object of this many members.
fn has_size(value: &Value, n: usize) -> bool
    ensures { result ≡ has_size n (view value.now) }
{
    member_count(value) == Some(n)
}

/// Returns the text of a member.
fn text_in<'v>(value: &'v Value, name: &str) -> Option<&'v str>
    ensures { option_map (λ text. text.now) result ≡ text_in name.now (view value.now) }
{
    value.get(name)?.as_str()
}

/// Returns the quota that a number is: a whole number up to `NO_QUOTA`, or that.
fn quota_of(number: Option<u64>) -> u32
    ensures { result ≡ quota_of number }
{
    match number {
        None => NO_QUOTA,
        Some(n) => n.min(u64::from(NO_QUOTA)) as u32,
    }
}

/// Returns the number of the member `quota`.
fn quota_in(value: &Value) -> Option<u32>
    ensures { result ≡ quota_in (view value.now) }
{
    let number = value.get("quota")?.as_number()?;
    Some(quota_of(number.as_u64()))
}

/// Returns the text of a member that stands alone.
fn lone_text<'v>(value: &'v Value, name: &str) -> Option<&'v str>
    ensures { option_map (λ text. text.now) result ≡ lone_text name.now (view value.now) }
{
    if !has_size(value, 1) {
        return None;
    }
    text_in(value, name)
}

/// Returns the name that stands alone.
pub fn name_of(value: &Value) -> Option<&str>
    ensures { option_map (λ name. name.now) result ≡ name_of (view value.now) }
{
    lone_text(value, "name")
}

/// Returns the members `name` and `quota`.
fn name_and_quota(value: &Value) -> Option<NameAndQuota<'_>>
    ensures { option_map (λ both. (both.name.now, both.quota)) result ≡ name_and_quota (view value.now) }
{
    let name = text_in(value, "name")?;
    let quota = quota_in(value)?;
    Some(NameAndQuota { name, quota })
}

/// Returns the members of a supervisor.
pub fn supervisor_members(value: &Value) -> Option<NameAndQuota<'_>>
    ensures { option_map (λ both. (both.name.now, both.quota)) result ≡ supervisor_members (view value.now) }
{
    if !has_size(value, 2) {
        return None;
    }
    name_and_quota(value)
}

/// Returns the members of a project.
pub fn project_members(value: &Value) -> Option<ProjectMembers<'_>>
    ensures { option_map (λ all. ((all.name.now, all.quota), all.supervisor.now)) result
        ≡ project_members (view value.now) }
{
    if !has_size(value, 3) {
        return None;
    }
    let NameAndQuota { name, quota } = name_and_quota(value)?;
    let supervisor = text_in(value, "supervisor")?;
    Some(ProjectMembers {
        name,
        quota,
        supervisor,
    })
}

/// Returns the aim that stands alone, by its word.
pub fn aim_of(value: &Value) -> Option<Aim>
    ensures { result ≡ aim_of (view value.now) }
{
    Aim::of_word(lone_text(value, "aim")?)
}

/// Returns the texts of items that are all texts.
fn texts_of(alloc: Global, items: &[Value]) -> Result<Option<Texts>, AllocError>
    ensures { IfOk result (λ texts. texts ≡ texts_of (items_view items.now)) }
{
    let mut texts = Vec::new(alloc);
    for item in items {
        match item.as_str() {
            None => return Ok(None),
            Some(text) => texts.push(Text::of(alloc, text)?)?,
        }
    }
    Ok(Some(Texts::of(texts)))
}

/// Returns the items of the member `choices`.
fn choices_in(value: &Value) -> Option<&Vec<Value>>
    ensures { option_map (λ items. items_view items.now.items) result
        ≡ option_and_then as_array (get (codes "choices") (view value.now)) }
{
    value.get("choices")?.as_array()
}

/// Returns the choices that stand alone. An `Err` is out of memory.
pub fn choices_of(alloc: Global, value: &Value) -> Result<Option<Texts>, AllocError>
    ensures { IfOk result (λ choices. choices ≡ choices_of (view value.now)) }
{
    match choices_in(value) {
        Some(items) if has_size(value, 1) => texts_of(alloc, items.as_slice()),
        _ => Ok(None),
    }
}
