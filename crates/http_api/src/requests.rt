//! What a message asks.
ghost use Rattle.std.specs.Prelude.{◌≡◌, ◌⊎◌, [], ◌∷◌, IfOk, IfErr, IsTrue, MatchOption};
ghost use Rattle.std.specs.Str.{bytes_eq};
ghost use Rattle.serde_json.specs.View.{view};
ghost use Rattle.http_api.specs.Routes.{all_routes, IsNowhere};
ghost use Rattle.http_api.specs.Inside.Routes.{NamesBy};
ghost use Rattle.http_api.specs.Requests.{put_by, opening_asks, by_body, by_method, asked_by, takes_memory, asked_takes_memory, IsReadAs};

use crate::members::{aim_of, choices_of, name_of, project_members, read_json, supervisor_members};
use crate::routes::{Call, Form, Methods, Put, RouteMatch, called, route_of, router};
use http::Method;
use matchit::Router;
use office_model::{Bytes, ImportKind, Plain, Refusal, Request, Text};
use serde_json::Value;
use spa::Aim;
use std::alloc::{AllocError, Global};
use std::str;

/// Returns what is put, by the members of a body.
fn put_by(alloc: Global, what: Put, code: &str, value: &Value) -> Result<Option<Plain>, AllocError>
    ensures { IfOk result (λ plain. plain ≡ put_by what code.now (view value.now)) }
{
    match what {
        Put::Supervisor => match supervisor_members(value) {
            None => Ok(None),
            Some(members) => Ok(Some(Plain::PutSupervisor {
                code: Text::of(alloc, code)?,
                label: Text::of(alloc, members.name)?,
                quota: members.quota,
            })),
        },
        Put::Project => match project_members(value) {
            None => Ok(None),
            Some(members) => Ok(Some(Plain::PutProject {
                code: Text::of(alloc, code)?,
                label: Text::of(alloc, members.name)?,
                supervisor: Text::of(alloc, members.supervisor)?,
                quota: members.quota,
            })),
        },
        Put::Student => match name_of(value) {
            None => Ok(None),
            Some(name) => Ok(Some(Plain::PutStudent {
                code: Text::of(alloc, code)?,
                label: Text::of(alloc, name)?,
            })),
        },
        Put::List => match choices_of(alloc, value)? {
            None => Ok(None),
            Some(choices) => {
                let student = Text::of(alloc, code)?;
                Ok(Some(Plain::PutList { student, choices }))
            }
        },
    }
}

/// Returns what a body of members asks.
fn object_asks(alloc: Global, what: Put, code: &str, body: &[u8]) -> Result<Plain, Refusal>
    ensures ok { IfOk result (λ plain.
        by_body (Form.Members what) code.now body.now ≡ Ok (Request.Plain plain)) }
    ensures err { IfErr result (λ refusal. (by_body (Form.Members what) code.now body.now ≡ Err refusal)
        ⊎ (refusal ≡ Refusal.Memory)) }
{
    let value = read_json(alloc, body)?;
    put_by(alloc, what, code, &value)?.ok_or(Refusal::Members)
}

/// Returns what an empty body asks.
fn empty_asks(alloc: Global, call: Call, code: &str, body: &[u8]) -> Result<Request, Refusal>
    ensures ok { IfOk result (λ request. by_body (Form.Empty call) code.now body.now ≡ Ok request) }
    ensures err { IfErr result (λ refusal. (by_body (Form.Empty call) code.now body.now ≡ Err refusal)
        ⊎ (IsTrue (takes_memory (Form.Empty call) body.now) × (refusal ≡ Refusal.Memory))) }
{
    if !body.is_empty() {
        return Err(Refusal::Members);
    }
    Ok(called(alloc, call, code)?)
}

/// Returns the round that a body opens: by its member, or, where it is empty, a greedy one.
fn opening_asks(alloc: Global, body: &[u8]) -> Result<Plain, Refusal>
    ensures ok { IfOk result (λ plain. opening_asks body.now ≡ Ok (Request.Plain plain)) }
    ensures err { IfErr result (λ refusal. (opening_asks body.now ≡ Err refusal)
        ⊎ (IsTrue (takes_memory Form.Opens body.now) × (refusal ≡ Refusal.Memory))) }
{
    if body.is_empty() {
        return Ok(Plain::OpenRound { aim: Aim::Greedy });
    }
    let value = read_json(alloc, body)?;
    let aim = aim_of(&value).ok_or(Refusal::Members)?;
    Ok(Plain::OpenRound { aim })
}

/// Returns the import that a body is the text of.
fn import_asks(
    alloc: Global,
    kind: ImportKind,
    code: &str,
    body: &[u8],
) -> Result<Request, AllocError>
    ensures { IfOk result (λ request. by_body (Form.Raw kind) code.now body.now ≡ Ok request) }
{
    Ok(Request::Import {
        id: Text::of(alloc, code)?,
        kind,
        bytes: Bytes::new(alloc, Vec::from_slice(alloc, body)?)?,
    })
}

/// Returns what a body asks.
fn by_body(alloc: Global, form: Form, code: &str, body: &[u8]) -> Result<Request, Refusal>
    ensures ok { IfOk result (λ request. by_body form code.now body.now ≡ Ok request) }
    ensures err { IfErr result (λ refusal. (by_body form code.now body.now ≡ Err refusal)
        ⊎ (IsTrue (takes_memory form body.now) × (refusal ≡ Refusal.Memory))) }
{
    match form {
        Form::Empty(call) => empty_asks(alloc, call, code, body),
        Form::Members(what) => Ok(Request::Plain(object_asks(alloc, what, code, body)?)),
        Form::Opens => Ok(Request::Plain(opening_asks(alloc, body)?)),
        Form::Raw(kind) => Ok(import_asks(alloc, kind, code, body)?),
    }
}

/// Whether a method is this one.
fn is_method(method: &[u8], known: &Method) -> bool
    ensures { result ≡ bytes_eq method.now known.now }
{
    method == known.as_str().as_bytes()
}

/// Returns what a method asks of a path.
fn by_method(methods: Methods, method: &[u8]) -> Option<Form>
    ensures { result ≡ by_method methods method.now }
{
    if is_method(method, &Method::GET) {
        methods.get
    } else if is_method(method, &Method::PUT) {
        methods.put
    } else if is_method(method, &Method::POST) {
        methods.post
    } else if is_method(method, &Method::DELETE) {
        methods.delete
    } else {
        None
    }
}

/// Returns what a target names.
fn by_path<'t>(router: &Router<Methods>, target: &'t [u8]) -> Option<RouteMatch<'t>>
    requires { router.now ≡ all_routes }
    ensures { MatchOption result (IsNowhere target.now)
        (λ found. NamesBy target.now found.methods found.code.now) }
{
    match str::from_utf8(target) {
        Err(_) => None,
        Ok(path) => route_of(router, path),
    }
}

/// Returns what is asked of a route.
fn asked_at(
    alloc: Global,
    route: &RouteMatch,
    method: &[u8],
    body: &[u8],
) -> Result<Request, Refusal>
    ensures ok { IfOk result (λ request. asked_by (by_method route.now.methods method.now) route.now.code.now body.now
        ≡ Ok request) }
    ensures err { IfErr result (λ refusal.
        (asked_by (by_method route.now.methods method.now) route.now.code.now body.now ≡ Err refusal)
        ⊎ (IsTrue (asked_takes_memory (by_method route.now.methods method.now) body.now) × (refusal ≡ Refusal.Memory))) }
{
    match by_method(route.methods, method) {
        None => Err(Refusal::WrongMethod),
        Some(form) => by_body(alloc, form, route.code, body),
    }
}

/// The routes of the office.
#[derive(Drop)]
pub struct Routes {
    alloc: Global,
    router: Router<Methods>,
    ghost routes: { router ≡ all_routes },
}

impl Routes {
    /// Takes the memory that the routes need.
    pub fn new(alloc: Global) -> Result<Routes, AllocError> {
        match router(alloc) {
            Ok(router) => Ok(Routes { alloc, router }),
            Err(_) => Err(AllocError),
        }
    }

    /// Returns what a message asks, or why it asks nothing. `Memory` comes only where reading what is asked allocates.
    pub fn request(&self, method: &[u8], target: &[u8], body: &[u8]) -> Result<Request, Refusal>
        ensures { IsReadAs (record { method = method.now; target = target.now; body = body.now }) result }
    {
        match by_path(&self.router, target) {
            None => Err(Refusal::NoRoute),
            Some(route) => asked_at(self.alloc, &route, method, body),
        }
    }
}
