//! What the paths of messages name.
ghost use Rattle.std.specs.Prelude.{◌≡◌, ℕ, List, [], ◌∷◌, MatchOption, IfOk, IfErr, OnErr, IsTrue, map, codes};
ghost use Rattle.std.specs.Str.{all_ascii_digits};
ghost use Rattle.http_api.specs.Routes.{called, number_of, fits, read, asked, opens, entry, list, numbered, import, all_routes, IsNowhere};
ghost use Rattle.http_api.specs.Requests.{keeps_code};
ghost use Rattle.http_api.specs.Inside.Routes.{path_written, NamesBy};

use matchit::{InsertError, Router};
use office_model::{ImportKind, Plain, ReportKind, Request, Text};
use std::alloc::{AllocError, Global};

/// What an empty body asks.
#[derive(Clone, Copy)]
pub enum Call {
    GetSupervisor,
    GetProject,
    GetStudent,
    DropList,
    Close,
    ReopenRound,
    GetRound,
    Preview,
    RoundText,
    Report(ReportKind),
}

/// What a body of members puts.
#[derive(Clone, Copy)]
pub enum Put {
    Supervisor,
    Project,
    Student,
    List,
}

/// What a method asks of a path, by the body that it takes.
#[derive(Clone, Copy)]
pub enum Form {
    /// An empty body.
    Empty(Call),
    /// A body of members.
    Members(Put),
    /// A body of the member `aim`, or an empty one, by which a round is opened.
    Opens,
    /// The text of an import, whatever it is.
    Raw(ImportKind),
}

/// Which segments stand for the parameters of a path.
#[derive(Clone, Copy)]
pub enum Segments {
    Any,
    Numbers,
}

/// What each method asks of a path, where the path has the method.
#[derive(Clone, Copy)]
pub struct Methods {
    pub segments: Segments,
    pub get: Option<Form>,
    pub put: Option<Form>,
    pub post: Option<Form>,
    pub delete: Option<Form>,
}

/// What a path names: a route, and the text that stands for its parameter, where it has one.
#[derive(Drop)]
pub struct RouteMatch<'p> {
    pub methods: Methods,
    pub code: &'p str,
}

/// Whether each byte is a digit.
fn all_digits(text: &[u8]) -> bool
    ensures { result ≡ all_ascii_digits text.now }
{
    for b in text {
        if !b.is_ascii_digit() {
            return false;
        }
    }
    true
}

/// The most digits of a number in a path.
const MAX_DIGITS: usize = 4;

/// Returns the number that 1 to 4 digits write.
pub fn number_of(text: &str) -> Option<u32>
    ensures { result ≡ number_of text.now }
{
    if text.is_empty() || text.len() > MAX_DIGITS || !all_digits(text.as_bytes()) {
        return None;
    }
    text.parse::<u32>().ok()
}

/// Returns the request of an empty body. It allocates where it stores a code. An `Err` is out of memory.
pub fn called(alloc: Global, call: Call, code: &str) -> Result<Request, AllocError>
    ensures ok { IfOk result (λ request. request ≡ called call code.now) }
    ensures memory { OnErr result (IsTrue (keeps_code call)) }
{
    Ok(match call {
        Call::GetSupervisor => Request::Plain(Plain::GetSupervisor {
            code: Text::of(alloc, code)?,
        }),
        Call::GetProject => Request::Plain(Plain::GetProject {
            code: Text::of(alloc, code)?,
        }),
        Call::GetStudent => Request::Plain(Plain::GetStudent {
            code: Text::of(alloc, code)?,
        }),
        Call::DropList => Request::Plain(Plain::DropList {
            student: Text::of(alloc, code)?,
        }),
        Call::Close => Request::Close,
        Call::ReopenRound => Request::Plain(Plain::ReopenRound),
        Call::GetRound => Request::Plain(Plain::GetRound {
            round: number_of(code).unwrap_or(0),
        }),
        Call::Preview => Request::Preview,
        Call::RoundText => Request::RoundText,
        Call::Report(kind) => Request::Report {
            kind,
            round: number_of(code).unwrap_or(0),
        },
    })
}

/// Whether a segment may stand for a parameter.
fn fits(segments: Segments, text: &str) -> bool
    ensures { result ≡ fits segments text.now }
{
    match segments {
        Segments::Any => true,
        Segments::Numbers => number_of(text).is_some(),
    }
}

/// Nothing is asked, of any segment.
const NOTHING: Methods = Methods {
    segments: Segments::Any,
    get: None,
    put: None,
    post: None,
    delete: None,
};

/// Returns the methods of what is read alone.
fn read(call: Call) -> Methods
    ensures { result ≡ read call }
{
    Methods {
        get: Some(Form::Empty(call)),
        ..NOTHING
    }
}

/// Returns the methods of what is asked of the office as a whole.
fn asked(call: Call) -> Methods
    ensures { result ≡ asked call }
{
    Methods {
        post: Some(Form::Empty(call)),
        ..NOTHING
    }
}

/// Returns the methods by which a round is opened.
fn opens() -> Methods
    ensures { result ≡ opens }
{
    Methods {
        post: Some(Form::Opens),
        ..NOTHING
    }
}

/// Returns the methods by which an entry of the rolls is put and read.
fn entry(put: Put, call: Call) -> Methods
    ensures { result ≡ entry put call }
{
    Methods {
        put: Some(Form::Members(put)),
        ..read(call)
    }
}

/// Returns the methods by which a list is put, and dropped.
fn list() -> Methods
    ensures { result ≡ list }
{
    Methods {
        put: Some(Form::Members(Put::List)),
        delete: Some(Form::Empty(Call::DropList)),
        ..NOTHING
    }
}

/// Returns the methods by which something of a round is read by its number.
fn numbered(call: Call) -> Methods
    ensures { result ≡ numbered call }
{
    Methods {
        segments: Segments::Numbers,
        ..read(call)
    }
}

/// Returns the methods by which an import is sent under its id.
fn import(kind: ImportKind) -> Methods
    ensures { result ≡ import kind }
{
    Methods {
        post: Some(Form::Raw(kind)),
        ..NOTHING
    }
}

/// How many routes there are.
const ROUTES: usize = 21;

/// Returns the routes: the paths that they are for, and what each method asks of them.
fn routes() -> [(&'static str, Methods); ROUTES]
    ensures { map (λ r. (r.0.now, r.1)) result ≡ map path_written all_routes }
{
    [
        ("/imports/lists/{code}", import(ImportKind::Lists)),
        ("/imports/projects/{code}", import(ImportKind::Projects)),
        ("/imports/students/{code}", import(ImportKind::Students)),
        (
            "/imports/supervisors/{code}",
            import(ImportKind::Supervisors),
        ),
        ("/lists/{code}", list()),
        ("/preview", read(Call::Preview)),
        ("/projects/{code}", entry(Put::Project, Call::GetProject)),
        (
            "/reports/loads/{code}",
            numbered(Call::Report(ReportKind::Loads)),
        ),
        (
            "/reports/missing/{code}",
            numbered(Call::Report(ReportKind::Missing)),
        ),
        (
            "/reports/offers/{code}",
            numbered(Call::Report(ReportKind::Offers)),
        ),
        (
            "/reports/placements/{code}",
            numbered(Call::Report(ReportKind::Placements)),
        ),
        (
            "/reports/profile/{code}",
            numbered(Call::Report(ReportKind::Profile)),
        ),
        (
            "/reports/text/{code}",
            numbered(Call::Report(ReportKind::Text)),
        ),
        (
            "/reports/unplaced/{code}",
            numbered(Call::Report(ReportKind::Unplaced)),
        ),
        ("/rounds/close", asked(Call::Close)),
        ("/rounds/reopen", asked(Call::ReopenRound)),
        ("/rounds/{code}", numbered(Call::GetRound)),
        ("/rounds", opens()),
        ("/roundtext", read(Call::RoundText)),
        ("/students/{code}", entry(Put::Student, Call::GetStudent)),
        (
            "/supervisors/{code}",
            entry(Put::Supervisor, Call::GetSupervisor),
        ),
    ]
}

/// Makes the router of all paths. It fails only where memory runs out.
pub fn router(alloc: Global) -> Result<Router<Methods>, InsertError>
    ensures routes { IfOk result (λ router. router ≡ all_routes) }
    ensures memory { IfErr result (λ error. error ≡ InsertError.OutOfMemory) }
{
    let mut router = Router::new(alloc);
    for (path, methods) in routes() {
        router.insert(path, methods)?;
    }
    Ok(router)
}

/// Returns what a path names.
pub fn route_of<'p>(router: &Router<Methods>, path: &'p str) -> Option<RouteMatch<'p>>
    requires { router.now ≡ all_routes }
    ensures { MatchOption result (IsNowhere path.now)
        (λ found. NamesBy path.now found.methods found.code.now) }
{
    let Ok(found) = router.at(path) else {
        return None;
    };
    let methods = *found.value;
    let code = found.params.get("code").unwrap_or("");
    if !fits(methods.segments, code) {
        return None;
    }
    Some(RouteMatch { methods, code })
}
