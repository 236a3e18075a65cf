//! The session of the open round.

ghost use Rattle.std.specs.Prelude.{◌≡◌, ◌<◌, ◌≤◌, Contains, All, length, map, IsSome, IfOk, OnOk, OnErr, IsTrue};
ghost use Rattle.spa.specs.Codes.{code_at};
ghost use Rattle.spa.specs.Inside.Made.{IsRanking};
ghost use Rattle.spa.specs.Instance.{project_codes};
ghost use Rattle.office_model.specs.Fit.{IsFit};
ghost use Rattle.office_model.specs.State.{State, last_round, list_of, round_is_open, choices_in};
ghost use Rattle.office_model.specs.Instances.{round_instance};
ghost use Rattle.office_model.specs.Run.{Makes};
ghost use Rattle.office_model.specs.declared.request.Request.TheVariants as request;
ghost use Rattle.solver.specs.SessionState.{nobody};
ghost use Rattle.desk.specs.layers.Layers.{layers};
ghost use Rattle.desk.specs.layers.SessionRounds.{IsSessionOf, MayJoin, IsOneMore};

use office::Office;
use office_model::{Project, Reply};
use solver::Session;
use spa::{Code, Instance};
use std::alloc::{AllocError, Global};

/// Admits the students of an instance, one after another.
fn admit_all(session: &mut Session, instance: &Instance) -> Result<(), AllocError>
    requires rolls { session.old.shape ≡ nobody instance.now.shape.supervisors instance.now.shape.projects }
    ensures all { OnOk result (session.new.shape ≡ instance.now.shape) }
    ensures aim { OnOk result (session.new.aim ≡ session.old.aim) }
{
    for student in 0..instance.student_count() {
        session.admit(instance.list(student))?;
    }
    Ok(())
}

/// Starts a session of the open round, with all its lists admitted. An `Err` is out of memory.
pub fn start_session(alloc: Global, office: &Office) -> Result<Session, AllocError>
    requires open { IsTrue (round_is_open office.now) }
    ensures mirrors { IfOk result (λ session. IsSessionOf office.now session) }
{
    let instance = office.instance()?;
    let aim = office.last_aim();
    let mut session = Session::start(alloc, instance.supervisors(), instance.projects(), aim)?;
    admit_all(&mut session, &instance)?;
    Ok(session)
}

/// Returns what closing the round now would answer, read from its session. Allocates nothing.
pub fn read_preview(session: &Session) -> Reply
    ensures made { (o : State) → IsSessionOf o session.now → Makes layers o request.Preview result o }
{
    Reply::Preview {
        size: session.size(),
        profile: session.profile(),
    }
}

/// Returns the position of a project.
fn position_of(projects: &[Project], code: &Code) -> usize
    requires known { Contains (map (λ p. p.code) projects.now) code.now }
    ensures known { result < length projects.now }
    ensures named { code_at (map (λ p. p.code) projects.now) result ≡ code.now }
{
    for position in 0..projects.len() {
        if projects[position].code.as_str() == code.as_str() {
            return position;
        }
    }
    unreachable!()
}

/// Returns the positions of projects.
fn positions_of(
    alloc: Global,
    projects: &[Project],
    choices: &[Code],
) -> Result<Vec<usize>, AllocError>
    requires known { All (Contains (map (λ p. p.code) projects.now)) choices.now }
    ensures known { IfOk result (λ v. All (λ p. p < length projects.now) v.items) }
    ensures named { IfOk result (λ v. map (code_at (map (λ p. p.code) projects.now)) v.items ≡ choices.now) }
{
    let mut positions = Vec::new(alloc);
    for code in choices {
        positions.push(position_of(projects, code))?;
    }
    Ok(positions)
}

/// Returns the projects, by position, of a student's list in the last round.
fn list_of(alloc: Global, office: &Office, student: &str) -> Result<Vec<usize>, AllocError>
    requires listed { IsSome (list_of office.now (last_round office.now) student.now) }
    ensures ranking { IfOk result (λ v. IsRanking (project_codes (round_instance office.now)) (choices_in office.now (last_round office.now) student.now) v.items) }
    ensures fit { IsFit office.now }
{
    match office.list_of(office.last_round(), student) {
        Some(listed) => positions_of(alloc, office.projects(), listed.choices.as_slice()),
        None => unreachable!(),
    }
}

/// Admits a student who just got a first list in the open round to its session. After an `Err`, which is out of memory, the session is as
/// before, and the office has moved on.
pub fn join(
    alloc: Global,
    office: &Office,
    session: &mut Session,
    student: &str,
) -> Result<(), AllocError>
    requires joins { MayJoin office.now session.old student.now }
    ensures mirrors { OnOk result (IsSessionOf office.now session.new) }
    ensures joined { OnOk result (IsOneMore session.old session.new) }
    ensures memory { OnErr result (session.new ≡ session.old) }
{
    let list = list_of(alloc, office, student)?;
    session.admit(&list)?;
    Ok(())
}
