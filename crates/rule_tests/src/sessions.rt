//! Sessions compared with what `solve` answers for the same instance.

ghost use Rattle.std.specs.Prelude.{◌≡◌, IfOk};

use crate::rolls_of::instance;
use solver::{Session, solve};
use spa::{Aim, Instance, profile};
use std::alloc::Global;
use std::rt::HostRuntime;
use std::test::Fail;
use testing::judged::holds;

/// Returns a session to which all students of the instance were admitted.
fn session_of(alloc: Global, instance: &Instance, aim: Aim) -> Result<Session, Fail>
    ensures { IfOk result (λ session. session.shape ≡ instance.now.shape) }
{
    let mut session = Session::start(alloc, instance.supervisors(), instance.projects(), aim)?;
    for student in 0..instance.student_count() {
        session.admit(instance.list(student))?;
    }
    Ok(session)
}

type Rolls = (&'static str, &'static str, &'static str);

// Supervisors, projects and students.
#[rattlefmt::skip]
static ROLLS: [Rolls; 6] = [
    ("L:5",     "P:L:1 Q:L:1 Z:L:0",                 "A:P:Q C:Z:P"),
    ("L:5",     "P:L:1 Q:L:1",                       "A:P:Q B:Q:P"),
    ("L:5",     "U:L:1 V:L:1 X:L:1 Y:L:0 Z:L:0",     "A:X:V C:Z:X:Y:U"),
    ("K:1 L:1", "P:L:1 Q:L:1 R:K:1",                 "A:P B:Q:R C:P:Q:R"),
    ("L:3",     "P:L:2 Q:L:2",                       "A:P B:P:Q C:P:Q D:Q:P E:Q"),
    ("L:5",     "P:L:1",                             ""),
];

/// Compares the size and the profile that a session of each row returns with those of the matching that is solved by the
/// same aim.
fn compare_with_solved(alloc: Global, aim: Aim, rows: &[Rolls]) -> Result<(), Fail> {
    for (supervisors, projects, students) in rows {
        let instance = instance(alloc, supervisors, projects, students)?;
        let session = session_of(alloc, &instance, aim)?;
        let matching = solve(alloc, &instance, aim)?.matching;
        holds(matching.fault(&instance).is_none(), students)?;
        let size = matching.size(&instance);
        holds(session.size() as usize == size, students)?;
        let profile = profile(&instance, &matching);
        holds(session.profile() == profile, students)?;
    }
    Ok(())
}

#[test]
fn sessions_return_what_is_solved(rt: HostRuntime) -> Result<(), Fail> {
    compare_with_solved(rt.alloc(), Aim::Greedy, ROLLS.as_slice())?;
    compare_with_solved(rt.alloc(), Aim::Generous, ROLLS.as_slice())
}
