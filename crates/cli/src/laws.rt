//! Laws of what a command does: functions with nothing to do, whose contracts are the laws.

ghost use Rattle.std.specs.Prelude.{◌≡◌, ℕ, List, None};
ghost use Rattle.cli.specs.Outcomes.{ComesTo, Prints};
ghost use Rattle.cli.specs.Databases.{Came, WordsAt};
ghost use Rattle.cli.specs.Lasting.{TaskStays};
ghost use Rattle.cli.specs.Solving.{SolvesIn, solve_words};

use crate::outputs::Outputs;
use crate::status::Status;
use host::World;
use sqlite::Alter;
use web::Sink;

/// What a command prints is an outcome of its words, in whatever world it was done.
pub fn printed_law<W: World, O: Sink, E: Sink>(world: &W, outputs: &Outputs<O, E>)
    ensures printed { (words : List (List ℕ)) (came : Came W.File W.File.Disk) (new : _) (status : Status) → WordsAt (W.state world.now) words came outputs.now new status → Prints (ComesTo words) outputs.now new status }
{}

/// `spadesk solve round.txt` opens no database, and what it prints comes of what its world says of that file, in whatever world it was
/// done.
pub fn solve_law<W: World, O: Sink, E: Sink>(world: &W, outputs: &Outputs<O, E>)
    ensures no_file { (came : Came W.File W.File.Disk) (new : _) (status : Status) → WordsAt (W.state world.now) solve_words came outputs.now new status → came ≡ None }
    ensures printed { (came : Came W.File W.File.Disk) (new : _) (status : Status) → WordsAt (W.state world.now) solve_words came outputs.now new status → Prints (SolvesIn (let at = W.state world.now in at.holds)) outputs.now new status }
{}

/// A change that a command made and answered, or that it answered to a client, stays: what a crash leaves before the file is closed is
/// opened as the office after all answers, or as one that one request makes of it.
pub fn task_law<W: World, S: Alter>(world: &W)
    ensures stays { TaskStays S.Store (let at = W.state world.now in at.ports) }
{}
