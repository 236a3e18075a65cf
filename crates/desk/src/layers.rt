//! What the office takes from the layers next to it: a matching for the open round's closing, the session that its previews are read
//! from, its round text, the text of a report, and the records of an import text.
//!
//! `office` takes any matching of the round's instance, and any requests as an import's; `solver` finds a matching that is best
//! by the round's aim, `reports` writes reports, and `import_csv` reads a text. Here they meet. Nothing here holds an office or
//! touches a table: `desk` does.
//!
//! Promised: each function makes exactly the step of its request, or refuses it as the definition does; out of memory the
//! office is as before. A session mirrors an office where it has the rolls and the lists of its open round, the lists in any order
//! (`specs/layers/SessionRounds.antt`): a preview that is read from it is what closing the round would answer.
#![tactic(auto)]

mod session;

ghost use Rattle.std.specs.Prelude.{◌≡◌, ◌⊎◌, ◌-◌, ◌^◌, IfOk, IfErr, OnErr, IsTrue, Some, None, false};
ghost use Rattle.office_model.specs.State.{round_is_open, has_import};
ghost use Rattle.office_model.specs.Refusing.{refusal_of};
ghost use Rattle.office_model.specs.Rows.{Transforms};
ghost use Rattle.office_model.specs.Run.{Makes, refusal};
ghost use Rattle.office_model.specs.declared.request.Request.TheVariants as request;
ghost use Rattle.import_csv.specs.Requests.{IsRecordOf};
ghost use Rattle.desk.specs.layers.Layers.{layers, refused_as};
ghost use Rattle.desk.specs.layers.Changes.{MayChange};

use import_csv::{ImportFault, read_import};
use office::Office;
use office_model::{Bytes, Done, ImportKind, Refusal, Reply, ReportKind, Text};
use reports::instance_text;
pub use session::{join, read_preview, start_session};
use solver::solve;
use std::alloc::{AllocError, Global};

/// Closes the open round with a matching of its instance that is best by its aim. An `Err` is out of memory, and leaves the office as it
/// was.
pub fn close(alloc: Global, office: &mut Office) -> Result<Done, AllocError>
    requires open { IsTrue (round_is_open office.old) }
    ensures made { IfOk result (λ done. Makes layers office.old request.Close done.reply office.new) }
    ensures transforms { IfOk result (λ done. Transforms done.changes.items office.old office.new) }
    ensures changes { IfOk result (λ done. MayChange office.old request.Close done.changes.items) }
    ensures memory { OnErr result (office.new ≡ office.old) }
{
    let instance = office.instance()?;
    let aim = office.last_aim();
    let solved = solve(alloc, &instance, aim)?;
    office.close(&solved.matching)
}

/// Returns the instance of the open round, as a round text. An `Err` is out of memory.
pub fn round_text(alloc: Global, office: &Office) -> Result<Reply, AllocError>
    requires open { IsTrue (round_is_open office.now) }
    ensures made { IfOk result (λ reply. Makes layers office.now request.RoundText reply office.now) }
{
    let instance = office.instance()?;
    let text = instance_text(alloc, &instance, office.last_aim())?;
    Ok(Reply::Text(Text::of(alloc, text.as_str())?))
}

/// Returns a report of a round. An `Err` is `Memory`.
pub fn report(
    alloc: Global,
    office: &Office,
    kind: ReportKind,
    round: u32,
) -> Result<Reply, Refusal>
    requires known { refusal_of office.now (request.Report kind round) ≡ None }
    ensures made { IfOk result (λ reply. Makes layers office.now (request.Report kind round) reply office.now) }
    ensures refused { IfErr result (λ r. r ≡ Refusal.Memory) }
{
    let told = reports::report(alloc, office, kind, round)?;
    Ok(Reply::Text(Text::of(alloc, told.as_str())?))
}

/// The number by which a record with another number of fields is refused: that of `Members`.
const WRONG_FIELDS: u32 = 8;

/// Returns the refusal of a text that is no import text.
fn refused_as(fault: ImportFault) -> Refusal
    requires few { IsRecordOf (2 ^ 32 - 1) fault }
    ensures { result ≡ refused_as fault }
{
    match fault {
        ImportFault::Memory => Refusal::Memory,
        ImportFault::Header => Refusal::Header,
        ImportFault::Fields { record } => Refusal::Row {
            record: record as u32,
            inner: WRONG_FIELDS,
        },
    }
}

/// Makes an import that is not stored yet: the requests of its text's records, all of them or none. An `Err` is `Memory`, or the first
/// refusal of its text or of a record, and leaves the office as it was.
pub fn import(
    alloc: Global,
    office: &mut Office,
    id: Text,
    kind: ImportKind,
    bytes: Bytes,
) -> Result<Done, Refusal>
    requires new { has_import office.old id ≡ false }
    requires allowed { refusal_of office.old (request.Import id kind bytes) ≡ None }
    ensures made { IfOk result (λ done. Makes layers office.old (request.Import id kind bytes) done.reply office.new) }
    ensures named { IfOk result (λ _. refusal layers office.old (request.Import id kind bytes) ≡ None) }
    ensures transforms { IfOk result (λ done. Transforms done.changes.items office.old office.new) }
    ensures changes { IfOk result (λ done. MayChange office.old (request.Import id kind bytes) done.changes.items) }
    ensures refused { IfErr result (λ r. (r ≡ Refusal.Memory) ⊎ (refusal layers office.old (request.Import id kind bytes) ≡ Some r)) }
    ensures same { OnErr result (office.new ≡ office.old) }
{
    match read_import(alloc, kind, bytes.as_slice()) {
        Ok(rows) => office.import(id, kind, bytes, rows),
        Err(fault) => Err(refused_as(fault)),
    }
}
