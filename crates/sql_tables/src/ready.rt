//! Whether a connection is open.

ghost use Rattle.std.specs.Prelude.{◌≡◌, OnOk, IfErr, codes, []};
ghost use Rattle.sql_tables.specs.Common.{IsDatabase, HasCleanDisk, IsNotRun, IsUnchanged, state, Storage};
ghost use Rattle.sql_tables.specs.Faults.{fault_of};
ghost use Rattle.sql_tables.specs.Steps.{IsReading};

use crate::fault::TableFault;
use sqlite::{Alter, Connection, Error};

/// Fails where a fault of the disk has shut the connection. An open one shows a database. Nothing is changed.
pub fn need_open<S: Alter>(conn: &mut Connection<S>) -> Result<(), TableFault>
    ensures same { HasCleanDisk (state S.Store conn.new) → OnOk result (IsUnchanged (state S.Store conn.old) (state S.Store conn.new)) }
    ensures sound { HasCleanDisk (state S.Store conn.new) → OnOk result (IsDatabase (state S.Store conn.new).now) }
    ensures fails { HasCleanDisk (state S.Store conn.new)
        → IfErr result (λ fault.
        (e : Error) × IsNotRun (state S.Store conn.old) (state S.Store conn.new) (codes "SELECT 1") [] e × (fault ≡ fault_of e)) }
    ensures reads { IsReading Storage (λ _ _. ⊥) result (state S.Store conn.old) (state S.Store conn.new) }
{
    // The plainest query: it touches no table, so that little but a shut connection can make it fail.
    let _ = conn.prepare("SELECT 1")?;
    // Asked for its clause *live* alone: what an open connection shows is a database.
    let _ = conn.schema();
    Ok(())
}
