//! The statements, each over any table.

ghost use Rattle.std.specs.Prelude.{◌≡◌, [], IfOk, IfErr, true};
ghost use Rattle.sql_tables.specs.Common.{HasCleanDisk, state, are_of, kinds_of, shared_kinds, Storage};
ghost use Rattle.sql_tables.specs.Causes.{FailsToRead, IsUnread};
ghost use Rattle.sql_tables.specs.Outcomes.{entry, leaving, making};
ghost use Rattle.sql_tables.specs.Table.{sql_of, table_at};
ghost use Rattle.sql_tables.specs.Inside.Table.{entering};
ghost use Rattle.sql_tables.specs.Steps.{IsReading, Shows, Steps};

use crate::fault::{TableFault, Wrote};
use crate::read::read_text;
use crate::table::{Shaped, removal};
use crate::write::write;
use schema::{Cell, Group, Table};
use sqlite::{Alter, Connection, Row, Transaction};

/// Creates the table: a STRICT one, whose references name their columns, with its CHECK rules.
pub fn make<S: Alter>(tx: &mut Transaction<'_, S>, table: Table) -> Wrote
    ensures same_reference { tx.new.conn.ghost_name ≡ tx.old.conn.ghost_name }
    ensures step { Steps S.Store (making table) result tx.old.conn.now tx.new.conn.now }
{
    write(tx, table.shape().create, &[])?;
    Ok(())
}

/// How a row comes into its table.
#[derive(Clone, Copy)]
pub enum Entering {
    /// In the place of the one with its key.
    InPlace,
    /// As one more.
    New,
}

impl Entering {
    /// Returns the text that brings a row into the table so.
    fn text(self, table: Table) -> &'static str
        ensures { result.now ≡ entering self (sql_of table) }
    {
        match self {
            Entering::InPlace => table.shape().update,
            Entering::New => table.shape().insert,
        }
    }
}

/// Brings the row of these cells into its table. In the place of none nothing changes.
pub fn enter<S: Alter>(
    tx: &mut Transaction<'_, S>,
    way: Entering,
    table: Table,
    cells: &[Cell],
) -> Wrote
    requires { are_of (kinds_of table) cells.now ≡ true }

    ensures same_reference { tx.new.conn.ghost_name ≡ tx.old.conn.ghost_name }
    ensures step { Steps S.Store (entry way table cells.now) result tx.old.conn.now tx.new.conn.now }
{
    write(tx, way.text(table), cells)?;
    Ok(())
}

/// Takes the rows of a group away: those that have these cells in the columns that they share.
pub fn leave<S: Alter>(tx: &mut Transaction<'_, S>, group: Group, cells: &[Cell]) -> Wrote
    requires { are_of (shared_kinds group) cells.now ≡ true }

    ensures same_reference { tx.new.conn.ghost_name ≡ tx.old.conn.ghost_name }
    ensures step { Steps S.Store (leaving group cells.now) result tx.old.conn.now tx.new.conn.now }
{
    // How many went does not matter: it is as well if there was none.
    write(tx, removal(group), cells)?;
    Ok(())
}

/// Reads each row of the table, after its rowid. An `Err` is out of memory, or a database error.
pub fn read<S: Alter>(conn: &mut Connection<S>, table: Table) -> Result<Vec<Row>, TableFault>
    ensures rows { HasCleanDisk (state S.Store conn.new)
        → IfOk result (λ rows. Shows (table_at table) rows.items (state S.Store conn.old) (state S.Store conn.new)) }
    ensures fails { HasCleanDisk (state S.Store conn.new)
        → IfErr result (λ fault. FailsToRead (sql_of table).select fault (state S.Store conn.old) (state S.Store conn.new)) }
    ensures reads { IsReading Storage (IsUnread (table_at table)) result (state S.Store conn.old) (state S.Store conn.new) }
{
    read_text(conn, table.shape().select)
}
