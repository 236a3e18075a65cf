//! Whether the foreign keys of a schema act where rows of a table are taken out or replaced.

ghost use Rattle.std.specs.Prelude.{◌≡◌, ◌↔◌, IsTrue, false};
ghost use Rattle.std.specs.List.{list_all};
ghost use Rattle.sql_tables.specs.Writes.{IsInert};
ghost use Rattle.sql_tables.specs.Inside.Inert.{is_passive, refers_to, is_quiet, is_inert};
ghost use Rattle.sql_tables.specs.Inert.{IsActedOn};

use sqlite_schema::names::same_name;
use sqlite_schema::schema::{Action, Reference, Schema, Table};

/// Whether a foreign key with this action writes nothing.
pub(crate) fn is_passive(action: Action) -> bool
    ensures { result ≡ is_passive action }
{
    // RESTRICT is an action too: it refuses at once what NO ACTION judges when the statement has ended.
    matches!(action, Action::NoAction)
}

/// Whether a table of the name that the reference has is that of this tree.
fn refers_to(schema: &Schema, tree: u32, reference: &Reference) -> bool
    ensures { result ≡ refers_to schema.now.tables tree reference.now }
{
    schema.tables.as_slice().iter().any(|table| {
        same_name(table.name.as_slice(), reference.parent.as_slice()) && table.tree == tree
    })
}

fn is_quiet(schema: &Schema, tree: u32, reference: &Reference) -> bool
    ensures { result ≡ is_quiet schema.now.tables tree reference.now }
{
    is_passive(reference.on_delete) && is_passive(reference.on_update)
        || !refers_to(schema, tree, reference)
}

fn are_quiet(schema: &Schema, tree: u32, table: &Table) -> bool
    ensures { result ≡ list_all (is_quiet schema.now.tables tree) table.now.references }
{
    table
        .references
        .as_slice()
        .iter()
        .all(|reference| is_quiet(schema, tree, reference))
}

fn has_no_action(schema: &Schema, tree: u32) -> bool
    ensures { result ≡ is_inert schema.now.tables tree }
{
    schema
        .tables
        .as_slice()
        .iter()
        .all(|table| are_quiet(schema, tree, table))
}

/// Whether no reference acts where rows of this tree are taken out or replaced.
#[tactic(auto, using(crate::proofs::Quiet::inert, crate::proofs::Quiet::acted_on))]
pub fn is_inert(schema: &Schema, tree: u32) -> bool
    ensures sound { IsTrue result → IsInert schema.now tree }
    ensures exact { (result ≡ false) ↔ IsActedOn schema.now.tables tree }
{
    has_no_action(schema, tree)
}
