//! Whether a schema lists the tables with the columns and the keys that are made here, and their references. A table that is found
//! may be one without STRICT, and its references may name no column, so that a key is meant.

ghost use Rattle.std.specs.Prelude.{◌≡◌, ◌==◌, ℕ, map, false, slice_get, None, Some, IfSome};
ghost use Rattle.sql_tables.specs.Common.{bytes_eq, list_all, list_any, table_named, AnyTable};
ghost use Rattle.sql_tables.specs.Inside.Table.{column_by, link_by, places_by, shape_by};
ghost use Rattle.sql_tables.specs.Table.{kind_in, shape_of, table_at};
ghost use Rattle.sql_tables.specs.Inside.Layout.{is_alone, is_required, are_loose, are_of_one, are_strict, are_declared, is_referring, are_plain, is_untimed, has_keys, has_shape, IsTableNamed};
ghost use Rattle.sql_tables.specs.Layout.{IsListed, IsUnlisted, is_kept_of, is_there};

use crate::inert::is_passive;
use crate::table::{DeclaredColumn, Link, Shape, Shaped};
use schema::Table;
use sqlite_items::Items;
use sqlite_schema::names::same_name;
use sqlite_schema::schema::{Column, Kind, Reference, Schema, Table as SchemaTable, View};
use sqlite_value::keys::{Collation, Order};
use sqlite_value::value::{Bytes, Value};

/// Returns the kind of a column that is declared to have this one. BLOB is a kind in a STRICT table alone.
fn kind_in(kind: Kind, is_strict: bool) -> Kind
    ensures { result ≡ kind_in kind is_strict }
{
    match kind {
        Kind::Blob if !is_strict => Kind::Any,
        _ => kind,
    }
}

fn is_required(column: &Column, declared: &DeclaredColumn) -> bool
    ensures { result ≡ is_required (column_by declared.now) column.now }
{
    // By bytes, as codes are compared here: under another collation the database could call two keys one.
    column.name.as_slice() == declared.0.as_bytes()
        && column.kind == kind_in(declared.1, column.is_strict)
        && column.not_null
        && matches!(column.default, Value::Null)
        && matches!(column.collation, Collation::Binary)
}

fn are_required(columns: &[Column], declared: &[DeclaredColumn]) -> bool
    ensures { result ≡ are_declared is_required (map column_by declared.now) columns.now }
{
    columns.len() == declared.len()
        && columns
            .iter()
            .zip(declared)
            .all(|(column, declared)| is_required(column, declared))
}

fn are_strict(columns: &[Column]) -> bool
    ensures { result ≡ are_strict columns.now }
{
    columns.iter().all(|column| column.is_strict)
}

fn are_loose(columns: &[Column]) -> bool
    ensures { result ≡ are_loose columns.now }
{
    columns.iter().all(|column| !column.is_strict)
}

/// Whether the columns are all of a STRICT table, or none is.
fn are_of_one(columns: &[Column]) -> bool
    ensures { result ≡ are_of_one columns.now }
{
    are_strict(columns) || are_loose(columns)
}

fn is_alone(names: &Items<Bytes>, name: &str) -> bool
    ensures { result ≡ is_alone name.now names.now }
{
    names.len() == 1
        && match names.get(0) {
            Some(one) => one.as_slice() == name.as_bytes(),
            None => false,
        }
}

fn is_referring(reference: &Reference, link: &Link) -> bool
    ensures { result ≡ is_referring (link_by link.now) reference.now }
{
    // No column named means the key of the other table, which is the same. A deferred reference is judged at the commit alone.
    reference.columns.as_slice() == [link.0].as_slice()
        && reference.parent.as_slice() == link.1.table.as_bytes()
        && (reference.parent_columns.len() == 0
            || is_alone(&reference.parent_columns, link.1.column))
        && is_passive(reference.on_delete)
        && is_passive(reference.on_update)
        && !reference.is_deferred
}

fn are_referring(references: &[Reference], links: &[Link]) -> bool
    ensures { result ≡ are_declared is_referring (map link_by links.now) references.now }
{
    references.len() == links.len()
        && references
            .iter()
            .zip(links)
            .all(|(reference, link)| is_referring(reference, link))
}

fn are_same(lists: &[Items<usize>], declared: &[&[usize]]) -> bool
    ensures { result ≡ are_declared (λ places list. bytes_eq list places) (map places_by declared.now) lists.now }
{
    lists.len() == declared.len()
        && lists
            .iter()
            .zip(declared)
            .all(|(list, places)| list.as_slice() == *places)
}

fn are_ascending(orders: &[Order]) -> bool
    ensures { result ≡ list_all (λ o. o.digits == 0) orders.now }
{
    orders.iter().all(|order| order.digits == 0)
}

fn are_plain(orders: &[Order], count: usize) -> bool
    ensures { result ≡ are_plain count orders.now }
{
    orders.len() == count && are_ascending(orders)
}

fn is_untimed(table: &SchemaTable) -> bool
    ensures { result ≡ is_untimed table.now }
{
    table.computed.len() == 0
        && table.stamps.places.len() == 0
        && table.stamps.terms.roots.len() == 0
        && table.stamps.formats.len() == 0
        && !table.is_counted
}

fn has_keys(table: &SchemaTable, shape: &Shape) -> bool
    ensures { result ≡ has_keys (shape_by shape.now) table.now }
{
    table.key == shape.keys.rowid
        && table.primary.as_slice() == shape.keys.primary
        && are_same(table.uniques.as_slice(), shape.keys.uniques)
        && are_plain(table.orders.as_slice(), shape.keys.uniques.len())
}

/// Whether a table is as one of this shape is made, STRICT or not, and with references that may name no column.
fn has_shape(table: &SchemaTable, shape: &Shape) -> bool
    ensures { result ≡ has_shape (shape_by shape.now) table.now }
{
    // Letter for letter: a statement is known under one spelling of its table, although SQL finds `Student` too.
    table.name.as_slice() == shape.name.as_bytes()
        && has_keys(table, shape)
        && are_required(table.columns.as_slice(), shape.columns)
        && are_of_one(table.columns.as_slice())
        && are_referring(table.references.as_slice(), shape.links)
        && is_untimed(table)
}

fn position_of(schema: &Schema, name: &str) -> Option<usize>
    ensures { result ≡ table_named schema.now name.now }
{
    schema
        .tables
        .as_slice()
        .iter()
        .position(|table| same_name(table.name.as_slice(), name.as_bytes()))
}

/// Returns the first table of this name, but for the case of its letters.
fn find_table<'a>(schema: &'a Schema, name: &str) -> Option<&'a SchemaTable>
    ensures some { IfSome result (λ table. IsTableNamed schema.now name.now table.now) }
    ensures none { result ≡ None → (at : ℕ) (table : AnyTable) → table_named schema.now name.now ≡ Some at
        → slice_get schema.now.tables at ≡ Some table → ⊥ }
{
    let at = position_of(schema, name)?;
    schema.tables.get(at)
}

/// Whether this is kept as it is, and is of the table of this name.
fn is_kept_of(view: &View, name: &str) -> bool
    ensures { result ≡ is_kept_of name.now view.now }
{
    match &view.foreign {
        Some(table) => same_name(table.as_slice(), name.as_bytes()),
        None => false,
    }
}

fn is_kept(schema: &Schema, name: &str) -> bool
    ensures { result ≡ list_any (is_kept_of name.now) schema.now.views }
{
    schema
        .views
        .as_slice()
        .iter()
        .any(|view| is_kept_of(view, name))
}

/// Whether a table has the name of this one, but for the case of its letters. It may be one that the database keeps as it is, since it
/// has a trigger, say.
pub fn has_table(schema: &Schema, table: Table) -> bool
    ensures { result ≡ is_there schema.now (shape_of table).name }
{
    let name = table.shape().name;
    position_of(schema, name).is_some() || is_kept(schema, name)
}

/// Returns the tree of the table, where it is listed as it is made here, STRICT or not, and with references that may name no column.
pub fn tree_of(schema: &Schema, table: Table) -> Option<u32>
    ensures some { IfSome result (IsListed (table_at table) schema.now) }
    ensures none { result ≡ None → IsUnlisted (table_at table) schema.now }
{
    let shape = table.shape();
    // The first of the name alone, which is the one that a statement reaches.
    let listed = find_table(schema, shape.name)?;
    if !has_shape(listed, shape) {
        return None;
    }
    Some(listed.tree)
}
