//! Whether a schema that was found is one of books.

ghost use Rattle.std.specs.Prelude.{◌≡◌, ◌↔◌, IsTrue, IfOk, [], ◌∷◌, map, Some};
ghost use Rattle.std.specs.List.{list_all};
ghost use Rattle.sqlite_value.specs.declared.value.Value.TheVariants.{Null};
ghost use Rattle.sqlite_value.specs.Keys.{plain};
ghost use Rattle.books_schema.specs.Layouts.{table_of, columns_of, BeginsWithTables};
ghost use Rattle.table_words.specs.Schema.{column, plain_table, keyed_table, id_table, the_tables, schema_0, refers_to_none as refers_to_none_lem, is_harmless as is_harmless_lem, HasTables};

use crate::layouts::{ALL_TABLES, TableLayout};
use sqlite_items::Items;
use sqlite_schema::code::Terms;
use sqlite_schema::schema::{Column, Index, Kind, Schema, Stamps, Table};
use sqlite_value::keys::{Collation, Order};
use sqlite_value::value::Value;
use std::alloc::{AllocError, Global};

/// The last tree of the tables and of their keys: that of the key of the last table.
const LAST_TREE: u32 = ALL_TABLES[ALL_TABLES.len() - 1].tree + 1;

/// What the names of the indexes of keys begin with, and no other.
const AUTOMATIC: &[u8] = b"sqlite_autoindex_";

fn is_null(value: &Value) -> bool
    ensures { IsTrue result ↔ (value.now ≡ Null) }
{
    matches!(value, Value::Null)
}

/// Whether it is a NOT NULL column of this name and type.
fn is_column(found: &Column, name: &[u8], kind: Kind) -> bool
    ensures { IsTrue result ↔ (found.now ≡ column name.now kind) }
{
    found.name.as_slice() == name
        && found.kind == kind
        && found.is_strict
        && found.not_null
        && is_null(&found.default)
        && found.collation == Collation::Binary
}

fn are_none(alloc: Global, terms: &Terms) -> Result<bool, AllocError>
    ensures { IfOk result (λ none. IsTrue none ↔ (terms.now ≡ [])) }
{
    let lent = terms.lend(alloc)?;
    Ok(lent.roots.is_empty())
}

fn are_columns(found: &[Column], columns: &[(&[u8], Kind)]) -> bool
    ensures { IsTrue result ↔ (found.now ≡ map (λ c. column c.0.now c.1) columns.now) }
{
    if found.len() != columns.len() {
        return false;
    }
    for at in 0..found.len() {
        let (name, kind) = columns[at];
        if !is_column(&found[at], name, kind) {
            return false;
        }
    }
    true
}

fn is_one_key(found: &Items<Items<usize>>, places: &[usize]) -> bool
    ensures { IsTrue result ↔ (found.now ≡ places.now ∷ []) }
{
    match found.as_slice() {
        [only] => only.as_slice() == places,
        _ => false,
    }
}

fn is_plain(found: &Items<Order>) -> bool
    ensures { IsTrue result ↔ (found.now ≡ plain ∷ []) }
{
    match found.as_slice() {
        [only] => only.digits == 0,
        _ => false,
    }
}

fn has_no_stamps(alloc: Global, stamps: &Stamps) -> Result<bool, AllocError>
    ensures { IfOk result (λ none. IsTrue none ↔ ((stamps.now.places ≡ []) × (stamps.now.terms ≡ []) × (stamps.now.formats ≡ []))) }
{
    Ok(are_none(alloc, &stamps.terms)? && stamps.places.is_empty() && stamps.formats.is_empty())
}

/// Whether it is a STRICT table with the columns of this layout, each NOT NULL, and a PRIMARY KEY at these places; its keys
/// and its rowid are for the caller.
fn is_plain_table(
    alloc: Global,
    found: &Table,
    layout: &TableLayout,
    places: &[usize],
) -> Result<bool, AllocError>
    ensures { IfOk result (λ yes. IsTrue yes ↔ (found.now ≡ plain_table layout.now.tree layout.now.name.now (columns_of layout.now) found.now.key places.now found.now.uniques found.now.orders)) }
{
    if !are_none(alloc, &found.checks)? {
        return Ok(false);
    }
    if !has_no_stamps(alloc, &found.stamps)? {
        return Ok(false);
    }
    Ok(
        found.name.as_slice() == layout.name
            && found.tree == layout.tree
            && are_columns(found.columns.as_slice(), layout.columns)
            && found.primary.as_slice() == places
            && found.references.is_empty()
            && found.computed.is_empty()
            && !found.is_counted,
    )
}

/// Whether it is the table of this layout with its PRIMARY KEY beside the rowid, and nothing else.
fn is_keyed_table(alloc: Global, found: &Table, layout: &TableLayout) -> Result<bool, AllocError>
    ensures { IfOk result (λ yes. IsTrue yes ↔ (found.now ≡ keyed_table layout.now.tree layout.now.name.now (columns_of layout.now) layout.now.places.now)) }
{
    if !is_plain_table(alloc, found, layout, layout.places)? {
        return Ok(false);
    }
    Ok(found.key.is_none() && is_one_key(&found.uniques, layout.places) && is_plain(&found.orders))
}

fn is_first(key: Option<usize>) -> bool
    ensures { IsTrue result ↔ (key ≡ Some 0) }
{
    key == Some(0)
}

/// Whether it is the table of this layout with its first column as the rowid.
fn is_id_table(alloc: Global, found: &Table, layout: &TableLayout) -> Result<bool, AllocError>
    ensures { IfOk result (λ yes. IsTrue yes ↔ (found.now ≡ id_table layout.now.tree layout.now.name.now (columns_of layout.now))) }
{
    if !is_plain_table(alloc, found, layout, &[0])? {
        return Ok(false);
    }
    Ok(is_first(found.key) && found.uniques.is_empty() && found.orders.is_empty())
}

/// Whether it is the table of this layout.
fn is_table(alloc: Global, found: &Table, layout: &TableLayout) -> Result<bool, AllocError>
    ensures { IfOk result (λ same. IsTrue same ↔ (found.now ≡ table_of layout.now)) }
{
    if layout.has_id {
        return is_id_table(alloc, found, layout);
    }
    is_keyed_table(alloc, found, layout)
}

/// Whether they are the tables of these layouts, in their order.
pub fn tables_match(
    alloc: Global,
    found: &[Table],
    layouts: &[TableLayout],
) -> Result<bool, AllocError>
    ensures { IfOk result (λ same. IsTrue same ↔ (found.now ≡ map table_of layouts.now)) }
{
    if found.len() != layouts.len() {
        return Ok(false);
    }
    for at in 0..found.len() {
        if !is_table(alloc, &found[at], &layouts[at])? {
            return Ok(false);
        }
    }
    Ok(true)
}

/// Whether they are the tables of the books, in their order.
fn are_tables(alloc: Global, found: &[Table]) -> Result<bool, AllocError>
    ensures { IfOk result (λ same. IsTrue same ↔ (found.now ≡ the_tables)) }
{
    tables_match(alloc, found, ALL_TABLES)
}

fn refers_to_none(found: &Table) -> bool
    ensures { result ≡ refers_to_none_lem found.now }
{
    found.references.is_empty()
}

fn are_apart(found: &[Table]) -> bool
    ensures { result ≡ list_all refers_to_none_lem found.now }
{
    found.iter().all(|t| refers_to_none(t))
}

/// Whether the index refuses no row of the books that their keys let in.
fn is_harmless(found: &Index) -> bool
    ensures { result ≡ is_harmless_lem found.now }
{
    !found.is_unique || found.table > LAST_TREE || found.name.as_slice().starts_with(AUTOMATIC)
}

fn are_harmless(found: &[Index]) -> bool
    ensures { result ≡ list_all is_harmless_lem found.now }
{
    found.iter().all(|i| is_harmless(i))
}

/// Whether these are the tables of the books, and then others that refer to none.
fn begin_with_tables(alloc: Global, found: &[Table]) -> Result<bool, AllocError>
    ensures { IfOk result (λ yes. IsTrue yes ↔ BeginsWithTables found.now) }
{
    let tables = ALL_TABLES;
    if found.len() < tables.len() {
        return Ok(false);
    }
    if !are_tables(alloc, &found[..tables.len()])? {
        return Ok(false);
    }
    Ok(are_apart(&found[tables.len()..]))
}

/// Whether the schema has the tables of the books before any others, which refer to none, and no index that refuses a
/// row of the books.
pub fn has_tables(alloc: Global, found: &Schema) -> Result<bool, AllocError>
    ensures { IfOk result (λ yes. IsTrue yes ↔ HasTables found.now) }
{
    if !begin_with_tables(alloc, found.tables.as_slice())? {
        return Ok(false);
    }
    Ok(are_harmless(found.indexes.as_slice()))
}

/// Whether there is no table, no index and no view.
pub fn is_empty_schema(found: &Schema) -> bool
    ensures { IsTrue result ↔ (found.now ≡ schema_0) }
{
    found.tables.is_empty() && found.indexes.is_empty() && found.views.is_empty()
}
