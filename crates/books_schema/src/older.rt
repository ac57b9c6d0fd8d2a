//! Whether a schema that was found is that of books that lack tables, and of which.

ghost use Rattle.std.specs.Prelude.{◌≡◌, ◌↔◌, IsTrue, IfOk, length, map};
ghost use Rattle.std.specs.List.{list_any, list_all};
ghost use Rattle.table_words.specs.Found.{no_two};
ghost use Rattle.books_schema.specs.Layouts.{key_of, is_of as is_of_lem};
ghost use Rattle.books_schema.specs.Older.{number as number_lem, older_tables, older_keys, last_tree as last_tree_lem, is_index_of_books as is_index_of_books_lem, is_ours as is_ours_lem, same_named as same_named_lem, AreOurs, AreOlderIndexes, IsOlderSchema};

use crate::checking::tables_match;
use crate::layouts::{ALL_TABLES, IndexLayout, OLDER_KEYS};
use sqlite_schema::schema::{Index, Schema, Table};
use std::alloc::{AllocError, Global};

/// Books of an older schema, which lack tables of the newest.
#[derive(Clone, Copy)]
pub enum OlderBooks {
    /// Of schema 1, which has no table `least` and none `urgents`.
    First,
    /// Of schema 2, which has no table `urgents`.
    Second,
}

impl OlderBooks {
    /// Their schema number.
    pub fn number(self) -> u64
        ensures { result ≡ number_lem self }
    {
        match self {
            OlderBooks::First => 1,
            OlderBooks::Second => 2,
        }
    }

    /// How many tables they have.
    fn table_count(self) -> usize
        ensures { result ≡ length (older_tables self) }
    {
        match self {
            OlderBooks::First => 14,
            OlderBooks::Second => 15,
        }
    }

    /// How many of their tables have a key beside the rowid.
    fn key_count(self) -> usize
        ensures { result ≡ length (older_keys self) }
    {
        match self {
            OlderBooks::First => 12,
            OlderBooks::Second => 13,
        }
    }

    /// The last tree of their tables and keys.
    fn last_tree(self) -> u32
        ensures { result ≡ last_tree_lem self }
    {
        match self {
            OlderBooks::First => 25,
            OlderBooks::Second => 27,
        }
    }
}

/// Whether they are the tables of these books, in their order.
fn are_tables(alloc: Global, found: &[Table], older: OlderBooks) -> Result<bool, AllocError>
    ensures { IfOk result (λ same. IsTrue same ↔ (found.now ≡ older_tables older)) }
{
    tables_match(alloc, found, &ALL_TABLES[..older.table_count()])
}

/// Whether it is the index of this key.
fn is_key(found: &Index, layout: &IndexLayout) -> bool
    ensures { IsTrue result ↔ (found.now ≡ key_of layout.now) }
{
    found.name.as_slice() == layout.name
        && u64::from(found.tree) == u64::from(layout.table) + 1
        && found.table == layout.table
        && found.columns.as_slice() == layout.columns
        && found.order.digits == 0
        && found.is_unique
}

/// Whether they are the indexes of these keys, in their order.
fn keys_match(found: &[Index], layouts: &[IndexLayout]) -> bool
    ensures { IsTrue result ↔ (found.now ≡ map key_of layouts.now) }
{
    if found.len() != layouts.len() {
        return false;
    }
    for at in 0..found.len() {
        if !is_key(&found[at], &layouts[at]) {
            return false;
        }
    }
    true
}

/// Whether they are the indexes of the keys of these books, in their order.
fn are_keys(found: &[Index], older: OlderBooks) -> bool
    ensures { IsTrue result ↔ (found.now ≡ older_keys older) }
{
    keys_match(found, &OLDER_KEYS[..older.key_count()])
}

/// Whether it is this index, which is not UNIQUE, in whatever tree.
fn is_of(found: &Index, name: &[u8], table: u32, columns: &[usize]) -> bool
    ensures { result ≡ is_of_lem (name.now, table, columns.now) found.now }
{
    found.name.as_slice() == name
        && found.table == table
        && found.columns.as_slice() == columns
        && found.order.digits == 0
        && !found.is_unique
}

/// Whether it is an index that earlier programs made beside those of the keys. None is made any more.
fn is_index_of_books(found: &Index) -> bool
    ensures { result ≡ is_index_of_books_lem found.now }
{
    is_of(found, b"staged_by_gtin", 15, &[2])
        || is_of(found, b"reserved_by_gtin", 17, &[2])
        || is_of(found, b"shiplines_of_lot", 20, &[2, 3, 1])
        || is_of(found, b"orders_by_state", 11, &[4])
}

/// Whether it is such an index, behind the tables of these books.
fn is_ours(found: &Index, older: OlderBooks) -> bool
    ensures { result ≡ is_ours_lem older found.now }
{
    found.tree > older.last_tree() && is_index_of_books(found)
}

fn are_all_ours(found: &[Index], older: OlderBooks) -> bool
    ensures { result ≡ list_all (is_ours_lem older) found.now }
{
    found.iter().all(|i| is_ours(i, older))
}

fn same_named(one: &Index, other: &Index) -> bool
    ensures { result ≡ same_named_lem one.now other.now }
{
    one.name.as_slice() == other.name.as_slice()
}

fn is_among(one: &Index, others: &[Index]) -> bool
    ensures { result ≡ list_any (same_named_lem one.now) others.now }
{
    others.iter().any(|o| same_named(one, o))
}

/// Whether no two of them have one name.
fn are_once(found: &[Index]) -> bool
    ensures { result ≡ no_two same_named_lem found.now }
{
    for at in 0..found.len() {
        if is_among(&found[at], &found[at + 1..]) {
            return false;
        }
    }
    true
}

/// Whether they are such indexes, behind the tables of these books, each once.
fn are_ours(found: &[Index], older: OlderBooks) -> bool
    ensures { IsTrue result ↔ AreOurs older found.now }
{
    are_all_ours(found, older) && are_once(found)
}

/// Whether these are the indexes of the keys of these books, and then some that earlier programs made.
fn are_indexes(found: &[Index], older: OlderBooks) -> bool
    ensures { IsTrue result ↔ AreOlderIndexes older found.now }
{
    let count = older.key_count();
    if found.len() < count {
        return false;
    }
    if !are_keys(&found[..count], older) {
        return false;
    }
    are_ours(&found[count..], older)
}

/// Whether the schema is that of these books: their tables with any of the indexes that earlier programs made, and nothing of
/// another's making.
pub fn is_schema_of(alloc: Global, found: &Schema, older: OlderBooks) -> Result<bool, AllocError>
    ensures { IfOk result (λ yes. IsTrue yes ↔ IsOlderSchema older found.now) }
{
    if !found.views.is_empty() || !are_indexes(found.indexes.as_slice(), older) {
        return Ok(false);
    }
    are_tables(alloc, found.tables.as_slice(), older)
}
