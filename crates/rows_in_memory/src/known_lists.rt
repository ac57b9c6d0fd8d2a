//! Lists of rows by keys.

use std::collections::BTreeMap;

/// Lists of rows by keys. Where they have all rows of a table, those of a key without a list are known too: there are none.
#[derive(Drop)]
pub struct KnownLists<K: Ord, R> {
    pub lists: BTreeMap<K, Vec<R>>,
    /// Whether they have all rows of their table.
    pub whole: bool,
}
