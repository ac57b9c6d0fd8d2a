//! Rows that are known by what they were sought by.

ghost use Rattle.std.specs.Prelude.{◌≡◌, ◌+◌, ◌≤◌, ◌∷◌, [], List, Some, None, true, not, ◌&&◌, if◌then◌else◌};
ghost use Rattle.std.specs.BTreeMap.{get};
ghost use Rattle.std.specs.Option.{option_copied};
ghost use Rattle.rows_in_memory.specs.declared.known.TheConstants.{WEIGHT_MAX};
ghost use Rattle.rows_in_memory.specs.KnownRows.{list_weight, map_weight, rows_at, KnowsNone, IsPart, LearnsAt, ForgetsAt, ForgetsBy, ChangesAt, ChangesBy, SetsAt, SetsBy, KnowsAll, placed, with_put, without_row};

use crate::key_list::KeyOf;
use crate::keyed::{ExactKey, KeyedRow};
use crate::known_lists::KnownLists;
use crate::lists::{can_weigh, drop_from, one_row, put_in, weight_if, weight_of};
use row_rules::having::Has;
use std::alloc::Global;
use std::collections::BTreeMap;
use std::marker::PhantomData;

/// The weight above which all is forgotten. Each list of rows weighs 1, and each of its rows 1 more.
pub const WEIGHT_MAX: u64 = 65_536;

/// Where more rows than these change, the lists that they are of are forgotten: each row walks its list.
pub const FEW: usize = 256;

/// Lists of rows, each as it was found, by what they were sought by. That a list is empty is known too.
#[derive(Drop)]
pub struct KnownRows<B: Copy, K: KeyOf<B>, R: Has<B>> {
    pub rows: KnownLists<K, R>,
    /// What is known weighs so much.
    pub weight: u64,
    /// All rows are not to be read at once: they were too many when that was last tried, or what is read is not kept.
    pub too_many: bool,
    pub alloc: Global,
    pub of: PhantomData<B>,
    ghost weighs: { weight ≡ map_weight rows.lists },
}

impl<B: Copy, K: KeyOf<B>, R: Has<B>> KnownRows<B, K, R> {
    /// Nothing is known.
    pub fn new(alloc: Global) -> Self
        ensures { KnowsNone K.cmp result.rows }
    {
        KnownRows {
            rows: KnownLists {
                lists: BTreeMap::new(alloc),
                whole: false,
            },
            weight: 0,
            too_many: false,
            alloc,
            of: PhantomData,
        }
    }

    /// The rows that are sought by this, where they are known.
    pub fn rows_of(&self, by: &B) -> Option<&[R]>
        ensures { option_copied result ≡ rows_at K.cmp self.now.rows (K.key by.now) }
    {
        match self.rows.lists.get(&K::of(by)) {
            Some(rows) => Some(rows.as_slice()),
            None if self.rows.whole => Some(&[]),
            None => None,
        }
    }

    /// Forgets what is known of the rows that are sought by this, and that all rows are known. It takes no memory.
    pub fn forget(&mut self, by: &B)
        ensures { ForgetsAt K.cmp (K.key by.now) self.old.rows self.new.rows }
    {
        self.rows.whole = false;
        if let Some(rows) = self.rows.lists.remove(&K::of(by)) {
            self.weight -= weight_of(&rows);
        }
    }

    /// No rows are sought by this any more: its list goes, and where all rows are known it is known that there are none. It takes
    /// no memory.
    pub fn empty(&mut self, by: &B)
        ensures { ChangesAt K.cmp (K.key by.now) (λ rows. []) self.old.rows self.new.rows }
    {
        if let Some(rows) = self.rows.lists.remove(&K::of(by)) {
            self.weight -= weight_of(&rows);
        }
    }

    /// Forgets what is known of the rows that are sought with one of these. It takes no memory.
    pub fn forget_all(&mut self, rows: &[R])
        ensures { ForgetsBy K.cmp (λ r. K.key (R.of_row r)) rows.now self.old.rows self.new.rows }
    {
        for row in rows {
            self.forget(&row.value());
        }
    }

    // Begins with no lists: nothing is known, or that there are no rows.
    fn begin_anew(&mut self, whole: bool)
        ensures lists { (q : K) → rows_at K.cmp self.new.rows q ≡ (if whole then Some [] else None) }
        ensures weight { self.new.weight ≡ 0 }
    {
        self.rows = KnownLists {
            lists: BTreeMap::new(self.alloc),
            whole,
        };
        self.weight = 0;
    }

    // Forgets all, where too much is known.
    fn make_room(&mut self)
        ensures part { IsPart K.cmp self.old.rows self.new.rows }
        ensures bounded { self.new.weight ≤ WEIGHT_MAX }
    {
        if self.weight > WEIGHT_MAX {
            self.begin_anew(false);
        }
    }

    /// Knows the rows that were found by this, unless there is no memory for them. Where too much is known, all else is forgotten:
    /// what is known after is within the bound but for this list.
    pub fn keep(&mut self, by: &B, rows: Vec<R>)
        ensures learns { LearnsAt K.cmp (K.key by.now) rows.items self.old.rows self.new.rows }
        ensures bounded { self.new.weight ≤ WEIGHT_MAX + list_weight rows }
    {
        self.make_room();
        let more = weight_of(&rows);
        if let Ok(before) = self.rows.lists.insert(K::of(by), rows) {
            self.weight = self.weight + more - weight_if(&before);
        }
    }

    // The row alone is all that is sought by what it has. For want of memory that is not known.
    fn set(&mut self, row: &R)
        ensures { SetsAt K.cmp (K.key (R.of_row row.now)) row.now self.old.rows self.new.rows }
    {
        let by = row.value();
        self.forget(&by);
        if let Ok(own) = one_row::<R>(self.alloc, row) {
            self.keep(&by, own);
        }
    }

    /// Each of these rows alone is all that is sought by what it has, one after another. For want of memory that is not known.
    pub fn set_all(&mut self, rows: &[R])
        ensures { SetsBy K.cmp (λ r. K.key (R.of_row r)) rows.now self.old.rows self.new.rows }
    {
        for row in rows {
            self.set(row);
        }
    }

    // That all rows are known is given up, where they are too many.
    fn bound_whole(&mut self)
        ensures { IsPart K.cmp self.old.rows self.new.rows }
    {
        if self.rows.whole && self.weight > WEIGHT_MAX {
            self.rows.whole = false;
        }
    }
}

impl<B: Copy, K: KeyOf<B> + ExactKey, R: Has<B> + KeyedRow> KnownRows<B, K, R> {
    // Where all rows are known, this one is the first of its list, and there is room for it: it is known. Where there is none,
    // the rows of its list are not known, and so not all.
    fn begin_list(&mut self, key: K, row: &R)
        requires { get K.cmp self.old.rows.lists key ≡ None }
        ensures { (change : List R → List R) → change [] ≡ row.now ∷ [] → ChangesAt K.cmp key change self.old.rows self.new.rows }
    {
        if !self.rows.whole {
            return;
        }
        self.rows.whole = false;
        let Ok(list) = one_row::<R>(self.alloc, row) else {
            return;
        };
        let Some(weight) = self.weight.checked_add(weight_of(&list)) else {
            return;
        };
        if self.rows.lists.insert(key, list).is_ok() {
            self.weight = weight;
            self.rows.whole = true;
        }
    }

    // The row goes behind its list, where that is known, in place of the one that has its key; where it is new there is none.
    // For want of memory the list is forgotten.
    fn place(&mut self, row: &R, is_new: bool)
        ensures { ChangesAt K.cmp (K.key (R.of_row row.now)) (placed R.same_row is_new row.now) self.old.rows self.new.rows }
    {
        let key = K::of(&row.value());
        let Some(rows) = self.rows.lists.get_mut(&key) else {
            self.begin_list(key, row);
            return;
        };
        let before = weight_of(rows);
        let done = put_in::<R>(rows, row, is_new);
        let after = weight_of(rows);
        let others = self.weight - before;
        if can_weigh(&done, others, after) {
            self.weight = others + after;
        } else {
            self.rows.whole = false;
            self.rows.lists.remove(&key);
            self.weight = others;
        }
    }

    /// The row takes the place of the one that has its key, where the rows are known that it is one of. For want of memory they
    /// are forgotten.
    pub fn put(&mut self, row: &R)
        ensures { ChangesAt K.cmp (K.key (R.of_row row.now)) (with_put R.same_row row.now) self.old.rows self.new.rows }
    {
        self.place(row, false);
    }

    /// The row that has the key of this one goes, where the rows are known that it is one of.
    pub fn drop_row(&mut self, row: &R)
        ensures { ChangesAt K.cmp (K.key (R.of_row row.now)) (without_row R.same_row row.now) self.old.rows self.new.rows }
    {
        let key = K::of(&row.value());
        let Some(rows) = self.rows.lists.get_mut(&key) else {
            return;
        };
        let before = weight_of(rows);
        drop_from::<R>(rows, row);
        let after = weight_of(rows);
        self.weight = self.weight - before + after;
    }

    /// Each of these rows takes its place, one after another. Where there are many, the lists that they are of are forgotten.
    pub fn put_all(&mut self, rows: &[R])
        ensures { ChangesBy K.cmp (λ r. K.key (R.of_row r)) (with_put R.same_row) rows.now self.old.rows self.new.rows }
    {
        if rows.len() > FEW {
            self.forget_all(rows);
            return;
        }
        for row in rows {
            self.put(row);
        }
        self.bound_whole();
    }

    /// The rows that have the keys of these go, one after another. Where there are many, the lists that they are of are forgotten.
    pub fn drop_all(&mut self, rows: &[R])
        ensures { ChangesBy K.cmp (λ r. K.key (R.of_row r)) (without_row R.same_row) rows.now self.old.rows self.new.rows }
    {
        if rows.len() > FEW {
            self.forget_all(rows);
            return;
        }
        for row in rows {
            self.drop_row(row);
        }
    }

    // A list without rows goes, where all rows are known: what has no list has none.
    fn drop_list(&mut self, by: &B)
        ensures { IsPart K.cmp self.old.rows self.new.rows }
    {
        let is_none = match self.rows_of(by) {
            Some(rows) => rows.is_empty(),
            None => false,
        };
        if is_none && self.rows.whole {
            self.empty(by);
        }
    }

    // The lists of these rows that have none go, where all rows are known.
    fn drop_lists(&mut self, rows: &[R])
        ensures { IsPart K.cmp self.old.rows self.new.rows }
    {
        for row in rows {
            self.drop_list(&row.value());
        }
    }

    /// As `drop_all`. The lists that this leaves without rows go too, where all rows are known: they are of keys that few rows
    /// come under later.
    pub fn lose_all(&mut self, rows: &[R])
        ensures { ChangesBy K.cmp (λ r. K.key (R.of_row r)) (without_row R.same_row) rows.now self.old.rows self.new.rows }
    {
        self.drop_all(rows);
        self.drop_lists(rows);
    }

    // Each of these rows goes behind its list.
    fn place_all(&mut self, rows: &[R])
        ensures { ChangesBy K.cmp (λ r. K.key (R.of_row r)) (placed R.same_row true) rows.now self.old.rows self.new.rows }
    {
        for row in rows {
            self.place(row, true);
        }
    }

    /// Knows all rows of a table, each once: under each key those that are sought by it, and of any other key that there are
    /// none. Where they are too many, or memory fails, what is known is part of that, or of what was known.
    pub fn keep_all(&mut self, rows: &[R])
        ensures { KnowsAll K.cmp (λ r. K.key (R.of_row r)) rows.now self.old.rows self.new.rows }
    {
        self.too_many = rows.len() as u64 > WEIGHT_MAX;
        if self.too_many {
            return;
        }
        self.begin_anew(true);
        self.place_all(rows);
        self.too_many = self.weight > WEIGHT_MAX;
        self.bound_whole();
    }

    /// From now on each list is sought alone, and never all rows at once.
    pub fn seek_alone(&mut self)
        ensures { self.new.rows ≡ self.old.rows }
    {
        self.too_many = true;
    }

    /// Whether it is worth reading all rows: they are not known, and not too many.
    pub fn wants_all(&self) -> bool
        ensures { result ≡ not self.now.rows.whole && not self.now.too_many }
    {
        !self.rows.whole && !self.too_many
    }
}
