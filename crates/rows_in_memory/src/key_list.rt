//! What rows have, each once, however many rows have it.

ghost use Rattle.std.specs.Prelude.{◌≡◌, [], ◌∷◌, OnOk, OnErr, IfOk};
ghost use Rattle.rows_in_memory.specs.Keys.{with_key, with_keys, AreKeyed};

use row_rules::having::Has;
use std::alloc::{AllocError, Global};
use std::collections::BTreeSet;

/// A key of values, in an order: values are the same exactly if their keys are.
pub trait KeyOf<T>: Ord + Copy {
    ghost use Rattle.std.specs.Prelude.{◌≡◌, Bool, true};
    ghost use Rattle.std.specs.Ordering.{is_eq};

    ghost same: { T → T → Bool };

    ghost key: { T → Self };

    fn of(value: &T) -> Self
        ensures { result ≡ key value.now };

    ghost told: { (x y : T) → is_eq (Self.cmp (key y) (key x)) ≡ same x y };

    ghost exact: { (x y : T) → same x y ≡ true → x ≡ y };
}

/// Values in the order in which they came, and their keys, which tell whether a value is among them.
#[derive(Drop)]
pub struct KeyList<T: Copy, K: KeyOf<T>> {
    pub values: Vec<T>,
    pub keys: BTreeSet<K>,
}

impl<T: Copy, K: KeyOf<T>> KeyList<T, K> {
    /// No values.
    pub fn new(alloc: Global) -> Self
        ensures none { result.values.items ≡ [] }
        ensures keyed { AreKeyed K.cmp K.key K.same result.keys result.values.items }
    {
        KeyList {
            values: Vec::new(alloc),
            keys: BTreeSet::new(alloc),
        }
    }

    /// One value.
    pub fn one(alloc: Global, value: T) -> Result<Self, AllocError>
        ensures value { IfOk result (λ list. list.values.items ≡ value ∷ []) }
        ensures keyed { IfOk result (λ list. AreKeyed K.cmp K.key K.same list.keys list.values.items) }
    {
        let mut list = KeyList::new(alloc);
        list.add(value)?;
        Ok(list)
    }

    /// One value more, if it is new; for want of memory the values stay as they were.
    pub fn add(&mut self, value: T) -> Result<(), AllocError>
        ensures added { OnOk result (AreKeyed K.cmp K.key K.same self.old.keys self.old.values.items → self.new.values.items ≡ with_key K.same value self.old.values.items) }
        ensures refused { OnErr result (self.new.values.items ≡ self.old.values.items) }
        ensures keyed { AreKeyed K.cmp K.key K.same self.old.keys self.old.values.items → AreKeyed K.cmp K.key K.same self.new.keys self.new.values.items }
    {
        self.values.reserve(1)?;
        let is_new = self.keys.insert(K::of(&value))?;
        if is_new {
            self.values.push_reserved(value);
        }
        Ok(())
    }

    /// The values of the rows, each once.
    pub fn add_all<R: Has<T>>(&mut self, rows: &[R]) -> Result<(), AllocError>
        ensures added { OnOk result (AreKeyed K.cmp K.key K.same self.old.keys self.old.values.items → self.new.values.items ≡ with_keys K.same R.of_row rows.now self.old.values.items) }
        ensures keyed { OnOk result (AreKeyed K.cmp K.key K.same self.old.keys self.old.values.items → AreKeyed K.cmp K.key K.same self.new.keys self.new.values.items) }
    {
        for row in rows {
            self.add(row.value())?;
        }
        Ok(())
    }

    /// The values, without their keys.
    pub fn into_values(self) -> Vec<T>
        ensures { result.items ≡ self.values.items }
    {
        let KeyList { values, keys } = self;
        drop(keys);
        values
    }
}
