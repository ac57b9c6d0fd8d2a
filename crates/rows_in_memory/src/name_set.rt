//! Names in the order in which they came, each once.

ghost use Rattle.std.specs.Prelude.{◌≡◌, true, [], OnOk, OnErr};
ghost use Rattle.rows_in_memory.specs.OpenLines.{are_apart, with_order, without_order};

use crate::name_list::NameList;
use std::alloc::{AllocError, Global};
use std::marker::Model;
use values::{Name, TextKey};

/// Names of orders. Whether a name is among them its key tells, without a walk.
#[derive(Drop)]
pub struct NameSet {
    list: NameList,
}

impl Model for NameSet {
    ghost use Rattle.std.specs.Prelude.{◌≡◌, true, List, ℕ};
    ghost use Rattle.rows_in_memory.specs.NameOrder.{AreNamesKeyed};
    ghost use Rattle.rows_in_memory.specs.OpenLines.{are_apart};

    ghost Value = { List (List ℕ) };

    ghost view = { λ s. s.list.values.items };

    ghost invariant = { λ s. AreNamesKeyed s.list.keys s.list.values.items × (are_apart s.list.values.items ≡ true) };
}

impl NameSet {
    /// No names.
    pub fn new(alloc: Global) -> Self
        ensures { result ≡ [] }
    {
        NameSet {
            list: NameList::new(alloc),
        }
    }

    /// The names.
    pub fn as_slice(&self) -> &[Name]
        ensures names { result.now ≡ self.now }
        ensures once { are_apart result.now ≡ true }
    {
        self.list.values.as_slice()
    }

    /// One name more, if it is new; for want of memory the names stay as they were.
    pub fn add(&mut self, name: Name) -> Result<(), AllocError>
        ensures added { OnOk result (self.new ≡ with_order name self.old) }
        ensures refused { OnErr result (self.new ≡ self.old) }
    {
        self.list.add(name)
    }

    /// One name fewer. It takes no memory.
    pub fn remove(&mut self, name: &Name)
        ensures { self.new ≡ without_order name.now self.old }
    {
        if self.list.keys.remove(&TextKey::of_name(name)) {
            self.list.values.retain(|other| *name != *other);
        }
    }
}
