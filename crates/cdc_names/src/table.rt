ghost use Rattle.std.specs.Prelude.{◌≡◌, [], ◌∷◌, ◌++◌, None, OnOk};
ghost use Rattle.cdc_names.specs.Table.{found, added, placed};

use indexmap::IndexMap;
use std::alloc::{AllocError, Global};
use std::marker::Model;

/// Names in the order in which they were added, each with a value.
#[derive(Drop)]
pub struct Table<'a, V> {
    map: IndexMap<&'a [u8], V>,
}

impl<'a, V> Model for Table<'a, V> {
    ghost use Rattle.std.specs.Prelude.{ℕ, List};
    ghost use Rattle.cdc_names.specs.Entries.{named};

    ghost Value = { List (List ℕ × V) };

    ghost view = { λ t. named t.map.entries };
}

impl<'a, V: Copy + Drop> Table<'a, V> {
    /// A table without names.
    pub fn new(alloc: Global) -> Table<'a, V>
        ensures { result ≡ [] }
    {
        Table {
            map: IndexMap::new(alloc),
        }
    }

    /// The value of a name.
    pub fn get(&self, name: &[u8]) -> Option<V>
        ensures { result ≡ found name.now self.now }
    {
        self.map.get(&name).copied()
    }

    /// Adds a name unless it is there.
    pub fn add(&mut self, name: &'a [u8], value: V) -> Result<(), AllocError>
        ensures { OnOk result (self.new ≡ added name.now value self.old) }
    {
        match self.get(name) {
            Some(_) => Ok(()),
            None => self.set(name, value),
        }
    }

    /// Gives a name this value, whether or not it is there.
    pub fn set(&mut self, name: &'a [u8], value: V) -> Result<(), AllocError>
        ensures { OnOk result (self.new ≡ placed name.now value self.old) }
    {
        self.map.insert(name, value)?;
        Ok(())
    }
}
