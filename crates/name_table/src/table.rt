// Names in first-seen order, each with its number.
ghost use Rattle.std.specs.Prelude.{◌≡◌, ◌↔◌, ◌≤◌, ◌<◌, ◌+◌, ◌-◌, ◌++◌, ◌∷◌, [], length, slice_get, IsTrue, IfOk, OnErr};
ghost use Rattle.std.specs.List.{IsDistinct};
ghost use Rattle.problem_definitions.specs.Names.{same};
ghost use Rattle.name_table.specs.Numbers.{number_of, IsTaken};

use crate::name::Name;
use indexmap::IndexSet;
use std::alloc::{AllocFailed, Global};
use std::marker::Model;
use thiserror::Error;

/// Why a name was not added.
#[derive(Clone, Copy, Debug, PartialEq, Eq, Error)]
pub enum AddStop {
    /// The name is there already, with this number.
    #[error("the name is there already as number {0}")]
    Taken(u32),
    #[error("out of memory")]
    NoMemory,
}

impl<T: Drop> From<AllocFailed<T>> for AddStop {
    ghost use Rattle.name_table.specs.declared.table.AddStop.TheVariants.{NoMemory};

    ghost from_gives = { λ _ stop. stop ≡ NoMemory };

    fn from(_: AllocFailed<T>) -> Self {
        AddStop::NoMemory
    }
}

/// Different names in first-seen order, numbered from 1.
#[derive(Drop)]
pub struct NameTable {
    names: IndexSet<Name>,
}

impl Model for NameTable {
    ghost use Rattle.std.specs.Prelude.{List, length, ◌≤◌};
    ghost use Rattle.problem_definitions.specs.Names.{Name as Text};

    ghost Value = { List Text };

    ghost view = { λ table. table.names.keys };

    ghost invariant = { λ table. length table.names.keys ≤ 4294967295 };
}

impl NameTable {
    /// A table without names, which grows in this memory.
    pub fn new(alloc: Global) -> NameTable
        ensures { result ≡ [] }
    {
        NameTable {
            names: IndexSet::new(alloc),
        }
    }

    /// How many names there are.
    pub fn len(&self) -> u32
        ensures count { result ≡ length self.now }
        ensures distinct { IsDistinct same self.now }
    {
        self.names.len() as u32
    }

    /// Whether there is no name.
    pub fn is_empty(&self) -> bool
        ensures { IsTrue result ↔ (length self.now ≡ 0) }
    {
        self.names.is_empty()
    }

    /// Puts the name at the end and gives its number. A refused call leaves the table as it was.
    pub fn add(&mut self, name: Name) -> Result<u32, AddStop>
        requires room { length self.old < 4294967295 }
        ensures added { IfOk result (λ number. (self.new ≡ self.old ++ name ∷ []) ×
            (number ≡ length self.new)) }
        ensures taken { IsTaken result (number_of name self.old) }
        ensures refused { OnErr result (self.new ≡ self.old) }
    {
        let (index, is_new) = self.names.insert_full(name)?;
        let number = index as u32 + 1;
        if !is_new {
            return Err(AddStop::Taken(number));
        }
        Ok(number)
    }

    /// The number of a name.
    pub fn find(&self, name: &Name) -> Option<u32>
        ensures { result ≡ number_of name.now self.now }
    {
        let index = self.names.get_index_of(name)?;
        Some(index as u32 + 1)
    }

    /// The name with this number.
    pub fn name_at(&self, k: u32) -> Name
        requires first { 1 ≤ k }
        requires last { k ≤ length self.now }
        ensures { slice_get self.now (k - 1) ≡ Some result }
    {
        self.names.as_slice()[k as usize - 1]
    }
}
