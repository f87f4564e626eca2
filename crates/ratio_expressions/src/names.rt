//! `Names`: values by name.
ghost use Rattle.std.specs.Prelude.{◌≡◌, ℕ, List, None, Some, IsErr, OnErr, OnOk, MatchOption, if◌then◌else◌};
ghost use Rattle.std.specs.Str.{bytes_eq};
ghost use Rattle.ratio_expressions.specs.Bound.{named};
ghost use Rattle.ratio_expressions.specs.Worths.{worth};

use crate::value::Value;
use std::alloc::{AllocError, Global};
use std::collections::BTreeMap;

/// Values by name. A contract sees them as what each name is worth, by `named`.
#[derive(Drop)]
pub struct Names {
    values: BTreeMap<Vec<u8>, Value>,
}

impl Names {
    /// No names.
    pub fn new(alloc: Global) -> Names
        ensures { (name : List ℕ) → named result name ≡ None }
    {
        Names {
            values: BTreeMap::new(alloc),
        }
    }

    /// The value with this name, or `None` if nothing has it.
    pub fn get(&self, name: &[u8]) -> Option<&Value>
        ensures { MatchOption result (named self.now name.now ≡ None) (λ value. named self.now name.now ≡ Some (worth value.now)) }
    {
        self.values.get(name)
    }

    /// Gives a value a name, in place of the value that has it. If an allocation fails, all names stay as they are.
    pub fn set(&mut self, alloc: Global, name: &[u8], value: Value) -> Result<(), AllocError>
        ensures set { OnOk result ((other : List ℕ) → named self.new other ≡ (if bytes_eq name.now other then Some (worth value) else named self.old other)) }
        ensures kept { OnErr result ((other : List ℕ) → named self.new other ≡ named self.old other) }
        // Only a new name takes memory.
        ensures memory { IsErr result → named self.old name.now ≡ None }
    {
        if let Some(place) = self.values.get_mut(name) {
            *place = value;
            return Ok(());
        }
        let key = Vec::from_slice(alloc, name)?;
        self.values.insert(key, value)?;
        Ok(())
    }
}
