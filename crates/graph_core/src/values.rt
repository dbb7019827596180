ghost use Rattle.std.specs.Prelude.{◌≡◌, ◌==◌, [], ◌∷◌, ◌++◌, length, slice_get, Some, IfSome, IfNone, OnOk, OnErr, Contains};
ghost use Rattle.graph_core.specs.Pairs.{Lacks, IsPut, value_of, with_value};

use crate::PropAt;
use indexmap::IndexMap;
use rf_base::Memory;
use std::alloc::Global;
use std::marker::Model;

/// A table from properties to numbers, in the order in which the properties came.
///
/// Contracts see it as the list of its pairs; no property stands there twice.
#[derive(Drop)]
pub struct Values {
    map: IndexMap<PropAt, u64>,
}

impl Model for Values {
    ghost use Rattle.std.specs.Prelude.{List, ℕ};
    ghost use Rattle.std.specs.HashMap.{IsUnique};
    ghost use Rattle.graph_core.specs.Pairs.{Pair};
    ghost use Rattle.graph_core.specs.contracts.place.PropAtPartialEq.TheImpl.{eq-value};

    ghost Value = { List Pair };

    ghost view = { λ values. values.map.entries };

    ghost invariant = { λ values. IsUnique eq-value.it values.map };
}

impl Values {
    pub fn new(alloc: Global) -> Values
        ensures { result ≡ [] }
    {
        Values {
            map: IndexMap::new(alloc),
        }
    }

    /// Gives the property the value, in place of what it had.
    pub fn put(&mut self, at: PropAt, value: u64) -> Result<(), Memory>
        ensures ok { OnOk result (self.new ≡ with_value self.old at value) }
        ensures put { OnOk result (IsPut self.old self.new at value) }
        ensures last { Lacks self.old at → OnOk result (self.new ≡ self.old ++ (at, value) ∷ []) }
        ensures err { OnErr result (self.new ≡ self.old) }
    {
        self.map.insert(at, value)?;
        Ok(())
    }

    /// The value of the property.
    pub fn get(&self, at: PropAt) -> Option<u64>
        ensures value { result ≡ value_of self.now at }
        ensures held { IfSome result (λ value. Contains self.now (at, value)) }
        ensures none { IfNone result (Lacks self.now at) }
    {
        self.map.get(&at).copied()
    }

    /// How many properties have a value.
    pub fn len(&self) -> usize
        ensures { result ≡ length self.now }
    {
        self.map.len()
    }

    pub fn is_empty(&self) -> bool
        ensures { result ≡ (length self.now == 0) }
    {
        self.map.is_empty()
    }

    /// The pair at the place, counted from 0.
    pub fn pair(&self, place: usize) -> Option<(PropAt, u64)>
        ensures { result ≡ slice_get self.now place }
    {
        let (at, value) = self.map.get_index(place)?;
        Some((*at, *value))
    }
}
