//! Objects, member by member.
ghost use Rattle.std.specs.Prelude.{◌≡◌, IfOk, OnOk};
ghost use Rattle.rf_script_types.specs.Names.{field_name};
ghost use Rattle.rf_script_types.specs.Text.{whole, word};
ghost use Rattle.rf_script_writer.specs.Object.{members};
ghost use Rattle.serde_json.specs.Data.{no_members, put, object, boolean};
ghost use Rattle.serde_json.specs.View.{view};

use rf_base::Memory;
use rf_script_types::Field;
use serde_json::{Map, Value, put};
use std::alloc::Global;

/// An object that is being written; its members stand in the order of the bytes of their keys.
#[derive(Debug, Drop)]
pub(crate) struct Object {
    members: Map<String, Value>,
}

impl Object {
    pub(crate) fn new(alloc: Global) -> Object
        ensures { members result ≡ no_members }
    {
        Object {
            members: Map::new(alloc),
        }
    }

    /// Writes the field.
    pub(crate) fn put(&mut self, alloc: Global, field: Field, value: Value) -> Result<(), Memory>
        ensures { OnOk result (members self.new ≡ put (field_name field) (view value) (members self.old)) }
    {
        match put(&mut self.members, alloc, field.name(), value) {
            Ok(()) => Ok(()),
            Err(_) => Err(Memory),
        }
    }

    pub(crate) fn number(&mut self, alloc: Global, field: Field, n: u64) -> Result<(), Memory>
        ensures { OnOk result (members self.new ≡ put (field_name field) (whole n) (members self.old)) }
    {
        self.put(alloc, field, Value::from(n))
    }

    pub(crate) fn flag(&mut self, alloc: Global, field: Field, flag: bool) -> Result<(), Memory>
        ensures { OnOk result (members self.new ≡ put (field_name field) (boolean flag) (members self.old)) }
    {
        self.put(alloc, field, Value::from(flag))
    }

    pub(crate) fn word(&mut self, alloc: Global, field: Field, text: &str) -> Result<(), Memory>
        ensures { OnOk result (members self.new ≡ put (field_name field) (word text.now) (members self.old)) }
    {
        let value = Value::try_from_str(alloc, text)?;
        self.put(alloc, field, value)
    }

    pub(crate) fn into_value(self) -> Value
        ensures { view result ≡ object (members self) }
    {
        let Object { members } = self;
        Value::from(members)
    }
}
