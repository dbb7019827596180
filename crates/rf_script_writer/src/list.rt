//! Lists, item by item.
ghost use Rattle.std.specs.Prelude.{◌≡◌, map, IfOk, [], ◌∷◌};
ghost use Rattle.rf_script_types.specs.Text.{list, whole};
ghost use Rattle.serde_json.specs.View.{view};

use rf_base::Memory;
use serde_json::Value;
use std::alloc::Global;

/// What stands for a JSON value.
pub(crate) trait Written {
    ghost use Rattle.serde_json.specs.Data.{Data};

    ghost written: { Self → Data };

    fn value(&self, alloc: Global) -> Result<Value, Memory>
        ensures { IfOk result (λ v. view v ≡ written self.now) };
}

/// The array of the items.
pub(crate) fn list_value<T: Written>(alloc: Global, items: &[T]) -> Result<Value, Memory>
    ensures { IfOk result (λ v. view v ≡ list T.written items.now) }
{
    let mut values = Vec::with_capacity(alloc, items.len())?;
    for item in items {
        values.push(item.value(alloc)?)?;
    }
    Ok(Value::from(values))
}

/// The array of two numbers.
pub(crate) fn pair_value(alloc: Global, first: u64, second: u64) -> Result<Value, Memory>
    ensures { IfOk result (λ v. view v ≡ list whole (first ∷ second ∷ [])) }
{
    let mut values = Vec::with_capacity(alloc, 2)?;
    values.push(Value::from(first))?;
    values.push(Value::from(second))?;
    Ok(Value::from(values))
}
