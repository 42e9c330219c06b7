//! What has a JSON value.

ghost use Rattle.std.specs.Prelude.{◌≡◌, IfOk, map};
ghost use Rattle.serde_json.specs.Data.{array};
ghost use Rattle.serde_json.specs.View.{items_of, view};

use serde_json::Value;
use std::alloc::{AllocError, Global};

/// What has a JSON value.
pub(crate) trait JsonValue {
    ghost use Rattle.serde_json.specs.Data.{Data};

    ghost json: { Self → Data };

    /// The value. The only error is a failed allocation.
    fn json_value(&self, alloc: Global) -> Result<Value, AllocError>
        ensures { IfOk result (λ value. view value ≡ json self.now) };
}

/// The values of some items, as an array.
pub(crate) fn array_of<T: JsonValue>(alloc: Global, items: &[T]) -> Result<Value, AllocError>
    ensures { IfOk result (λ value. view value ≡ array (items_of (map T.json items.now))) }
{
    let mut values = Vec::new(alloc);
    for item in items {
        let value = item.json_value(alloc)?;
        values.push(value)?;
    }
    Ok(Value::Array(values))
}
