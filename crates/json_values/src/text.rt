//! JSON texts.
ghost use Rattle.std.specs.Prelude.{◌≡◌, IfOk, option_map};
ghost use Rattle.serde_json.specs.View.{view};
ghost use Rattle.json_values.specs.Tree.{tree_of};

use serde_json::{Category, Value};
use std::alloc::{AllocError, Global};

/// The value of a JSON text. `None` for any other bytes, and for a text whose arrays and objects
/// nest deeper than 127. An error means that an allocation failed.
pub fn tree_of(alloc: Global, bytes: &[u8]) -> Result<Option<Value>, AllocError>
    ensures { IfOk result (λ value. option_map view value ≡ tree_of bytes.now) }
{
    match Value::from_slice(alloc, bytes) {
        Ok(value) => Ok(Some(value)),
        Err(error) => match error.classify() {
            Category::Memory => Err(AllocError),
            _ => Ok(None),
        },
    }
}
