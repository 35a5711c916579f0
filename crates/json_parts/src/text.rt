//! JSON texts.
ghost use Rattle.std.specs.Prelude.{◌≡◌, Some, None, true, false, IfOk, IfErr};
ghost use Rattle.serde_json.specs.Read.{read};
ghost use Rattle.serde_json.specs.View.{view};
ghost use Rattle.json_parts.specs.Faults.{is_json_memory};
ghost use Rattle.json_parts.specs.Texts.{is_of_text};

use crate::fault::JsonFault;
use serde_json::Value;
use std::alloc::Global;

/// The value that the JSON text holds.
pub fn value_of_text(alloc: Global, text: &str) -> Result<Value, JsonFault>
    ensures ok { IfOk result (λ value. read text.now ≡ Some (view value)) }
    ensures err { IfErr result (λ fault. is_of_text fault ≡ true) }
    ensures no_json { IfErr result (λ fault. is_json_memory fault ≡ false
        → read text.now ≡ None) }
{
    match Value::from_str(alloc, text) {
        Ok(value) => Ok(value),
        Err(error) if error.is_memory() => Err(JsonFault::OutOfMemory),
        Err(error) => Err(JsonFault::NoJson {
            line: error.line(),
            column: error.column(),
        }),
    }
}
