//! Bytes as hexadecimal digits.
ghost use Rattle.std.specs.Prelude.{◌≡◌, IfOk};
ghost use Rattle.serde_json.specs.View.{view};
ghost use Rattle.json_parts.specs.Written.{hex_json};

use serde_json::Value;
use std::alloc::{AllocError, Global};

/// The bytes as hexadecimal digits in lower case.
pub fn hex_value(alloc: Global, bytes: &[u8]) -> Result<Value, AllocError>
    ensures { IfOk result (λ v. view v ≡ hex_json bytes.now) }
{
    Ok(Value::String(hex::encode(alloc, bytes)?))
}
