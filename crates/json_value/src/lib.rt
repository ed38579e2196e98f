//! The JSON value that the bytes of a file are.
#![tactic(auto)]

ghost use Rattle.std.specs.Prelude.{◌≡◌, IfOk};
ghost use Rattle.std.specs.Option.{option_map};
ghost use Rattle.serde_json.specs.View.{view};
ghost use Rattle.json_value.specs.Bytes.{json_of};

use jam_base::OutOfMemory;
use serde_json::Value;
use std::alloc::Global;

/// The JSON value that the bytes are (RFC 8259). None where they are none: not UTF-8, no JSON, deeper
/// than 127 levels, or with a number beyond the floats of 64 bits. Of equal keys the last counts.
pub fn read_value(alloc: Global, bytes: &[u8]) -> Result<Option<Value>, OutOfMemory>
    ensures { IfOk result (λ found. option_map view found ≡ json_of bytes.now) }
{
    match Value::from_slice(alloc, bytes) {
        Ok(value) => Ok(Some(value)),
        Err(error) if error.is_memory() => Err(OutOfMemory),
        Err(_) => Ok(None),
    }
}
