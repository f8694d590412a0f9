//! Serialized values as text.
ghost use Rattle.std.specs.Prelude.{[], IfOk, Some, string_bytes};
ghost use Rattle.serde.specs.Event.{Log};
ghost use Rattle.serde_json.specs.Sent.{IsTextOf};

use serde::Serialize;
use std::alloc::{AllocError, Global};

/// Serializes a value to JSON, into one allocation that grows. Only an allocation can fail. Linear in the text.
pub fn text_of<T: Serialize>(alloc: Global, value: &T) -> Result<String, AllocError>
    ensures { IfOk result (λ text. (log : Log) × T.writes value.now (Some []) log × IsTextOf log (string_bytes text)) }
{
    match serde_json::to_string(alloc, value) {
        Ok(text) => Ok(text),
        Err(_) => Err(AllocError),
    }
}
