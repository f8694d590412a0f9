//! Rule names as JSON strings.
ghost use Rattle.std.specs.Prelude.{◌≡◌, IfOk, map};
ghost use Rattle.serde_json.specs.Data.{string};
ghost use Rattle.serde_json.specs.Written.{compact_text};

use crate::Names;
use std::alloc::{AllocError, Global};

// The name of each rule as a JSON string, including the quotes.
pub(crate) fn json_names<N: Names>(alloc: Global, names: &N) -> Result<Vec<Vec<u8>>, AllocError>
    ensures { IfOk result (λ list. map (λ name. name.items) list.items
        ≡ map (λ name. compact_text (string name)) (N.names names.now)) }
{
    let mut list = Vec::new(alloc);
    for rule in 0..names.count() {
        list.push(json_name(alloc, names.name(rule))?)?;
    }
    Ok(list)
}

fn json_name(alloc: Global, name: &str) -> Result<Vec<u8>, AllocError>
    ensures { IfOk result (λ text. text.items ≡ compact_text (string name.now)) }
{
    match serde_json::to_string(alloc, &name) {
        Ok(text) => Vec::from_slice(alloc, text.as_bytes()),
        Err(_) => Err(AllocError),
    }
}
