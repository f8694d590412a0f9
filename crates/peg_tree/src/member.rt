//! Serializing members of JSON objects.
ghost use Rattle.std.specs.Prelude.{OnOk};
ghost use Rattle.peg_tree.specs.Events.{SendsMember};

use serde::{Serialize, Serializer};

/// Serializes a member of an object: the key, then the value.
pub fn serialize_member<T: Serialize, S: Serializer>(
    key: &str,
    value: &T,
    out: &mut S,
) -> Result<(), S::Error>
    ensures { OnOk result (SendsMember key.now (T.writes value.now) (S.written out.old) (S.written out.new)) }
{
    out.key(key)?;
    value.serialize(out)
}
