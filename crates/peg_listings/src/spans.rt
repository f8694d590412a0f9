//! Spans, for a serializer.
ghost use Rattle.std.specs.Prelude.{OnOk};
ghost use Rattle.serde_json.specs.Events.{SendsValue};
ghost use Rattle.peg_bytes.specs.Extent.{extent};
ghost use Rattle.peg_listings.specs.Extents.{extent_data};

use peg_bytes::Span;
use serde::{Serialize, Serializer};

/// Serializes a span as the pair of its start and its end.
pub fn serialize_span<S: Serializer>(span: Span, out: &mut S) -> Result<(), S::Error>
    ensures { OnOk result (SendsValue (extent_data (extent span)) (S.written out.old) (S.written out.new)) }
{
    out.begin_seq(Some(2))?;
    span.start.serialize(out)?;
    span.end.serialize(out)?;
    out.end_seq()
}
