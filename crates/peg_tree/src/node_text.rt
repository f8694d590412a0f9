//! The bytes of the text that a node spans, for a serializer.
ghost use Rattle.std.specs.Prelude.{◌≡◌, OnOk, codes};
ghost use Rattle.serde_json.specs.Data.{no_members, member, object, string};
ghost use Rattle.serde_json.specs.Events.{SendsValue};
ghost use Rattle.peg_tree.specs.TextJson.{bytes_between, bytes_data};

use crate::member::serialize_member;
use peg_bytes::Span;
use serde::Serializer;
use std::alloc::Global;

// Returns the bytes of the text within the span.
pub(crate) fn bytes_between(text: &[u8], span: Span) -> &[u8]
    ensures { result.now ≡ bytes_between text.now span.start span.end }
{
    let end = text.len().min(span.end as usize);
    let start = end.min(span.start as usize);
    &text[start..end]
}

// Serializes bytes as a string, or as an object with their hexadecimal digits if they are not UTF-8.
pub(crate) fn serialize_bytes<S: Serializer>(
    alloc: Global,
    bytes: &[u8],
    out: &mut S,
) -> Result<(), S::Error>
    ensures { OnOk result (SendsValue (bytes_data bytes.now) (S.written out.old) (S.written out.new)) }
{
    match str::from_utf8(bytes) {
        Ok(text) => out.str(text),
        Err(_) => match hex::encode(alloc, bytes) {
            Ok(digits) => serialize_digits(digits.as_str(), out),
            Err(_) => Err(out.custom("out of memory")),
        },
    }
}

// Serializes the object of bytes that are not UTF-8, of which these are the hexadecimal digits.
fn serialize_digits<S: Serializer>(digits: &str, out: &mut S) -> Result<(), S::Error>
    ensures { OnOk result (SendsValue (object (member (codes "bytes") (string digits.now) no_members))
        (S.written out.old) (S.written out.new)) }
{
    out.begin_map(Some(1))?;
    serialize_member("bytes", &digits, out)?;
    out.end_map()
}
