//! The JSON text of one node.
ghost use Rattle.std.specs.Prelude.{◌+◌, ◌<◌, ◌≤◌, length};
ghost use Rattle.serde_json.specs.Written.{comma_if};
ghost use Rattle.peg_tree.specs.Write.{Writes};
ghost use Rattle.peg_tree.specs.RowText.{row_text};

use crate::TreeNode;
use crate::write::{write_byte, write_bytes, write_number};

// An upper bound in bytes on a node's JSON text and the comma before it, not counting the rule's name.
pub(crate) const MAX_ROW_TEXT: usize = 68;

// Writes a comma at `at` if `later` is true, that is, after the first node. Returns the end of the written bytes.
#[inline(always)]
pub(crate) fn write_comma(later: bool, buffer: &mut [u8], at: usize) -> usize
    requires { at < length buffer.old }
    ensures puts { Writes buffer.old at (comma_if later) buffer.new result }
    ensures limit { result ≤ at + 1 }
{
    if later {
        write_byte(b',', buffer, at)
    } else {
        at
    }
}

// Writes the JSON text of a node at `at`. `name` is the rule's name as JSON. Returns the end of the written bytes.
#[inline(always)]
pub(crate) fn write_row(
    level: usize,
    name: &[u8],
    node: TreeNode,
    buffer: &mut [u8],
    at: usize,
) -> usize
    requires { at + length name.now + 67 ≤ length buffer.old }
    ensures puts { Writes buffer.old at (row_text level name.now node.span.start node.span.end) buffer.new result }
    ensures within { result ≤ length buffer.new }
{
    let at = write_byte(b'[', buffer, at);
    let at = write_number(level as u64, buffer, at);
    let at = write_byte(b',', buffer, at);
    let at = write_bytes(name, buffer, at);
    let at = write_byte(b',', buffer, at);
    let at = write_number(node.span.start as u64, buffer, at);
    let at = write_byte(b',', buffer, at);
    let at = write_number(node.span.end as u64, buffer, at);
    write_byte(b']', buffer, at)
}
