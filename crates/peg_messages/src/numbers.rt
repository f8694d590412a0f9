//! Numbers and places of a message.
ghost use Rattle.std.specs.Prelude.{◌≡◌, ◌≤◌, ◌++◌, OnOk, length};
ghost use Rattle.std.specs.Fmt.{decimal};
ghost use Rattle.peg_bytes.specs.Place.{max_offset};
ghost use Rattle.peg_messages.specs.Places.{place_text};

use crate::lines::TextLines;
use itoa::Buffer;
use std::alloc::AllocError;

/// Writes a number.
pub(crate) fn write_number(number: u128, out: &mut Vec<u8>) -> Result<(), AllocError>
    ensures { OnOk result (out.new.items ≡ out.old.items ++ decimal number) }
{
    let mut buffer = Buffer::new();
    out.extend_from_slice(buffer.format(number).as_bytes())
}

/// Writes the name of a file, a line and a column, for an offset of a text.
pub(crate) fn write_place(
    name: &[u8],
    lines: TextLines,
    text: &[u8],
    at: u32,
    out: &mut Vec<u8>,
) -> Result<(), AllocError>
    requires in_text { at ≤ length text.now }
    requires small { at ≤ max_offset }
    ensures { OnOk result (out.new.items ≡ out.old.items ++ place_text name.now lines text.now at) }
{
    let line = lines.line(text, at);
    let column = lines.column(text, at);
    out.extend_from_slice(name)?;
    out.extend_from_slice(b":")?;
    write_number(line, out)?;
    out.extend_from_slice(b":")?;
    write_number(u128::from(column), out)?;
    out.extend_from_slice(b": ")
}
