//! The lines of the records of a stream.
ghost use Rattle.std.specs.Prelude.{◌≡◌, ◌<◌, ◌++◌, OnOk, codes, length};
ghost use Rattle.std.specs.Fmt.{decimal};
ghost use Rattle.peg_json.specs.Lines.{line_bytes};
ghost use Rattle.peg_json.specs.RecordLines.{record_line};
ghost use Rattle.peg_tree.specs.FlatTreeLeft.{text_left};

use crate::line::Line;
use itoa::Buffer;
use peg_tree::FlatTreeWriter;
use std::alloc::AllocError;

/// Appends the line of the record with this number: the line of its reply, with the number as the first member.
pub fn push_record_line(bytes: &mut Vec<u8>, number: u64, line: Line) -> Result<(), AllocError>
    ensures { OnOk result (bytes.new.items ≡ bytes.old.items ++ record_line number (line_bytes line)) }
{
    push_number(bytes, number)?;
    let at = bytes.len();
    push_line(bytes, line)?;
    bytes[at] = b',';
    Ok(())
}

// Appends the start of a record's line, up to its number.
fn push_number(bytes: &mut Vec<u8>, number: u64) -> Result<(), AllocError>
    ensures { OnOk result (bytes.new.items ≡ bytes.old.items ++ codes "{\"record\":" ++ decimal number) }
{
    let mut buffer = Buffer::new();
    bytes.extend_from_slice(b"{\"record\":")?;
    bytes.extend_from_slice(buffer.format(number).as_bytes())
}

// Appends a line.
fn push_line(bytes: &mut Vec<u8>, line: Line) -> Result<(), AllocError>
    ensures line { OnOk result (bytes.new.items ≡ bytes.old.items ++ line_bytes line) }
    ensures some { OnOk result (length bytes.old.items < length bytes.new.items) }
{
    let Line {
        head,
        rows,
        tail,
        ..
    } = line;
    bytes.extend_from_slice(head.as_bytes())?;
    if let Some(rows) = rows {
        push_rows(bytes, rows)?;
    }
    bytes.extend_from_slice(tail.bytes())
}

// Appends the nodes of a line.
fn push_rows(bytes: &mut Vec<u8>, mut rows: FlatTreeWriter) -> Result<(), AllocError>
    ensures { OnOk result (bytes.new.items ≡ bytes.old.items ++ text_left rows) }
{
    rows.fill();
    'pieces: while !rows.piece().is_empty() {
        bytes.extend_from_slice(rows.piece())?;
        rows.fill();
    }
    Ok(())
}
