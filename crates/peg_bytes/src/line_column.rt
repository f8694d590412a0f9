//! Line and column of an offset in a file.
ghost use Rattle.std.specs.Prelude.{◌≡◌, ◌≤◌, length};
ghost use Rattle.peg_bytes.specs.EndsLine.{ends_line};
ghost use Rattle.peg_bytes.specs.Place.{max_offset, line_at, column_at};

/// A position in a file: line and column, both from 1. Columns count bytes.
#[derive(Clone, Copy, Debug, PartialEq, Eq)]
pub struct LineColumn {
    pub line: u32,
    pub column: u32,
}

/// Returns the line and column of byte offset `at` in `file`. A line ends with CR LF, LF or CR. An offset between CR
/// and LF is still on the line that they end. Linear in `at`.
pub fn place(file: &[u8], at: u32) -> LineColumn
    requires in_file { at ≤ length file.now }
    requires small { at ≤ max_offset }
    ensures line { result.line ≡ line_at file.now at }
    ensures column { result.column ≡ column_at file.now at }
{
    let mut line = 1;
    let mut start = 0;
    for next in 0..at {
        if ends_line(&file[next as usize..]) {
            line += 1;
            start = next + 1;
        }
    }
    LineColumn {
        line,
        column: at - start + 1,
    }
}

// Whether the first byte completes a line end: LF, or CR not followed by LF.
fn ends_line(bytes: &[u8]) -> bool
    ensures { result ≡ ends_line bytes.now }
{
    match bytes {
        [b'\r', b'\n', ..] => false,
        [b'\r' | b'\n', ..] => true,
        _ => false,
    }
}
