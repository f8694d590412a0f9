//! The lines of a text, and where a position is in them.
ghost use Rattle.std.specs.Prelude.{◌≡◌, ◌+◌, ◌≤◌, length};
ghost use Rattle.std.specs.List.{count_by, suffix_len};
ghost use Rattle.peg_bytes.specs.Place.{max_offset};
ghost use Rattle.peg_messages.specs.Places.{is_line_feed, is_other};

use peg_bytes::place;

/// The lines of a text: what ends a line, and the number of the first one.
#[derive(Clone, Copy, Debug, PartialEq, Eq)]
pub enum TextLines {
    /// The lines of a whole file. The first is line 1, and CR LF, LF or CR ends a line.
    File,
    /// The lines of a part of a file, such as a record, before which the file has this many line feeds. LF alone ends a
    /// line.
    Part { line_feeds: u64 },
}

impl TextLines {
    ghost use Rattle.peg_messages.specs.Places.{column_in, line_in};

    /// Returns the line of an offset of a text, in its file. Takes time linear in the offset.
    pub(crate) fn line(self, text: &[u8], at: u32) -> u128
        requires in_text { at ≤ length text.now }
        requires small { at ≤ max_offset }
        ensures { result ≡ line_in self text.now at }
    {
        match self {
            TextLines::File => u128::from(place(text, at).line),
            TextLines::Part { line_feeds } => {
                u128::from(line_feeds) + line_feeds_in(&text[..at as usize]) as u128 + 1
            }
        }
    }

    /// Returns the column of an offset of a text, in bytes from 1. Takes time linear in the offset.
    pub(crate) fn column(self, text: &[u8], at: u32) -> u32
        requires in_text { at ≤ length text.now }
        requires small { at ≤ max_offset }
        ensures value { result ≡ column_in self text.now at }
        ensures within { result ≤ at + 1 }
        ensures some { 1 ≤ result }
    {
        match self {
            TextLines::File => place(text, at).column,
            TextLines::Part { .. } => 1 + bytes_after_line_feed(&text[..at as usize]) as u32,
        }
    }
}

// Returns the number of line feeds in some bytes.
fn line_feeds_in(bytes: &[u8]) -> usize
    ensures value { result ≡ count_by is_line_feed bytes.now }
    ensures within { result ≤ length bytes.now }
{
    bytes.iter().filter(|byte| **byte == b'\n').count()
}

// Returns the number of bytes after the last line feed.
fn bytes_after_line_feed(bytes: &[u8]) -> usize
    ensures value { result ≡ suffix_len is_other bytes.now }
    ensures within { result ≤ length bytes.now }
{
    bytes
        .iter()
        .rev()
        .take_while(|byte| **byte != b'\n')
        .count()
}
