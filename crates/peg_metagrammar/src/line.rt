//! The lines of the metagrammar's text.
ghost use Rattle.std.specs.Prelude.{◌≡◌, ◌≤◌, ◌+◌, List, [], ◌∷◌};
ghost use Rattle.peg_bytes.specs.Extent.{extent, between};
ghost use Rattle.peg_metagrammar.specs.FigureText.{line_start};

use peg_bytes::Span;

// The length of each line, with its LF.
const LINE_LENGTHS: [u8; 31] = [
    41, 46, 41, 20, 30, 52, 81, 44, 24, 32, 71, 39, 30, 110, 26, 21, 19, 19, 24, 20, 20, 46, 17,
    20, 21, 19, 30, 41, 32, 34, 16,
];

/// A line of the metagrammar's text, by the offset of its first byte.
#[derive(Clone, Copy, Debug)]
pub(crate) struct Line {
    pub(crate) start: u16,
}

impl Line {
    /// Returns the line of a rule. The lengths of the lines before it are added up here alone.
    pub(crate) fn of_rule(rule: u32) -> Line
        requires { rule ≤ 31 }
        ensures { result.start ≡ line_start rule }
    {
        let mut start = 0;
        'lines: for line in 0..rule as usize {
            start += u16::from(LINE_LENGTHS[line]);
        }
        Line { start }
    }

    /// Returns a span of the text, by its offsets on this line.
    pub(crate) fn span(self, start: u8, end: u8) -> Span
        requires { start ≤ end }
        ensures { extent result ≡ between (self.start + start) (self.start + end) }
    {
        let line = u32::from(self.start);
        Span::new(line + u32::from(start), line + u32::from(end))
    }
}
