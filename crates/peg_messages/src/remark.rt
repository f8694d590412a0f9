//! The message for a remark about a place of a grammar file.
ghost use Rattle.std.specs.Prelude.{◌≡◌, ◌≤◌, ◌++◌, OnOk, length};
ghost use Rattle.peg_bytes.specs.Place.{max_offset};

use crate::lines::TextLines;
use crate::numbers::write_place;
use crate::source::write_source;
use std::alloc::AllocError;

/// A remark about a place of a grammar file.
#[derive(Clone, Copy, Debug)]
pub struct Remark<'a> {
    /// The name of the file, which begins the message.
    pub name: &'a [u8],
    pub file: &'a [u8],
    /// The place: an offset of the file. One after the end counts as the end.
    pub at: u32,
    /// What kind of remark it is, such as `warning`.
    pub label: &'a [u8],
    pub sentence: &'a [u8],
}

impl Remark<'_> {
    ghost use Rattle.peg_messages.specs.Remarks.{remark_message};

    /// Appends the message for a remark: `NAME:LINE:COLUMN: LABEL: SENTENCE`, then the line of the place and a caret
    /// below the place, as for a refused file. Each line ends with LF.
    ///
    /// The only error is a failed allocation, which may leave a part of the message. Takes time linear in the file and
    /// in what is written.
    ///
    /// # Example
    ///
    /// ```
    /// let remark = Remark {
    ///     name: b"ab.peg",
    ///     file: b"S <- [b-a]",
    ///     at: 6,
    ///     label: b"warning",
    ///     sentence: b"this range holds no byte",
    /// };
    /// remark.write(&mut out)?;
    /// // ab.peg:1:7: warning: this range holds no byte
    /// // S <- [b-a]
    /// //       ^
    /// ```
    pub fn write(&self, out: &mut Vec<u8>) -> Result<(), AllocError>
        requires { length self.now.file.now ≤ max_offset }
        ensures { OnOk result (out.new.items ≡ out.old.items ++ remark_message self.now) }
    {
        let at = self.at.min(self.file.len() as u32);
        write_place(self.name, TextLines::File, self.file, at, out)?;
        out.extend_from_slice(self.label)?;
        out.extend_from_slice(b": ")?;
        out.extend_from_slice(self.sentence)?;
        out.extend_from_slice(b"\n")?;
        write_source(TextLines::File, self.file, at, out)
    }
}
