//! What is printed of a text.
ghost use Rattle.std.specs.Prelude.{◌≡◌, ◌++◌, OnOk, string_bytes};
ghost use Rattle.peg_explain_files.specs.Entries.{named_line, program_line};

use crate::ended::Verdict;
use crate::reports::TextReport;
use peg_messages::shown_name;
use std::alloc::{AllocError, Global};

/// The name of a text, which may be any bytes, and what is reported of the text.
#[derive(Drop)]
pub struct Entry<'a> {
    pub name: &'a [u8],
    pub report: TextReport,
}

impl Entry<'_> {
    ghost use Rattle.peg_explain_files.specs.Entries.{entry_fault, entry_message, entry_verdict};

    /// Appends what is printed of the text on the output. Appends nothing, or a part of it, if an allocation fails.
    pub fn write_message(&self, alloc: Global, out: &mut Vec<u8>) -> Result<(), AllocError>
        ensures { OnOk result (out.new.items ≡ out.old.items ++ entry_message self.now) }
    {
        match &self.report {
            TextReport::Differs(message) => out.extend_from_slice(message),
            TextReport::TooLong => {
                write_line(
                    alloc,
                    self.name,
                    ": the text is longer than 67108864 bytes\n",
                    out,
                )
            }
            TextReport::TooManySteps => write_line(
                alloc,
                self.name,
                ": the parse takes more steps than --steps allows\n",
                out,
            ),
            _ => Ok(()),
        }
    }

    /// Appends what is printed of the text on standard error. Appends nothing, or a part of it, if an allocation fails.
    pub fn write_fault(&self, alloc: Global, out: &mut String) -> Result<(), AllocError>
        ensures { OnOk result (string_bytes out.new ≡ string_bytes out.old ++ entry_fault self.now) }
    {
        match self.report {
            TextReport::NotUtf8 => write_program_line(
                alloc,
                self.name,
                ": the name isn't UTF-8\n",
                out,
            ),
            TextReport::Unopened => write_program_line(
                alloc,
                self.name,
                ": can't be opened\n",
                out,
            ),
            TextReport::Unreadable => write_program_line(
                alloc,
                self.name,
                ": can't be read\n",
                out,
            ),
            _ => Ok(()),
        }
    }

    /// Returns the verdict of the text alone.
    pub fn verdict(&self) -> Verdict
        ensures { result ≡ entry_verdict self.now }
    {
        match self.report {
            TextReport::Matches => Verdict::Matches,
            TextReport::Differs(_) => Verdict::Differs,
            TextReport::TooLong | TextReport::TooManySteps => Verdict::OverLimit,
            TextReport::NotUtf8 | TextReport::Unopened | TextReport::Unreadable => {
                Verdict::Unreadable
            }
        }
    }
}

/// Appends a name, as messages show it, and what follows it.
pub fn write_line(
    alloc: Global,
    name: &[u8],
    rest: &str,
    out: &mut Vec<u8>,
) -> Result<(), AllocError>
    ensures { OnOk result (out.new.items ≡ out.old.items ++ named_line name.now rest.now) }
{
    let shown = shown_name(alloc, name)?;
    out.extend_from_slice(shown.as_bytes())?;
    out.extend_from_slice(rest.as_bytes())
}

/// Appends the program's name, a name as messages show it, and what follows it.
pub fn write_program_line(
    alloc: Global,
    name: &[u8],
    rest: &str,
    out: &mut String,
) -> Result<(), AllocError>
    ensures { OnOk result (string_bytes out.new ≡ string_bytes out.old ++ program_line name.now rest.now) }
{
    let shown = shown_name(alloc, name)?;
    out.push_str("pegtool: ")?;
    out.push_str(&shown)?;
    out.push_str(rest)
}
