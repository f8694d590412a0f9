//! The last line of a test: how many texts passed, failed and are ignored.
ghost use Rattle.std.specs.Prelude.{◌≡◌, ◌++◌, OnOk};
ghost use Rattle.std.specs.Fmt.{decimal};
ghost use Rattle.peg_test_files.specs.TestCounts.{count_line};

use crate::ends::{TestEnd, count_of};
use itoa::Buffer;
use std::alloc::AllocError;

/// Appends the line with the counts.
pub(crate) fn write_counts(ends: &[TestEnd], out: &mut Vec<u8>) -> Result<(), AllocError>
    ensures { OnOk result (out.new.items ≡ out.old.items ++ count_line ends.now) }
{
    write_count(count_of(ends, TestEnd::Passed), " passed, ", out)?;
    write_count(count_of(ends, TestEnd::Failed), " failed, ", out)?;
    write_count(count_of(ends, TestEnd::Ignored), " ignored\n", out)
}

// Appends a number and what follows it.
fn write_count(count: usize, rest: &str, out: &mut Vec<u8>) -> Result<(), AllocError>
    ensures { OnOk result (out.new.items ≡ out.old.items ++ decimal count ++ rest.now) }
{
    let mut buffer = Buffer::new();
    out.extend_from_slice(buffer.format(count as u64).as_bytes())?;
    out.extend_from_slice(rest.as_bytes())
}
