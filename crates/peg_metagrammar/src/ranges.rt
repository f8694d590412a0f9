//! Byte ranges, and the sets of character classes.
ghost use Rattle.std.specs.Prelude.{◌≡◌, map};
ghost use Rattle.peg_bytes.specs.ByteSet.{bytes_of};
ghost use Rattle.peg_metagrammar.specs.RangesCode.{range_of};
ghost use Rattle.peg_metagrammar.specs.Ranges.{class_of, range};

use peg_bytes::ByteSet;

/// The bytes from `low` to `high`, both included; empty if `low` is greater than `high`.
#[derive(Clone, Copy, Debug, PartialEq, Eq)]
pub struct ByteRange {
    pub low: u8,
    pub high: u8,
}

/// Returns the union of the ranges as a set. Linear in the number of ranges.
pub fn set_of_ranges(ranges: &[ByteRange]) -> ByteSet
    ensures { bytes_of result ≡ class_of (map range_of ranges.now) }
{
    let mut set = ByteSet::empty();
    for range in ranges {
        set = set.union(&ByteSet::range(range.low, range.high));
    }
    set
}

/// Builds the range from `low` to `high`.
pub(crate) fn range(low: u8, high: u8) -> ByteRange
    ensures { range_of result ≡ range low high }
{
    ByteRange { low, high }
}
