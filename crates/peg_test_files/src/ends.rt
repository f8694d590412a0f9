//! How tests of texts end.
ghost use Rattle.std.specs.Prelude.{◌≡◌, count_by};
ghost use Rattle.peg_test_files.specs.TestCounts.{is_end};

/// How the test of a text ends.
#[derive(Clone, Copy, Debug, PartialEq, Eq)]
pub(crate) enum TestEnd {
    /// The text does what its name asks for.
    Passed,
    /// It doesn't, or that isn't known.
    Failed,
    /// The name asks for nothing.
    Ignored,
}

impl TestEnd {
    // Whether two ends are the same.
    fn is(self, other: TestEnd) -> bool
        ensures { result ≡ is_end self other }
    {
        matches!(
            (self, other),
            (TestEnd::Passed, TestEnd::Passed)
                | (TestEnd::Failed, TestEnd::Failed)
                | (TestEnd::Ignored, TestEnd::Ignored)
        )
    }
}

/// Returns how many tests end in this way.
pub(crate) fn count_of(ends: &[TestEnd], wanted: TestEnd) -> usize
    ensures { result ≡ count_by (is_end wanted) ends.now }
{
    let mut count = 0;
    'ends: for end in ends {
        if wanted.is(*end) {
            count += 1;
        }
    }
    count
}
