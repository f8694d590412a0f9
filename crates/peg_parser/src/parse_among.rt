//! Parses whose furthest failure is that of listed terminals.
ghost use Rattle.std.specs.Prelude.{◌≡◌, None, Some};
ghost use Rattle.std.specs.List.Sorted.{IsStrictlyIncreasing};
ghost use Rattle.peg_parser.specs.ParseContract.{IsParse};
ghost use Rattle.peg_parser.specs.Parser.{parser_rules, start_named};

use crate::options::ParseOptions;
use crate::parser::{ParseFault, Parser};
use peg_machine::Answer;
use std::alloc::Global;

impl Parser {
    /// Parses as `parse` does, but the furthest failure is that of the listed terminals alone. The list must ascend. `far`
    /// is the greatest position where a listed terminal failed, and `expected` has the indices in the list of those that
    /// failed there. If none failed, `far` is 0 and `expected` is empty.
    ///
    /// The errors and the steps are those of `parse`. Linear, too, in the length of the list.
    ///
    /// # Example
    ///
    /// ```
    /// // The grammar `S <- !('a' 'b') 'a' 'c'`, on a text where 'b' and 'c' fail at 1.
    /// let options = ParseOptions { start: None, memo: DEFAULT_MEMO, steps: None };
    /// let answer = parser.parse_among(alloc, b"ad", &options, &[2, 3])?;
    /// assert_eq!(answer.outcome.expected.as_slice(), [1]);
    /// ```
    pub fn parse_among(
        &self,
        alloc: Global,
        text: &[u8],
        options: &ParseOptions<'_>,
        terminals: &[u32],
    ) -> Result<Answer, ParseFault>
        requires { IsStrictlyIncreasing terminals.now }
        ensures parse { IsParse None (Some terminals.now) (parser_rules self.now) text.now (start_named options.now)
            (options.now.memo ≡ 0) options.now.steps result }
    {
        self.engine
            .parse_selecting(alloc, text, options, Some(terminals))
    }
}
