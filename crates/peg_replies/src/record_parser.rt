//! Parsers of records: what is made of a grammar file for the records of streams.
ghost use Rattle.std.specs.Prelude.{◌≡◌, length};
ghost use Rattle.peg_parser.specs.Engine.{shown_parser_rules};
ghost use Rattle.peg_parser.specs.Parser.{parser_rules};
ghost use Rattle.peg_semantics.specs.Terminals.{extents_of_terminals};

use crate::record_session::RecordSession;
use crate::tree_printing::TreePrinting;
use peg_parser::{ParseOptions, Parser, ShownParser};
use std::alloc::Global;

/// What parses the records of texts by an accepted grammar file. `prepare_records` makes one. It has two parsers of the
/// file: the one that parses makes no nodes that aren't printed, and the other one prints.
#[derive(Drop)]
pub struct RecordParser<'a> {
    pub(crate) parser: Parser,
    pub(crate) shown: ShownParser,
    pub(crate) options: ParseOptions<'a>,
    pub(crate) printing: TreePrinting<'a>,
    pub ghost rules: { length (shown_parser_rules shown) ≡ length (parser_rules parser) },
    pub ghost spans: { extents_of_terminals (shown_parser_rules shown) ≡ extents_of_terminals (parser_rules parser) },
}

impl<'a> RecordParser<'a> {
    ghost use Rattle.peg_parser.specs.Sessions.{IsSessionOf};

    /// Returns a session that makes the lines of records, one after the other. Constant time.
    pub fn session(&'a self, alloc: Global) -> RecordSession<'a>
        ensures records { result.records.now ≡ self.now }
        ensures parses { IsSessionOf self.now.shown result.session }
    {
        RecordSession::new(alloc, self)
    }
}
