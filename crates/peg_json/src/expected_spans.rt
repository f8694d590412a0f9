//! The spans of terminals, for a serializer.
ghost use Rattle.std.specs.Prelude.{◌≡◌, ◌<◌, All, OnOk, length};
ghost use Rattle.std.proofs.Props.{props};
ghost use Rattle.serde_json.specs.Events.{SendsValue};
ghost use Rattle.peg_semantics.specs.Terminals.{extents_of_terminals};
ghost use Rattle.peg_parser.specs.Parser.{parser_rules};
ghost use Rattle.peg_json.specs.Parses.{extents_at};
ghost use Rattle.peg_json.specs.Reply.{expected_data};

use peg_listings::serialize_span;
use peg_parser::Parser;
use serde::{Described, Serialize, Serializer};

// Terminals, serialized as the list of their spans in the grammar file.
#[derive(Drop)]
pub(crate) struct ExpectedSpans<'a> {
    parser: &'a Parser,
    terminals: &'a [u32],
    ghost below: { All (λ terminal. terminal < length (extents_of_terminals
        (parser_rules parser.now))) terminals.now } by { Prim.hlevel props },
}

impl<'a> ExpectedSpans<'a> {
    ghost use Rattle.peg_json.specs.Sending.{spans_of};

    // The spans of the terminals with these numbers.
    pub(crate) fn new(parser: &'a Parser, terminals: &'a [u32]) -> ExpectedSpans<'a>
        requires { All (λ terminal. terminal < length (extents_of_terminals (parser_rules parser.now))) terminals.now }
        ensures { spans_of result ≡ extents_at (parser_rules parser.now) terminals.now }
    {
        ExpectedSpans { parser, terminals }
    }
}

impl Described for ExpectedSpans<'_> {
    ghost use Rattle.peg_json.specs.Sending.{spans_of};

    ghost writes = { λ places. SendsValue (expected_data (spans_of places)) };
}

impl Serialize for ExpectedSpans<'_> {
    fn serialize<S: Serializer>(&self, out: &mut S) -> Result<(), S::Error> {
        serialize_spans(self.parser, self.terminals, out)
    }
}

// Serializes the spans, in order.
fn serialize_spans<S: Serializer>(
    parser: &Parser,
    terminals: &[u32],
    out: &mut S,
) -> Result<(), S::Error>
    requires { All (λ terminal. terminal < length (extents_of_terminals (parser_rules parser.now))) terminals.now }
    ensures { OnOk result (SendsValue (expected_data (extents_at (parser_rules parser.now) terminals.now))
        (S.written out.old) (S.written out.new)) }
{
    out.begin_seq(Some(terminals.len()))?;
    for terminal in terminals {
        serialize_span(parser.terminal_span(*terminal), out)?;
    }
    out.end_seq()
}
