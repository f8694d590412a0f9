//! Tests texts in folders by a grammar file.
ghost use Rattle.std.specs.Prelude.{◌≡◌, false};
ghost use Rattle.peg_explain_files.specs.Printings.{has_write_failed};
ghost use Rattle.peg_parser.specs.Accepts.{Accepts};
ghost use Rattle.peg_parser.specs.Parser.{parser_rules};
ghost use Rattle.peg_test_files.specs.TestQuestions.{question_of};
ghost use Rattle.peg_test_files.specs.Tested.{IsGrammarFile, IsTested};

use crate::folders::test_folders;
use crate::query::TestQuery;
use crate::results::write_results;
use crate::tester::Tester;
use peg_explain::Explainer;
use peg_explain_files::{
    Content, Ended, ExplainFault, Printing, content_of, has_start, unread_grammar, write_no_start,
    write_refusal,
};
use peg_io::{Opener, Sink};
use peg_notation::MAX_FILE_BYTES;
use peg_parser::{Parser, Refusal};
use std::alloc::Global;

/// Reads a grammar file and the texts in folders, and writes a message for each text that doesn't do what its name asks
/// for, and a line with the number of texts that passed, failed and are ignored. A text whose name begins with `match`
/// has to match as a whole, and one whose name begins with `no_match` not. Other names are ignored, and so are names that
/// end in `.rows`. A folder inside a folder isn't entered.
///
/// Folders are tested in the order of the query, and the files of a folder in the order that the opener lists them. If
/// the grammar file can't be opened or read, is refused, or has no rule with the name of the start, no folder is listed,
/// and the answer is that of `explain_files`. A folder or a text that can't be read has a line for standard error, and the
/// others are read.
///
/// All is written at the end. On `Memory` nothing is written. In memory are the messages, the names in one folder and one
/// text. At most 1,048,577 bytes of the grammar file are read, and 67,108,865 of each text.
///
/// # Example
///
/// ```
/// let query = TestQuery { grammar: "ab.peg", folders: &folders, options, style };
/// let ended = test_files(alloc, &files, &mut output, &query)?;
/// ```
pub fn test_files<O: Opener, W: Sink>(
    alloc: Global,
    files: &O,
    output: &mut W,
    query: &TestQuery<'_>,
) -> Result<Ended, ExplainFault>
    requires { W.failed output.old ≡ false }
    ensures tested { IsTested (question_of query.now) (O.file_at files.now) (W.written output.old)
        (W.written output.new) result }
    ensures failed { W.failed output.new ≡ has_write_failed result }
{
    let printing = Printing::All;
    let file = match content_of(alloc, files, query.grammar, MAX_FILE_BYTES + 1)? {
        Content::Bytes(file) => file,
        Content::Unopened => {
            return unread_grammar(alloc, query.grammar, ": can't be opened\n", printing);
        }
        Content::Unreadable => {
            return unread_grammar(alloc, query.grammar, ": can't be read\n", printing);
        }
    };
    match Parser::from_file(alloc, &file) {
        Ok(parser) => test_by_parser(alloc, files, output, &file, &parser, query),
        Err(Refusal::Memory) => Err(ExplainFault::Memory),
        Err(refusal) => write_refusal(alloc, output, query.grammar, &file, &refusal, printing),
    }
}

// Tests texts by the parser of a grammar file, unless no rule has the name of the start.
fn test_by_parser<O: Opener, W: Sink>(
    alloc: Global,
    files: &O,
    output: &mut W,
    file: &[u8],
    parser: &Parser,
    query: &TestQuery<'_>,
) -> Result<Ended, ExplainFault>
    requires { W.failed output.old ≡ false }
    ensures answer { IsGrammarFile (O.file_at files.now query.now.grammar.now) file.now
        → Accepts file.now (parser_rules parser.now)
        → IsTested (question_of query.now) (O.file_at files.now) (W.written output.old) (W.written output.new) result }
    ensures failed { W.failed output.new ≡ has_write_failed result }
{
    if !has_start(parser, &query.options) {
        let start = query.options.start.unwrap_or("");
        return write_no_start(alloc, output, query.grammar, start, Printing::All);
    }
    let tester = Tester {
        files,
        explainer: Explainer::new(alloc, file, parser, query.style)?,
        options: &query.options,
    };
    let results = test_folders(alloc, &tester, query.folders)?;
    write_results(output, results)
}
