//! Explains texts by a grammar file.
ghost use Rattle.std.specs.Prelude.{◌≡◌, ◌≢◌, ◌≤◌, ◌++◌, false, IfErr, IfOk, OnOk, is_some, length, string_bytes};
ghost use Rattle.peg_bytes.specs.Place.{max_offset};
ghost use Rattle.peg_parser.specs.Accepts.{Accepts};
ghost use Rattle.peg_parser.specs.Faults.{HasCause};
ghost use Rattle.peg_parser.specs.Parser.{parser_rules, start_named};
ghost use Rattle.peg_parser.specs.Refusals.{IsRefusalOf};
ghost use Rattle.peg_semantics.specs.Starts.{start_name};
ghost use Rattle.peg_explain_files.specs.Entries.{program_line};
ghost use Rattle.peg_explain_files.specs.Explained.{ExplainsTexts, IsAnswer, IsExplained, IsUnread, WritesRefusal};
ghost use Rattle.peg_explain_files.specs.Explained.{no_start_message};
ghost use Rattle.peg_explain_files.specs.Names.{IsInput, list_file};
ghost use Rattle.peg_explain_files.specs.Printings.{WritesAlone, has_write_failed, printed_by};
ghost use Rattle.peg_explain_files.specs.Questions.{question_of};
ghost use Rattle.peg_explain_files.specs.Tasks.{HasStart, setting_of};

use crate::content::{Content, content_of};
use crate::ended::{Ended, ExplainFault, Verdict};
use crate::entry::{write_line, write_program_line};
use crate::listing::explain_list;
use crate::printing::{Printing, write_alone};
use crate::query::Query;
use crate::task::{Run, Task, explain_texts};
use peg_explain::refusal_message;
use peg_io::{Opener, Sink, Source};
use peg_messages::shown_name;
use peg_notation::MAX_FILE_BYTES;
use peg_parser::{ParseOptions, Parser, Refusal};
use std::alloc::{AllocError, Global};

/// Reads a grammar file and texts by name, and writes a message for each text that doesn't match as a whole, in order;
/// or the message of a refused grammar file. Texts in a list come after the others. Each message is written before the
/// next text is opened.
///
/// A file that can't be opened or read, and a name that isn't UTF-8, have a line for standard error, and the others are
/// read. On `Memory` the messages of the first texts are written. On `Write` a part of one more message may be written.
/// At most 1,048,577 bytes of the grammar file are read, and 67,108,865 of each text. The list is read to its end, in
/// pieces of 64 KiB. In memory are such a piece, a name of the list, one text, and the lines for standard error.
///
/// # Example
///
/// ```
/// let query = Query { grammar: "ab.peg", texts: &texts, list: None, end: NameEnd::LineEnd, options, style };
/// let ended = explain_files(alloc, &files, &mut input, &mut output, &query, Printing::All)?;
/// ```
pub fn explain_files<O: Opener, I: Source, W: Sink>(
    alloc: Global,
    files: &O,
    input: &mut I,
    output: &mut W,
    query: &Query<'_>,
    printing: Printing,
) -> Result<Ended, ExplainFault>
    requires reads { I.failed input.old ≡ false }
    requires works { W.failed output.old ≡ false }
    ensures explained { IsExplained (question_of query.now) printing (O.file_at files.now) (I.left input.old)
        (W.written output.old) (W.written output.new) result }
    ensures failed { W.failed output.new ≡ has_write_failed result }
    ensures unread { ¬ IsInput (question_of query.now).list → input.new ≡ input.old }
{
    let file = match content_of(alloc, files, query.grammar, MAX_FILE_BYTES + 1)? {
        Content::Bytes(file) => file,
        Content::Unopened => {
            return unread_grammar(alloc, query.grammar, ": can't be opened\n", printing);
        }
        Content::Unreadable => {
            return unread_grammar(alloc, query.grammar, ": can't be read\n", printing);
        }
    };
    match Parser::from_file(alloc, &file) {
        Ok(parser) => {
            let task = Task {
                files,
                file: &file,
                parser: &parser,
                query,
                printing,
            };
            explain_by_parser(alloc, &task, input, output)
        }
        Err(Refusal::Memory) => Err(ExplainFault::Memory),
        Err(refusal) => write_refusal(alloc, output, query.grammar, &file, &refusal, printing),
    }
}

/// Returns how an explanation ends if the grammar file can't be opened or read.
pub fn unread_grammar(
    alloc: Global,
    name: &str,
    rest: &str,
    printing: Printing,
) -> Result<Ended, ExplainFault>
    ensures unread { IfOk result (IsUnread name.now rest.now printing) }
    ensures memory { IfErr result (λ fault. fault ≡ ExplainFault.Memory) }
{
    let mut faults = String::new(alloc);
    push_unread(alloc, name, rest, printing, &mut faults)?;
    Ok(Ended {
        faults,
        verdict: Verdict::Unreadable,
    })
}

// Appends the line for a grammar file that can't be opened or read, if it is printed.
fn push_unread(
    alloc: Global,
    name: &str,
    rest: &str,
    printing: Printing,
    faults: &mut String,
) -> Result<(), AllocError>
    ensures { OnOk result (string_bytes faults.new
        ≡ string_bytes faults.old ++ printed_by printing (program_line name.now rest.now)) }
{
    match printing {
        Printing::All => write_program_line(alloc, name.as_bytes(), rest, faults),
        Printing::Nothing => Ok(()),
    }
}

/// Writes the message of a refused grammar file, and returns how an explanation ends then.
pub fn write_refusal<W: Sink>(
    alloc: Global,
    output: &mut W,
    name: &str,
    file: &[u8],
    refusal: &Refusal,
    printing: Printing,
) -> Result<Ended, ExplainFault>
    requires short { length file.now ≤ max_offset }
    requires refused { HasCause (IsRefusalOf file.now) (length file.now) refusal.now }
    requires has_cause { refusal.now ≢ Refusal.Memory }
    requires works { W.failed output.old ≡ false }
    ensures writes { WritesRefusal name.now file.now refusal.now printing (W.written output.old) (W.written output.new)
        result }
    ensures failed { W.failed output.new ≡ has_write_failed result }
{
    let called = shown_name(alloc, name.as_bytes())?;
    let message = refusal_message(alloc, called.as_bytes(), file, refusal)?;
    write_alone(alloc, output, &message, Verdict::Refused, printing)
}

// Explains texts by the parser of a grammar file, unless no rule has the name of the start.
fn explain_by_parser<O: Opener, I: Source, W: Sink>(
    alloc: Global,
    task: &Task<'_, O>,
    input: &mut I,
    output: &mut W,
) -> Result<Ended, ExplainFault>
    requires reads { I.failed input.old ≡ false }
    requires works { W.failed output.old ≡ false }
    ensures answer { Accepts task.now.file.now (parser_rules task.now.parser.now)
        → IsAnswer (question_of task.now.query.now) task.now.printing (O.file_at task.now.files.now) (I.left input.old)
        task.now.file.now (W.written output.old) (W.written output.new) result }
    ensures failed { W.failed output.new ≡ has_write_failed result }
    ensures unread { ¬ IsInput (question_of task.now.query.now).list → input.new ≡ input.old }
{
    if has_start(task.parser, &task.query.options) {
        return explain_all(alloc, task, input, output);
    }
    let start = task.query.options.start.unwrap_or("");
    write_no_start(alloc, output, task.query.grammar, start, task.printing)
}

/// Returns whether a rule has the name of the start, if one is given. Linear in the number of rules.
pub fn has_start(parser: &Parser, options: &ParseOptions<'_>) -> bool
    ensures { result ≡ is_some (start_name (parser_rules parser.now) (start_named options.now)) }
{
    match options.start {
        None => true,
        Some(name) => parser.grammar().rule_number(name).is_some(),
    }
}

/// Writes that no rule has the name of the start, and returns how an explanation ends then.
pub fn write_no_start<W: Sink>(
    alloc: Global,
    output: &mut W,
    grammar: &str,
    start: &str,
    printing: Printing,
) -> Result<Ended, ExplainFault>
    requires { W.failed output.old ≡ false }
    ensures writes { WritesAlone printing (no_start_message grammar.now start.now) Verdict.NoSuchStart
        (W.written output.old) (W.written output.new) result }
    ensures failed { W.failed output.new ≡ has_write_failed result }
{
    let message = message_for_no_start(alloc, grammar, start)?;
    write_alone(alloc, output, &message, Verdict::NoSuchStart, printing)
}

// The message that no rule has the name of the start.
fn message_for_no_start(alloc: Global, grammar: &str, start: &str) -> Result<Vec<u8>, AllocError>
    ensures { IfOk result (λ message. message.items ≡ no_start_message grammar.now start.now) }
{
    let mut message = Vec::new(alloc);
    write_line(
        alloc,
        grammar.as_bytes(),
        ": no rule is named ",
        &mut message,
    )?;
    write_line(alloc, start.as_bytes(), "\n", &mut message)?;
    Ok(message)
}

// Explains the texts that the query names, and then those in its list.
fn explain_all<O: Opener, I: Source, W: Sink>(
    alloc: Global,
    task: &Task<'_, O>,
    input: &mut I,
    output: &mut W,
) -> Result<Ended, ExplainFault>
    requires reads { I.failed input.old ≡ false }
    requires works { W.failed output.old ≡ false }
    ensures explains { HasStart task.now → ExplainsTexts (setting_of (O.file_at task.now.files.now) task.now)
        (list_file (O.file_at task.now.files.now) (I.left input.old) (question_of task.now.query.now).list)
        (W.written output.old) (W.written output.new) result }
    ensures failed { W.failed output.new ≡ has_write_failed result }
    ensures unread { ¬ IsInput (question_of task.now.query.now).list → input.new ≡ input.old }
{
    let mut run = Run::new(alloc);
    explain_texts(alloc, task, &mut run, output)?;
    explain_list(alloc, task, &mut run, input, output)?;
    Ok(run.into_ended())
}
