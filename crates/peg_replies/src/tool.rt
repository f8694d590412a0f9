//! Runs the tool over a grammar file and a text from separate inputs.
ghost use Rattle.std.specs.Prelude.{◌≡◌, ◌⊎◌, ℕ, ◌≤◌, ◌↔◌, ◌+◌, true};
ghost use Rattle.std.specs.Prelude.{false, List, None, IfOk, IfSome, IsErrOf, length, string_bytes};
ghost use Rattle.peg_bytes.specs.Place.{max_offset};
ghost use Rattle.std.specs.Io.KnownBytes.{Keeps};
ghost use Rattle.peg_metagrammar.specs.Notation.{max_file_bytes};
ghost use Rattle.peg_semantics.specs.Rules.{Rule};
ghost use Rattle.peg_io.specs.Transfer.{ConsumesAtMost};
ghost use Rattle.peg_parser.specs.Accepts.{Accepts};
ghost use Rattle.peg_parser.specs.Parser.{parser_rules};
ghost use Rattle.peg_grammar.specs.Limits.{max_text_bytes};
ghost use Rattle.peg_json.specs.Statuses.{status_code};
ghost use Rattle.peg_replies.specs.Commands.{nodes_asked, parse_task, task_of};
ghost use Rattle.peg_replies.specs.PrintedNodes.{first_unknown};
ghost use Rattle.peg_replies.specs.Replies.{IsPrinted};
ghost use Rattle.peg_replies.specs.Task.{HasText, IsTextOf, ListsUnknown};
ghost use Rattle.peg_replies.specs.Written.{Prints, PrintsInPart};
ghost use Rattle.peg_json.specs.Lines.{line_bytes};

use crate::command::Command;
use crate::linting::lint_file;
use crate::loading::{Loaded, check_file, code_file, load, table_file};
use crate::parse::parse_line;
use crate::profiling::profile_reply;
use crate::tree_printing::TreePrinting;
use crate::write::{ToolFault, write_tool_reply};
use peg_grammar::MAX_TEXT_BYTES;
use peg_io::{ReadFault, Sink, Source, read_up_to};
use peg_json::{Line, TreeForm, no_rule_line};
use peg_notation::MAX_FILE_BYTES;
use peg_parser::{ParseOptions, Parser};
use std::alloc::Global;

/// Reads a grammar file, runs a command and writes the answer as one line of JSON. Returns the exit status; 5, with
/// nothing written, if an allocation fails. No device may have failed before.
///
/// At most 1,048,577 bytes of the file and 67,108,865 of the text are read and held in memory. The text is only read
/// for a parse by an accepted file whose lists of rules have known names.
pub fn run_tool<G: Source, T: Source, W: Sink>(
    alloc: Global,
    grammar: &mut G,
    text: &mut T,
    output: &mut W,
    command: &Command<'_>,
) -> Result<u8, ToolFault>
    requires grammar_works { G.failed grammar.old ≡ false }
    requires text_works { T.failed text.old ≡ false }
    requires output_works { W.failed output.old ≡ false }
    ensures answer { IfSome (G.left grammar.old) (λ file. (bytes : List ℕ)
        → IsTextOf (task_of command.now) file (T.left text.old) bytes → IfOk result (λ status.
        Prints (IsPrinted (task_of command.now) file bytes) (W.written output.old) (W.written output.new) status)) }
    ensures held { ConsumesAtMost (G.left grammar.old) (G.left grammar.new) (max_file_bytes + 1) }
    ensures text_held { ConsumesAtMost (T.left text.old) (T.left text.new) (max_text_bytes + 1) }
    ensures unread { ¬ HasText (task_of command.now) → text.new ≡ text.old }
    ensures refused { IfSome (G.left grammar.old) (λ file.
        ((rules : List Rule) → ¬ Accepts file rules) → text.new ≡ text.old) }
    ensures unknown { IfSome (G.left grammar.old) (λ file. ((rules : List Rule) → Accepts file rules
        → ListsUnknown (task_of command.now) rules) → text.new ≡ text.old) }

    // Failures of the devices: exactly these are reported, and this much is written then.
    ensures read_fault { IsErrOf result ToolFault.ReadFault
        ↔ ((G.failed grammar.new ≡ true) ⊎ (T.failed text.new ≡ true)) }
    ensures nothing_written { IsErrOf result ToolFault.ReadFault → Keeps (W.written output.old) (W.written output.new) }
    ensures write_fault { IsErrOf result ToolFault.WriteFault ↔ (W.failed output.new ≡ true) }
    ensures partly_written { IfSome (G.left grammar.old) (λ file. (bytes : List ℕ)
        → IsTextOf (task_of command.now) file (T.left text.old) bytes → IsErrOf result ToolFault.WriteFault
        → PrintsInPart (IsPrinted (task_of command.now) file bytes) (W.written output.old) (W.written output.new)) }
{
    let reply = reply_line(alloc, grammar, text, command);
    write_tool_reply(output, reply)
}

/// Reads the inputs of a command and returns its line.
pub fn reply_line<G: Source, T: Source>(
    alloc: Global,
    grammar: &mut G,
    text: &mut T,
    command: &Command<'_>,
) -> Result<Line, ReadFault>
    requires grammar_works { G.failed grammar.old ≡ false }
    requires text_works { T.failed text.old ≡ false }
    ensures answer { IfSome (G.left grammar.old) (λ file. (bytes : List ℕ)
        → IsTextOf (task_of command.now) file (T.left text.old) bytes → IfOk result (λ line.
        IsPrinted (task_of command.now) file bytes (line_bytes line) (status_code line.status))) }
    ensures held { ConsumesAtMost (G.left grammar.old) (G.left grammar.new) (max_file_bytes + 1) }
    ensures text_held { ConsumesAtMost (T.left text.old) (T.left text.new) (max_text_bytes + 1) }
    ensures unread { ¬ HasText (task_of command.now) → text.new ≡ text.old }
    ensures refused { IfSome (G.left grammar.old) (λ file.
        ((rules : List Rule) → ¬ Accepts file rules) → text.new ≡ text.old) }
    ensures unknown { IfSome (G.left grammar.old) (λ file. ((rules : List Rule) → Accepts file rules
        → ListsUnknown (task_of command.now) rules) → text.new ≡ text.old) }
    ensures device { IsErrOf result ReadFault.Device
        ↔ ((G.failed grammar.new ≡ true) ⊎ (T.failed text.new ≡ true)) }
    ensures grammar_never { G.never_fails grammar.old ≡ true → G.failed grammar.new ≡ false }
    ensures text_never { T.never_fails text.old ≡ true → T.failed text.new ≡ false }
{
    let file = read_up_to(alloc, grammar, MAX_FILE_BYTES + 1)?;
    match command {
        Command::Table => Ok(table_file(alloc, &file)?),
        Command::Check => Ok(check_file(alloc, &file)?),
        Command::Code => Ok(code_file(alloc, &file)?),
        Command::Lint { start, selection } => { Ok(lint_file(alloc, &file, *start, *selection)?) }
        Command::Profile { options } => profile_reply(alloc, &file, text, options),
        Command::Parse {
            options,
            all,
            rows,
            no_tree,
            nodes,
            text: with_bytes,
        } => {
            let form = TreeForm::from_options(*rows, *no_tree);
            let printing = TreePrinting {
                all: *all,
                form,
                nodes: *nodes,
                with_bytes: *with_bytes,
            };
            parse_reply(alloc, &file, text, options, printing)
        }
    }
}

// Reads a text and returns the line of its parse, or the line that reports why the file is rejected.
fn parse_reply<T: Source>(
    alloc: Global,
    file: &[u8],
    text: &mut T,
    options: &ParseOptions<'_>,
    printing: TreePrinting<'_>,
) -> Result<Line, ReadFault>
    requires short { length file.now ≤ max_offset }
    requires works { T.failed text.old ≡ false }
    ensures answer { (bytes : List ℕ) → IsTextOf (parse_task options.now printing.entry) file.now (T.left text.old) bytes
        → IfOk result (λ line. IsPrinted (parse_task options.now printing.entry) file.now bytes (line_bytes line)
        (status_code line.status)) }
    ensures held { ConsumesAtMost (T.left text.old) (T.left text.new) (max_text_bytes + 1) }
    ensures refused { ((rules : List Rule) → ¬ Accepts file.now rules) → text.new ≡ text.old }
    ensures unknown { ((rules : List Rule) → Accepts file.now rules
        → ListsUnknown (parse_task options.now printing.entry) rules) → text.new ≡ text.old }
    ensures device { IsErrOf result ReadFault.Device ↔ (T.failed text.new ≡ true) }
    ensures never { T.never_fails text.old ≡ true → T.failed text.new ≡ false }
{
    match load(alloc, file)? {
        Loaded::Accepted(parser) => reply_by_parser(alloc, parser, text, options, printing),
        Loaded::Refused(line) => Ok(line),
    }
}

// The line that reports an unknown name, or else reads a text and returns the line of its parse.
fn reply_by_parser<T: Source>(
    alloc: Global,
    parser: Parser,
    text: &mut T,
    options: &ParseOptions<'_>,
    printing: TreePrinting<'_>,
) -> Result<Line, ReadFault>
    requires { T.failed text.old ≡ false }
    ensures answer { (file : List ℕ) → Accepts file (parser_rules parser) → IfOk result (λ line.
        IfSome (T.left text.old) (λ bytes. IsPrinted (parse_task options.now printing.entry) file bytes
        (line_bytes line) (status_code line.status))) }
    ensures held { ConsumesAtMost (T.left text.old) (T.left text.new) (max_text_bytes + 1) }
    ensures unknown { ListsUnknown (parse_task options.now printing.entry) (parser_rules parser)
        → text.new ≡ text.old }
    ensures device { IsErrOf result ReadFault.Device ↔ (T.failed text.new ≡ true) }
    ensures never { T.never_fails text.old ≡ true → T.failed text.new ≡ false }
{
    match printing.nodes.first_unknown(parser.grammar()) {
        Some(name) => Ok(no_rule_line(alloc, name)?),
        None => read_and_parse(alloc, parser, text, options, printing),
    }
}

// Reads a text and returns the line of its parse. The names in lists of rules are known.
fn read_and_parse<T: Source>(
    alloc: Global,
    parser: Parser,
    text: &mut T,
    options: &ParseOptions<'_>,
    printing: TreePrinting<'_>,
) -> Result<Line, ReadFault>
    requires works { T.failed text.old ≡ false }
    requires known { first_unknown (parser_rules parser) (nodes_asked printing.nodes) ≡ None }
    ensures answer { (file : List ℕ) → Accepts file (parser_rules parser) → IfOk result (λ line.
        IfSome (T.left text.old) (λ bytes. IsPrinted (parse_task options.now printing.entry) file bytes
        (line_bytes line) (status_code line.status))) }
    ensures held { ConsumesAtMost (T.left text.old) (T.left text.new) (max_text_bytes + 1) }
    ensures device { IsErrOf result ReadFault.Device ↔ (T.failed text.new ≡ true) }
    ensures never { T.never_fails text.old ≡ true → T.failed text.new ≡ false }
{
    let bytes = read_up_to(alloc, text, MAX_TEXT_BYTES + 1)?;
    Ok(parse_line(alloc, parser, &bytes, options, printing)?)
}
