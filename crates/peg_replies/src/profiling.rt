//! The line of the profile of a parse.
ghost use Rattle.std.specs.Prelude.{◌≡◌, ℕ, ◌≤◌, ◌↔◌, ◌+◌, true, false, List, IfOk, IfSome, IsErrOf, length};
ghost use Rattle.peg_bytes.specs.Place.{max_offset};
ghost use Rattle.peg_grammar.specs.Limits.{max_text_bytes};
ghost use Rattle.peg_semantics.specs.Rules.{Rule};
ghost use Rattle.peg_io.specs.Transfer.{ConsumesAtMost};
ghost use Rattle.peg_parser.specs.Accepts.{Accepts};
ghost use Rattle.peg_parser.specs.Engine.{shown_parser_rules};
ghost use Rattle.peg_parser.specs.Parser.{start_named};
ghost use Rattle.peg_json.specs.Lines.{IsLineOf, line_bytes};
ghost use Rattle.peg_json.specs.ProfileReplies.{ProfilesTo};
ghost use Rattle.peg_json.specs.Statuses.{status_code};
ghost use Rattle.peg_replies.specs.Replies.{IsPrinted};
ghost use Rattle.peg_replies.specs.Task.{IsTextOf, ProfileTask};

use crate::loading::{Loaded, load};
use crate::parse::no_start;
use peg_grammar::MAX_TEXT_BYTES;
use peg_io::{ReadFault, Source, read_up_to};
use peg_json::{Line, long_text_line, profile_line};
use peg_parser::{ParseFault, ParseOptions, ShownParser};
use peg_profile::Profile;
use std::alloc::{AllocError, Global};

/// Reads a text and returns the line of the profile of its parse, or the line that reports why the file is rejected.
pub(crate) fn profile_reply<T: Source>(
    alloc: Global,
    file: &[u8],
    text: &mut T,
    options: &ParseOptions<'_>,
) -> Result<Line, ReadFault>
    requires short { length file.now ≤ max_offset }
    requires works { T.failed text.old ≡ false }
    ensures answer { (bytes : List ℕ)
        → IsTextOf (ProfileTask (start_named options.now) options.now.memo options.now.steps) file.now
        (T.left text.old) bytes → IfOk result (λ line.
        IsPrinted (ProfileTask (start_named options.now) options.now.memo options.now.steps) file.now bytes
        (line_bytes line) (status_code line.status)) }
    ensures held { ConsumesAtMost (T.left text.old) (T.left text.new) (max_text_bytes + 1) }
    ensures refused { ((rules : List Rule) → ¬ Accepts file.now rules) → text.new ≡ text.old }
    ensures device { IsErrOf result ReadFault.Device ↔ (T.failed text.new ≡ true) }
    ensures never { T.never_fails text.old ≡ true → T.failed text.new ≡ false }
{
    match load(alloc, file)? {
        Loaded::Accepted(parser) => {
            let shown = parser.without_nodes(alloc)?;
            read_and_profile(alloc, &shown, text, options)
        }
        Loaded::Refused(line) => Ok(line),
    }
}

// Reads a text and returns the line of the profile of its parse.
fn read_and_profile<T: Source>(
    alloc: Global,
    parser: &ShownParser,
    text: &mut T,
    options: &ParseOptions<'_>,
) -> Result<Line, ReadFault>
    requires { T.failed text.old ≡ false }
    ensures answer { (file : List ℕ) → Accepts file (shown_parser_rules parser.now) → IfOk result (λ line.
        IfSome (T.left text.old) (λ bytes. IsPrinted (ProfileTask (start_named options.now) options.now.memo
        options.now.steps) file bytes (line_bytes line) (status_code line.status))) }
    ensures held { ConsumesAtMost (T.left text.old) (T.left text.new) (max_text_bytes + 1) }
    ensures device { IsErrOf result ReadFault.Device ↔ (T.failed text.new ≡ true) }
    ensures never { T.never_fails text.old ≡ true → T.failed text.new ≡ false }
{
    let bytes = read_up_to(alloc, text, MAX_TEXT_BYTES + 1)?;
    Ok(line_of_text(alloc, parser, &bytes, options)?)
}

// The line of the profile of a parse of this text. A text that is too long is reported before a start that no rule has.
fn line_of_text(
    alloc: Global,
    parser: &ShownParser,
    text: &[u8],
    options: &ParseOptions<'_>,
) -> Result<Line, AllocError>
    ensures { (file : List ℕ) → IfOk result (λ line. IsLineOf file
        (ProfilesTo (shown_parser_rules parser.now) text.now (start_named options.now) options.now.memo
        options.now.steps)
        (line_bytes line) (status_code line.status)) }
{
    match Profile::of_text(alloc, parser, text, options) {
        Ok(profile) => profile_line(alloc, parser.grammar(), &profile),
        // A grammar has a first rule, so a start that is missing was given by name.
        Err(ParseFault::NoSuchStart) => no_start(alloc, text, options.start.unwrap_or("")),
        Err(ParseFault::TextTooLong) => long_text_line(alloc),
        // A parse that its step limit stops has a profile.
        Err(ParseFault::StepLimit) => unreachable!(),
        Err(ParseFault::Memory) => Err(AllocError),
    }
}
