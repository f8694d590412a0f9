//! Laws about handles: the contract of the public function is the law.
ghost use Rattle.std.specs.Thread.{IsSend, IsSync};
ghost use Rattle.peg_blame.specs.contracts.blame_parser.BlameParser as blame_parser;
ghost use Rattle.peg_c.specs.contracts.handle.Handle as handle;
ghost use Rattle.peg_handle.specs.contracts.content.Content as content;
ghost use Rattle.peg_handle.specs.contracts.content.Explanation as explanation;
ghost use Rattle.peg_handle.specs.contracts.content.GrammarFile as grammar_file;
ghost use Rattle.peg_handle.specs.contracts.content.Match as found;
ghost use Rattle.peg_handle.specs.contracts.content.PrintedLine as printed_line;
ghost use Rattle.peg_handle.specs.contracts.content.Rejection as rejection;
ghost use Rattle.peg_handle.specs.contracts.content.SelectingParser as selecting_parser;
ghost use Rattle.peg_handle.specs.contracts.content.TextExplainer as text_explainer;

use peg_blame::BlameParser;
use peg_handle::{Explanation, GrammarFile, Match, PrintedLine, Rejection, SelectingParser};

/// Another thread may take a handle over, use it and free it, also while other threads use handles of the same content.
pub fn any_thread_may_take_over_a_handle()
    ensures { IsSend handle.the_row }
{
    contents_cross_threads();
}

// Another thread may take over content, and several threads may read it. The same holds for the parts of content below.
fn contents_cross_threads()
    ensures send { IsSend content.the_row }
    ensures sync { IsSync content.the_row }
{
    grammar_files_cross_threads();
    rejections_cross_threads();
    matches_cross_threads();
    explanations_cross_threads();
    text_explainers_cross_threads();
    printed_lines_cross_threads();
    selecting_parsers_cross_threads();
}

fn text_explainers_cross_threads()
    ensures send { IsSend text_explainer.the_row }
    ensures sync { IsSync text_explainer.the_row }
{
    grammar_files_cross_threads();
    blame_parsers_cross_threads();
}

fn grammar_files_cross_threads()
    ensures send { IsSend grammar_file.the_row }
    ensures sync { IsSync grammar_file.the_row }
{
    values_cross_threads::<GrammarFile>();
}

fn rejections_cross_threads()
    ensures send { IsSend rejection.the_row }
    ensures sync { IsSync rejection.the_row }
{
    values_cross_threads::<Rejection>();
}

fn matches_cross_threads()
    ensures send { IsSend found.the_row }
    ensures sync { IsSync found.the_row }
{
    values_cross_threads::<Match>();
}

fn explanations_cross_threads()
    ensures send { IsSend explanation.the_row }
    ensures sync { IsSync explanation.the_row }
{
    values_cross_threads::<Explanation>();
}

fn printed_lines_cross_threads()
    ensures send { IsSend printed_line.the_row }
    ensures sync { IsSync printed_line.the_row }
{
    values_cross_threads::<PrintedLine>();
}

fn selecting_parsers_cross_threads()
    ensures send { IsSend selecting_parser.the_row }
    ensures sync { IsSync selecting_parser.the_row }
{
    values_cross_threads::<SelectingParser>();
}

fn blame_parsers_cross_threads()
    ensures send { IsSend blame_parser.the_row }
    ensures sync { IsSync blame_parser.the_row }
{
    values_cross_threads::<BlameParser>();
}

// The same for values of a type with these bounds, which the toolchain decides for each type.
fn values_cross_threads<T: Send + Sync>()
    ensures send { IsSend T.row }
    ensures sync { IsSync T.row }
{}
