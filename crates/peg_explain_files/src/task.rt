//! Explains texts by a grammar, one after the other.
ghost use Rattle.std.specs.Prelude.{◌≡◌, ◌∷◌, [], false, IfOk, OnOk, map, string_bytes};
ghost use Rattle.peg_explain.specs.Explainers.{IsExplainerOf};
ghost use Rattle.peg_parser.specs.Parser.{parser_rules};
ghost use Rattle.peg_explain_files.specs.Printings.{has_write_failed};
ghost use Rattle.peg_explain_files.specs.Progress.{Leads, progress_of};
ghost use Rattle.peg_explain_files.specs.Tasks.{HasStart, IsMadeFor, setting_of};

use crate::ended::{Ended, ExplainFault, Verdict};
use crate::entry::Entry;
use crate::printing::{Printing, write_entry};
use crate::query::Query;
use crate::reports::report_of_name;
use peg_explain::Explainer;
use peg_io::{Opener, Sink};
use peg_parser::Parser;
use std::alloc::{AllocError, Global};

/// What explains the texts of a query: the files by name, the grammar file and its parser.
#[derive(Drop)]
pub(crate) struct Task<'a, O> {
    pub(crate) files: &'a O,
    pub(crate) file: &'a [u8],
    pub(crate) parser: &'a Parser,
    pub(crate) query: &'a Query<'a>,
    pub(crate) printing: Printing,
}

/// How far the texts are explained. The grammar of explanations is large, so it is made for the first text.
#[derive(Drop)]
pub(crate) struct Run<'a> {
    explainer: Option<Explainer<'a>>,
    pub(crate) ended: Ended,
}

impl<'a> Run<'a> {
    ghost use Rattle.std.specs.Prelude.{◌≡◌, [], None, string_bytes};

    /// Returns a run of which no text is explained.
    pub(crate) fn new(alloc: Global) -> Run<'a>
        ensures explainer { result.explainer ≡ None }
        ensures faults { string_bytes result.ended.faults ≡ [] }
        ensures verdict { result.ended.verdict ≡ Verdict.Matches }
    {
        Run {
            explainer: None,
            ended: Ended {
                faults: String::new(alloc),
                verdict: Verdict::Matches,
            },
        }
    }

    /// Returns how the run ends.
    pub(crate) fn into_ended(self) -> Ended
        ensures { result ≡ self.entry.ended }
    {
        let Run { ended, .. } = self;
        ended
    }
}

/// Explains the texts that the query names, in order, and writes their messages.
pub(crate) fn explain_texts<'a, O: Opener, W: Sink>(
    alloc: Global,
    task: &Task<'a, O>,
    run: &mut Run<'a>,
    output: &mut W,
) -> Result<(), ExplainFault>
    requires made { IsMadeFor task.now run.old.explainer }
    requires works { W.failed output.old ≡ false }
    ensures made { OnOk result (IsMadeFor task.now run.new.explainer) }
    ensures leads { HasStart task.now → Leads (setting_of (O.file_at task.now.files.now) task.now)
        (map string_bytes task.now.query.now.texts.now) (progress_of (W.written output.old) run.old.ended)
        (progress_of (W.written output.new) run.new.ended) result }
    ensures failed { W.failed output.new ≡ has_write_failed result }
{
    let texts = task.query.texts;
    'texts: for text in texts {
        explain_name(alloc, task, run, output, text.as_bytes())?;
    }
    Ok(())
}

/// Explains the text with this name, which may be any bytes, and writes its message.
pub(crate) fn explain_name<'a, O: Opener, W: Sink>(
    alloc: Global,
    task: &Task<'a, O>,
    run: &mut Run<'a>,
    output: &mut W,
    name: &[u8],
) -> Result<(), ExplainFault>
    requires made { IsMadeFor task.now run.old.explainer }
    requires works { W.failed output.old ≡ false }
    ensures made { OnOk result (IsMadeFor task.now run.new.explainer) }
    ensures leads { HasStart task.now → Leads (setting_of (O.file_at task.now.files.now) task.now) (name.now ∷ [])
        (progress_of (W.written output.old) run.old.ended) (progress_of (W.written output.new) run.new.ended) result }
    ensures failed { W.failed output.new ≡ has_write_failed result }
{
    let explainer = take_explainer(alloc, task, run)?;
    let report = report_of_name(alloc, task.files, &explainer, name, &task.query.options)?;
    run.explainer = Some(explainer);
    let entry = Entry { name, report };
    run.ended.add(alloc, &entry, task.printing)?;
    write_entry(alloc, output, &entry, task.printing)
}

// Takes the explainer out of a run, or makes it for the first text.
fn take_explainer<'a, O>(
    alloc: Global,
    task: &Task<'a, O>,
    run: &mut Run<'a>,
) -> Result<Explainer<'a>, AllocError>
    requires { IsMadeFor task.now run.old.explainer }
    ensures made { IfOk result (IsExplainerOf task.now.file.now (parser_rules task.now.parser.now)) }
    ensures styled { IfOk result (λ explainer. explainer.style ≡ task.now.query.now.style) }
    ensures unchanged { run.new.ended ≡ run.old.ended }
{
    match run.explainer.take() {
        Some(explainer) => Ok(explainer),
        None => Explainer::new(alloc, task.file, task.parser, task.query.style),
    }
}
