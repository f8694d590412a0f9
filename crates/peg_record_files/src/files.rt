//! The records of texts by name.
ghost use Rattle.std.specs.Prelude.{◌≡◌, ◌≢◌, ◌↔◌, ℕ, [], ◌∷◌, List, IfErr, IfSome, IsErrOf, OnOk, false, map, string_bytes, true};
ghost use Rattle.std.specs.List.{flat_map};
ghost use Rattle.peg_io.specs.NamedFile.{IsMissing, bytes_of};
ghost use Rattle.peg_records.specs.Records.{records};
ghost use Rattle.peg_record_files.specs.Faults.{IsFaultAmongTexts, IsFaultOfOpen, IsFaultOfText, IsNoText};
ghost use Rattle.peg_record_files.specs.RecordReplies.{ImpliesReply, WritesReplies};
ghost use Rattle.peg_record_files.specs.Runs.{AreNoLines, IsBetween, LeadsTo, run_settings};
ghost use Rattle.peg_record_files.specs.Streams.{ArePresent, AreStreams};

use crate::fault::{RecordsFault, StreamFault};
use crate::filter::RecordFilter;
use crate::outcome::RecordOutcome;
use crate::printer::RecordPrinter;
use crate::query::RecordsQuery;
use crate::run::RecordRun;
use peg_io::{OpenFault, Opener, Sink, Source};
use std::alloc::Global;
use std::io::ErrorKind;

/// Writes the lines of the records of texts by name, or of an input if no text is named, and returns the worst outcome.
/// Records are numbered from 1 on, from text to text. A stream is read in blocks, and the lines of the records of a
/// block are written at its end.
///
/// A stream may have any length. In memory are a block, the lines of its records, and the start of a record up to the
/// limit of the printer. The first text that can't be opened or read ends it with that fault, as does an input that
/// can't be read, an output that can't be written, and a failed allocation. What is written by then is a part of the
/// lines. `Memory` is returned, too, if there are 2^64 - 1 records, or as many blocks in a stream.
///
/// # Example
///
/// ```
/// let query = RecordsQuery { texts: &names, end: RecordEnd::Line, filter: RecordFilter::Failed };
/// let worst = write_records(alloc, &files, &mut input, &mut output, &printer, &query)?;
/// ```
pub fn write_records<'a, O: Opener, I: Source, W: Sink, P: RecordPrinter>(
    alloc: Global,
    files: &O,
    input: &mut I,
    output: &mut W,
    printer: &mut P,
    query: &RecordsQuery<'a>,
) -> Result<RecordOutcome, RecordsFault<'a>>
    requires reads { I.failed input.old ≡ false }
    requires works { W.failed output.old ≡ false }
    ensures lines { (streams : List (List ℕ)) → AreStreams (O.file_at files.now) (I.left input.old)
        (map string_bytes query.now.texts.now) streams → WritesReplies (P.replies printer.old) query.now.filter query.now.end
        (flat_map (records query.now.end) streams) (W.written output.old) (W.written output.new) result }
    ensures present { OnOk result (ArePresent (O.file_at files.now) (map string_bytes query.now.texts.now)) }
    ensures text { IfErr result (IsFaultAmongTexts (O.file_at files.now) (map string_bytes query.now.texts.now)) }
    ensures input { IsErrOf result RecordsFault.Input ↔ (I.failed input.new ≡ true) }
    ensures output { IsErrOf result RecordsFault.Output ↔ (W.failed output.new ≡ true) }
    ensures unread { query.now.texts.now ≢ [] → input.new ≡ input.old }
    ensures never { I.never_fails input.old ≡ true → I.failed input.new ≡ false }
{
    let mut run = RecordRun::new(alloc, query.end, printer.max_bytes())?;
    write_all(alloc, &mut run, files, input, output, printer, query)?;
    Ok(run.lines.outcome)
}

// Writes the lines of the records of all streams of the query.
fn write_all<'a, O: Opener, I: Source, W: Sink, P: RecordPrinter>(
    alloc: Global,
    run: &mut RecordRun,
    files: &O,
    input: &mut I,
    output: &mut W,
    printer: &mut P,
    query: &RecordsQuery<'a>,
) -> Result<(), RecordsFault<'a>>
    requires limit { run.old.reader.limit ≡ P.max_bytes printer.old }
    requires between { IsBetween run.old }
    requires reads { I.failed input.old ≡ false }
    requires works { W.failed output.old ≡ false }
    ensures leads { (streams : List (List ℕ)) → AreStreams (O.file_at files.now) (I.left input.old)
        (map string_bytes query.now.texts.now) streams → LeadsTo (P.replies printer.old) query.now.filter run.old.reader.end
        (flat_map (records run.old.reader.end) streams) run.old run.new (W.written output.old) (W.written output.new)
        result }
    ensures present { OnOk result (ArePresent (O.file_at files.now) (map string_bytes query.now.texts.now)) }
    ensures text { IfErr result (IsFaultAmongTexts (O.file_at files.now) (map string_bytes query.now.texts.now)) }
    ensures input { IsErrOf result RecordsFault.Input ↔ (I.failed input.new ≡ true) }
    ensures output { IsErrOf result RecordsFault.Output ↔ (W.failed output.new ≡ true) }
    ensures unread { query.now.texts.now ≢ [] → input.new ≡ input.old }
    ensures never { I.never_fails input.old ≡ true → I.failed input.new ≡ false }
{
    if query.texts.is_empty() {
        write_input(alloc, run, input, output, printer, query.filter)
    } else {
        write_texts(alloc, run, files, output, printer, query)
    }
}

// Writes the lines of the records of the input.
fn write_input<'a, I: Source, W: Sink, P: RecordPrinter>(
    alloc: Global,
    run: &mut RecordRun,
    input: &mut I,
    output: &mut W,
    printer: &mut P,
    filter: RecordFilter,
) -> Result<(), RecordsFault<'a>>
    requires limit { run.old.reader.limit ≡ P.max_bytes printer.old }
    requires between { IsBetween run.old }
    requires reads { I.failed input.old ≡ false }
    requires works { W.failed output.old ≡ false }
    ensures leads { IfSome (I.left input.old) (λ stream. LeadsTo (P.replies printer.old) filter run.old.reader.end
        (records run.old.reader.end stream) run.old run.new (W.written output.old) (W.written output.new) result) }
    ensures text { IfErr result IsNoText }
    ensures input { IsErrOf result RecordsFault.Input ↔ (I.failed input.new ≡ true) }
    ensures output { IsErrOf result RecordsFault.Output ↔ (W.failed output.new ≡ true) }
    ensures never { I.never_fails input.old ≡ true → I.failed input.new ≡ false }
{
    match run.write_stream(alloc, printer, filter, input, output) {
        Ok(()) => Ok(()),
        Err(StreamFault::Read) => Err(RecordsFault::Input),
        Err(StreamFault::Write) => Err(RecordsFault::Output),
        Err(StreamFault::Memory) => Err(RecordsFault::Memory),
    }
}

// Writes the lines of the records of the texts that the query names.
fn write_texts<'a, O: Opener, W: Sink, P: RecordPrinter>(
    alloc: Global,
    run: &mut RecordRun,
    files: &O,
    output: &mut W,
    printer: &mut P,
    query: &RecordsQuery<'a>,
) -> Result<(), RecordsFault<'a>>
    requires limit { run.old.reader.limit ≡ P.max_bytes printer.old }
    requires between { IsBetween run.old }
    requires works { W.failed output.old ≡ false }
    ensures leads { (streams : List (List ℕ))
        → map (λ (name : List ℕ). bytes_of (O.file_at files.now name)) (map string_bytes query.now.texts.now)
        ≡ map Some streams → LeadsTo (P.replies printer.old) query.now.filter run.old.reader.end
        (flat_map (records run.old.reader.end) streams) run.old run.new (W.written output.old) (W.written output.new)
        result }
    ensures present { OnOk result (ArePresent (O.file_at files.now) (map string_bytes query.now.texts.now)) }
    ensures text { IfErr result (IsFaultAmongTexts (O.file_at files.now) (map string_bytes query.now.texts.now)) }
    ensures input { ¬ IsErrOf result RecordsFault.Input }
    ensures output { IsErrOf result RecordsFault.Output ↔ (W.failed output.new ≡ true) }
{
    let texts = query.texts;
    'names: for name in texts {
        write_text(alloc, run, files, output, printer, query.filter, name)?;
    }
    Ok(())
}

// Writes the lines of the records of the text with this name.
fn write_text<'a, O: Opener, W: Sink, P: RecordPrinter>(
    alloc: Global,
    run: &mut RecordRun,
    files: &O,
    output: &mut W,
    printer: &mut P,
    filter: RecordFilter,
    name: &'a str,
) -> Result<(), RecordsFault<'a>>
    requires limit { run.old.reader.limit ≡ P.max_bytes printer.old }
    requires between { IsBetween run.old }
    requires works { W.failed output.old ≡ false }
    ensures leads { IfSome (bytes_of (O.file_at files.now name.now)) (λ stream. LeadsTo (P.replies printer.old) filter run.old.reader.end
        (records run.old.reader.end stream) run.old run.new (W.written output.old) (W.written output.new) result) }
    ensures between { OnOk result (IsBetween run.new) }
    ensures settings { run_settings run.new ≡ run_settings run.old }
    ensures present { OnOk result (¬ IsMissing (O.file_at files.now name.now)) }
    ensures text { IfErr result (IsFaultOfText (O.file_at files.now) name.now) }
    ensures output { IsErrOf result RecordsFault.Output ↔ (W.failed output.new ≡ true) }
    ensures printer { ImpliesReply (P.replies printer.new) (P.replies printer.old) }
    ensures limit { P.max_bytes printer.new ≡ P.max_bytes printer.old }
{
    match files.open(name) {
        Ok(mut source) => write_source(alloc, run, &mut source, output, printer, filter, name),
        Err(OpenFault::File { kind }) => Err(RecordsFault::Text { name, kind }),
        Err(OpenFault::Memory) => Err(RecordsFault::Memory),
    }
}

// Writes the lines of the records of the text with this name, which is open.
fn write_source<'a, S: Source, W: Sink, P: RecordPrinter>(
    alloc: Global,
    run: &mut RecordRun,
    source: &mut S,
    output: &mut W,
    printer: &mut P,
    filter: RecordFilter,
    name: &'a str,
) -> Result<(), RecordsFault<'a>>
    requires limit { run.old.reader.limit ≡ P.max_bytes printer.old }
    requires between { IsBetween run.old }
    requires reads { S.failed source.old ≡ false }
    requires works { W.failed output.old ≡ false }
    ensures leads { IfSome (S.left source.old) (λ stream. LeadsTo (P.replies printer.old) filter run.old.reader.end
        (records run.old.reader.end stream) run.old run.new (W.written output.old) (W.written output.new) result) }
    ensures between { OnOk result (IsBetween run.new) }
    ensures settings { run_settings run.new ≡ run_settings run.old }
    ensures text { IfErr result (IsFaultOfOpen name.now (S.never_fails source.old)) }
    ensures output { IsErrOf result RecordsFault.Output ↔ (W.failed output.new ≡ true) }
    ensures printer { ImpliesReply (P.replies printer.new) (P.replies printer.old) }
    ensures limit { P.max_bytes printer.new ≡ P.max_bytes printer.old }
{
    match run.write_stream(alloc, printer, filter, source, output) {
        Ok(()) => Ok(()),
        Err(StreamFault::Read) => {
            let kind = source.fault_kind().unwrap_or(ErrorKind::Other);
            Err(RecordsFault::Text { name, kind })
        }
        Err(StreamFault::Write) => Err(RecordsFault::Output),
        Err(StreamFault::Memory) => Err(RecordsFault::Memory),
    }
}
