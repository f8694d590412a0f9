//! Explains the texts that a list names. The list is read in pieces.
ghost use Rattle.std.specs.Prelude.{◌≡◌, ◌∷◌, ◌++◌, [], false, IfErr, IfOk, OnOk, option_map, vec_len};
ghost use Rattle.std.specs.List.{filter};
ghost use Rattle.peg_explain_files.specs.Listings.{AddsFault, IsListingFrom, LeadsByBytes};
ghost use Rattle.peg_explain_files.specs.Listings.{LeadsByListing, LeadsBySource};
ghost use Rattle.peg_explain_files.specs.Names.{IsInput, IsListingOf, is_nonempty, list_file};
ghost use Rattle.peg_explain_files.specs.Printings.{has_write_failed};
ghost use Rattle.peg_explain_files.specs.Progress.{Leads, progress_of};
ghost use Rattle.peg_explain_files.specs.Tasks.{HasStart, IsMadeFor, setting_of};

use crate::ended::ExplainFault;
use crate::entry::Entry;
use crate::reports::TextReport;
use crate::task::{Run, Task, explain_name};
use peg_io::{OpenFault, Opener, Sink, Source};
use std::alloc::{AllocError, Global};

// The greatest number of bytes that are read of a list. No file has more: it is the greatest offset of a file.
const MAX_LIST_BYTES: usize = 9_223_372_036_854_775_807;

// The size of the pieces in which a list is read, in bytes.
const PIECE_BYTES: usize = 65_536;

/// How the reading of a list ends.
#[derive(Clone, Copy, Debug, PartialEq, Eq)]
pub(crate) enum ListEnd {
    /// It is read to its end.
    Whole,
    /// A read fails.
    Broken,
}

/// Explains the texts that the list of the query names, if there is one. The list `-` is the input. In memory are a
/// piece of the list, one name, and one text.
pub(crate) fn explain_list<'a, O: Opener, I: Source, W: Sink>(
    alloc: Global,
    task: &Task<'a, O>,
    run: &mut Run<'a>,
    input: &mut I,
    output: &mut W,
) -> Result<(), ExplainFault>
    requires made { IsMadeFor task.now run.old.explainer }
    requires reads { I.failed input.old ≡ false }
    requires works { W.failed output.old ≡ false }
    ensures leads { HasStart task.now → LeadsByListing (IsListingOf (list_file (O.file_at task.now.files.now)
        (I.left input.old) (option_map (λ name. name.now) task.now.query.now.list)))
        (setting_of (O.file_at task.now.files.now) task.now) (progress_of (W.written output.old) run.old.ended)
        (progress_of (W.written output.new) run.new.ended) result }
    ensures failed { W.failed output.new ≡ has_write_failed result }
    ensures unread { ¬ IsInput (option_map (λ name. name.now) task.now.query.now.list) → input.new ≡ input.old }
{
    match task.query.list {
        None => Ok(()),
        Some("-") => explain_listed(alloc, task, run, input, output),
        Some(name) => match task.files.open(name) {
            Ok(mut source) => explain_listed(alloc, task, run, &mut source, output),
            Err(OpenFault::File { .. }) => add_fault(alloc, task, run, TextReport::Unopened),
            Err(OpenFault::Memory) => Err(ExplainFault::Memory),
        },
    }
}

// Explains the texts that this list names, and adds the fault of a list that can't be read.
fn explain_listed<'a, O: Opener, S: Source, W: Sink>(
    alloc: Global,
    task: &Task<'a, O>,
    run: &mut Run<'a>,
    list: &mut S,
    output: &mut W,
) -> Result<(), ExplainFault>
    requires made { IsMadeFor task.now run.old.explainer }
    requires reads { S.failed list.old ≡ false }
    requires works { W.failed output.old ≡ false }
    ensures leads { HasStart task.now → LeadsByListing (IsListingFrom (S.left list.old) (S.never_fails list.old))
        (setting_of (O.file_at task.now.files.now) task.now) (progress_of (W.written output.old) run.old.ended)
        (progress_of (W.written output.new) run.new.ended) result }
    ensures failed { W.failed output.new ≡ has_write_failed result }
{
    match explain_source(alloc, task, run, list, output)? {
        ListEnd::Whole => Ok(()),
        ListEnd::Broken => add_fault(alloc, task, run, TextReport::Unreadable),
    }
}

// Adds what is reported of the list itself. The only error is a failed allocation.
fn add_fault<'a, O>(
    alloc: Global,
    task: &Task<'a, O>,
    run: &mut Run<'a>,
    report: TextReport,
) -> Result<(), ExplainFault>
    ensures added { OnOk result (AddsFault task.now report run.old.ended run.new.ended) }
    ensures memory { IfErr result (λ fault. fault ≡ ExplainFault.Memory) }
{
    let name = task.query.list.unwrap_or("").as_bytes();
    let entry = Entry { name, report };
    run.ended.add(alloc, &entry, task.printing)?;
    Ok(())
}

// Explains the texts that a list names, and returns how the reading of the list ends.
fn explain_source<'a, O: Opener, S: Source, W: Sink>(
    alloc: Global,
    task: &Task<'a, O>,
    run: &mut Run<'a>,
    list: &mut S,
    output: &mut W,
) -> Result<ListEnd, ExplainFault>
    requires made { IsMadeFor task.now run.old.explainer }
    requires reads { S.failed list.old ≡ false }
    requires works { W.failed output.old ≡ false }
    ensures leads { HasStart task.now → LeadsBySource (S.left list.old) (S.never_fails list.old)
        (setting_of (O.file_at task.now.files.now) task.now) (progress_of (W.written output.old) run.old.ended)
        (progress_of (W.written output.new) run.new.ended) result }
    ensures failed { W.failed output.new ≡ has_write_failed result }
{
    let mut buffer = new_piece(alloc)?;
    let piece = buffer.as_mut_slice();
    let mut carried = Vec::new(alloc);
    let mut read = 0;
    'reads: while read < MAX_LIST_BYTES {
        let room = piece.len().min(MAX_LIST_BYTES - read);
        let count = match list.read(&mut piece[..room]) {
            Ok(0) => return explain_last(alloc, task, run, output, &carried),
            Ok(count) => count,
            Err(_) => return Ok(ListEnd::Broken),
        };
        explain_bytes(alloc, task, run, output, &piece[..count], &mut carried)?;
        read += count;
    }
    explain_last(alloc, task, run, output, &carried)
}

// Allocates a piece of a list.
fn new_piece(alloc: Global) -> Result<Vec<u8>, AllocError>
    ensures { IfOk result (λ piece. vec_len piece ≡ 65536) }
{
    vec![in alloc; 0u8; PIECE_BYTES]
}

// Explains the text that the last part of a list names; it needs no end.
fn explain_last<'a, O: Opener, W: Sink>(
    alloc: Global,
    task: &Task<'a, O>,
    run: &mut Run<'a>,
    output: &mut W,
    part: &[u8],
) -> Result<ListEnd, ExplainFault>
    requires made { IsMadeFor task.now run.old.explainer }
    requires works { W.failed output.old ≡ false }
    ensures leads { HasStart task.now → Leads (setting_of (O.file_at task.now.files.now) task.now)
        (filter is_nonempty (part.now ∷ [])) (progress_of (W.written output.old) run.old.ended)
        (progress_of (W.written output.new) run.new.ended) result }
    ensures whole { IfOk result (λ end. end ≡ ListEnd.Whole) }
    ensures failed { W.failed output.new ≡ has_write_failed result }
{
    explain_part(alloc, task, run, output, part)?;
    Ok(ListEnd::Whole)
}

// Explains the texts whose names end in these bytes of a list. The start of a name is carried to the next bytes.
fn explain_bytes<'a, O: Opener, W: Sink>(
    alloc: Global,
    task: &Task<'a, O>,
    run: &mut Run<'a>,
    output: &mut W,
    bytes: &[u8],
    carried: &mut Vec<u8>,
) -> Result<(), ExplainFault>
    requires made { IsMadeFor task.now run.old.explainer }
    requires works { W.failed output.old ≡ false }
    ensures made { OnOk result (IsMadeFor task.now run.new.explainer) }
    ensures leads { HasStart task.now → LeadsByBytes (setting_of (O.file_at task.now.files.now) task.now) bytes.now
        carried.old.items carried.new.items (progress_of (W.written output.old) run.old.ended)
        (progress_of (W.written output.new) run.new.ended) result }
    ensures failed { W.failed output.new ≡ has_write_failed result }
{
    'bytes: for byte in bytes {
        explain_byte(alloc, task, run, output, *byte, carried)?;
    }
    Ok(())
}

// Explains the text whose name ends at this byte of a list, or carries the byte.
fn explain_byte<'a, O: Opener, W: Sink>(
    alloc: Global,
    task: &Task<'a, O>,
    run: &mut Run<'a>,
    output: &mut W,
    byte: u8,
    carried: &mut Vec<u8>,
) -> Result<(), ExplainFault>
    requires made { IsMadeFor task.now run.old.explainer }
    requires works { W.failed output.old ≡ false }
    ensures made { OnOk result (IsMadeFor task.now run.new.explainer) }
    ensures leads { HasStart task.now → LeadsByBytes (setting_of (O.file_at task.now.files.now) task.now) (byte ∷ [])
        carried.old.items carried.new.items (progress_of (W.written output.old) run.old.ended)
        (progress_of (W.written output.new) run.new.ended) result }
    ensures failed { W.failed output.new ≡ has_write_failed result }
{
    if byte == task.query.end.byte() {
        explain_part(alloc, task, run, output, carried)?;
        carried.clear();
        return Ok(());
    }
    push_byte(carried, byte)?;
    Ok(())
}

// Appends a byte.
fn push_byte(bytes: &mut Vec<u8>, byte: u8) -> Result<(), AllocError>
    ensures { OnOk result (bytes.new.items ≡ bytes.old.items ++ byte ∷ []) }
{
    bytes.push(byte)?;
    Ok(())
}

// Explains the text with this name, unless it is empty.
fn explain_part<'a, O: Opener, W: Sink>(
    alloc: Global,
    task: &Task<'a, O>,
    run: &mut Run<'a>,
    output: &mut W,
    part: &[u8],
) -> Result<(), ExplainFault>
    requires made { IsMadeFor task.now run.old.explainer }
    requires works { W.failed output.old ≡ false }
    ensures made { OnOk result (IsMadeFor task.now run.new.explainer) }
    ensures leads { HasStart task.now → Leads (setting_of (O.file_at task.now.files.now) task.now)
        (filter is_nonempty (part.now ∷ [])) (progress_of (W.written output.old) run.old.ended)
        (progress_of (W.written output.new) run.new.ended) result }
    ensures failed { W.failed output.new ≡ has_write_failed result }
{
    if part.is_empty() {
        return Ok(());
    }
    explain_name(alloc, task, run, output, part)
}
