//! Empty loops: stars and pluses whose part may succeed without consuming a byte (Ford 2004, section 3.6).
ghost use Rattle.std.specs.Prelude.{◌≡◌, ◌<◌, ◌≤◌, All, None, length, option_map, IfOk, OnOk, MatchBool, MatchOption};
ghost use Rattle.peg_bytes.specs.Extent.{extent};
ghost use Rattle.peg_core.specs.CoreLoops.{IsSubformOfBody};
ghost use Rattle.peg_core.specs.FormsOfNodes.{AllAreFormsOfNodes};
ghost use Rattle.peg_core.specs.Layout.{bodies_of, form_at};
ghost use Rattle.peg_check.specs.Exact.{IsExactTable};
ghost use Rattle.peg_check.specs.EmptyLoops.{AreFirstLoops, IsLoopFree, IsLoop, loops_of};
ghost use Rattle.peg_check.specs.FirstLoops.{IsFirstCoreLoop, IsFirstInSequence};

use crate::Table;
use peg_bytes::Span;
use peg_core::{Core, Node};
use std::alloc::{AllocError, Global};

/// A star or plus of a rule, and its span in the grammar file.
#[derive(Clone, Copy)]
pub(crate) struct Loop {
    pub(crate) rule: u32,
    pub(crate) span: Span,
}

/// The spans of the first empty loop of a form and, if the form is a star, of the first one in its part.
#[derive(Clone, Copy)]
pub(crate) struct LoopEntry {
    first: Option<Span>,
    in_part: Option<Span>,
}

/// Returns the first empty loop in written order, if there is one. Takes time and memory linear in the number of forms.
pub(crate) fn empty_loop(
    alloc: Global,
    core: &Core,
    table: &Table,
) -> Result<Option<Loop>, AllocError>
    requires { IsExactTable core.now table.now }
    ensures { IfOk result (λ found. MatchOption found (IsLoopFree core.now) (IsLoop core.now)) }
{
    let entries = first_loops(alloc, core, table)?;
    for rule in 0..core.rules() {
        if let Some(span) = entries[core.body(rule) as usize].first {
            return Ok(Some(Loop { rule, span }));
        }
    }
    Ok(None)
}

// The first empty loops of each form. The parts of a form come before it.
fn first_loops(alloc: Global, core: &Core, table: &Table) -> Result<Vec<LoopEntry>, AllocError>
    requires { IsExactTable core.now table.now }
    ensures count { IfOk result (λ entries. length entries.items ≡ length core.now.forms) }
    ensures first { IfOk result (λ entries. AreFirstLoops core.now entries.items) }
    ensures owned { OnOk result (All (IsSubformOfBody (bodies_of core.now)) core.now.forms) }
    ensures spelled { OnOk result (AllAreFormsOfNodes core.now) }
{
    let mut entries = Vec::new(alloc);
    for number in 0..core.len() {
        entries.push(first_loop(core, table, &entries, number))?;
    }
    Ok(entries)
}

// The first empty loops of a form, from those of its parts.
fn first_loop(core: &Core, table: &Table, entries: &[LoopEntry], number: u32) -> LoopEntry
    requires table { IsExactTable core.now table.now }
    requires entries { AreFirstLoops core.now entries.now }
    requires within { number < length core.now.forms }
    requires parts { number ≤ length entries.now }
    ensures { IsFirstCoreLoop (bodies_of core.now) (form_at core.now.forms number) (loops_of result) }
{
    match core.node(number) {
        Node::Empty | Node::Test { .. } | Node::Rule(_) => not_star(None),
        Node::Seq(one, rest) => first_in_sequence(entries[one as usize], entries[rest as usize]),
        Node::Choice(one, rest) => not_star(
            entries[one as usize].first.or(entries[rest as usize].first),
        ),
        Node::Star(part) => {
            let in_part = entries[part as usize].first;
            let first = if table.of(part).nothing {
                Some(core.origin(number))
            } else {
                in_part
            };
            LoopEntry { first, in_part }
        }
        Node::Not(part) => not_star(entries[part as usize].first),
    }
}

// The entry of a form that is no star.
fn not_star(first: Option<Span>) -> LoopEntry
    ensures { loops_of result ≡ record { first = option_map extent first; in_part = None } }
{
    LoopEntry {
        first,
        in_part: None,
    }
}

// The first empty loop of a sequence. The core form of `e+` is `e e*`, and the plus is written before its part.
fn first_in_sequence(one: LoopEntry, rest: LoopEntry) -> LoopEntry
    ensures { IsFirstInSequence (loops_of one) (loops_of rest) (loops_of result) }
{
    if is_same(rest.in_part, one.first) {
        not_star(rest.first)
    } else {
        not_star(one.first.or(rest.first))
    }
}

fn is_same(one: Option<Span>, other: Option<Span>) -> bool
    ensures { MatchBool result (option_map extent one ≡ option_map extent other)
        (¬ (option_map extent one ≡ option_map extent other)) }
{
    match (one, other) {
        (None, None) => true,
        (Some(one), Some(other)) => one.start == other.start && one.end == other.end,
        _ => false,
    }
}
