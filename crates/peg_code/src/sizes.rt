//! The sizes of the code of core forms, computed before any code is emitted.
ghost use Rattle.std.specs.Prelude.{◌≡◌, ◌+◌, ◌<◌, ◌≤◌, length, IfOk, OnOk};
ghost use Rattle.peg_core.specs.Layout.{form_at};
ghost use Rattle.peg_code.specs.Compiled.{max_instructions};
ghost use Rattle.peg_code.specs.Sizes.{AreFormSizes, AreFormSizesSoFar, capped, IsFormSize, TestsFit, TestsFitSoFar};

use crate::MAX_INSTRUCTIONS;
use peg_core::{Core, Node};
use std::alloc::{AllocError, Global};

/// The size of a core form's code, and the form to emit in its place. The size is in instructions, capped at one more
/// than the limit. The form to emit has the same code, and is no sequence with an empty part. So emitting code takes a
/// number of steps linear in the number of instructions.
#[derive(Clone, Copy)]
pub(crate) struct FormSize {
    pub(crate) size: u32,
    pub(crate) form: u32,
}

/// Returns the plan of each form. Takes time and memory linear in the number of forms.
pub(crate) fn form_sizes_of(alloc: Global, core: &Core) -> Result<Vec<FormSize>, AllocError>
    ensures form_sizes { IfOk result (λ form_sizes. AreFormSizes core.now.forms form_sizes.items) }
    ensures tests { OnOk result (TestsFitSoFar (length core.now.spans) core.now.forms (length core.now.forms)) }
{
    let mut form_sizes = Vec::with_capacity(alloc, core.len() as usize)?;
    for number in 0..core.len() {
        let form_size = form_size_of(core, number, &form_sizes);
        form_sizes.push(form_size)?;
    }
    Ok(form_sizes)
}

// The plan of a form, from the plans of the forms before it.
fn form_size_of(core: &Core, number: u32, form_sizes: &[FormSize]) -> FormSize
    requires within { number < length core.now.forms }
    requires next { number ≡ length form_sizes.now }
    requires form_sizes { AreFormSizesSoFar core.now.forms form_sizes.now }
    ensures form_size { IsFormSize core.now.forms number result }
    ensures tests { TestsFitSoFar (length core.now.spans) core.now.forms number
        → TestsFit (length core.now.spans) (form_at core.now.forms number) }
{
    match core.node(number) {
        Node::Empty => own_size(number, 0),
        Node::Test { .. } | Node::Rule(_) => own_size(number, 1),
        Node::Seq(first, rest) => {
            sequence_size(
                number,
                form_sizes[first as usize],
                form_sizes[rest as usize],
            )
        }
        Node::Choice(first, rest) => own_size(
            number,
            form_sizes[first as usize].size + form_sizes[rest as usize].size + 2,
        ),
        Node::Star(part) | Node::Not(part) => own_size(number, form_sizes[part as usize].size + 2),
    }
}

// The plan of a form that is emitted itself.
fn own_size(number: u32, size: u32) -> FormSize
    ensures size { result.size ≡ capped size }
    ensures form { result.form ≡ number }
{
    FormSize {
        size: size.min(MAX_INSTRUCTIONS + 1),
        form: number,
    }
}

// The plan of a sequence. If a part has no code, the other part is emitted instead.
fn sequence_size(number: u32, first: FormSize, rest: FormSize) -> FormSize
    requires first { first.size ≤ max_instructions + 1 }
    requires rest { rest.size ≤ max_instructions + 1 }
    ensures size { result.size ≡ capped (first.size + rest.size) }
    ensures empty_first { first.size ≡ 0 → result.form ≡ rest.form }
    ensures empty_rest { 0 < first.size → rest.size ≡ 0 → result.form ≡ first.form }
    ensures full { 0 < first.size → 0 < rest.size → result.form ≡ number }
{
    if first.size == 0 {
        rest
    } else if rest.size == 0 {
        first
    } else {
        own_size(number, first.size + rest.size)
    }
}
