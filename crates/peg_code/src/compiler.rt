//! The compiler from core forms to instructions.
ghost use Rattle.std.specs.Prelude.{◌≡◌, ◌↔◌, ◌+◌, ◌<◌, ◌≤◌, length, IfOk, IsErrOf, OnOk};
ghost use Rattle.peg_core.specs.Layout.{bodies_of};
ghost use Rattle.peg_code.specs.Code.{entries_of, program_code};
ghost use Rattle.peg_code.specs.Compiled.{compiled_of, IsTooLarge, max_instructions};
ghost use Rattle.peg_code.specs.Sizes.{AreFormSizes, capped};

use crate::packed_code::PackedCode;
use crate::sizes::{FormSize, form_sizes_of};
use crate::tasks::emit;
use crate::{CodeFault, Instr, Program};
use peg_check::Checked;
use peg_core::Core;
use std::alloc::{AllocError, Global};

/// The maximum number of instructions of a program.
pub const MAX_INSTRUCTIONS: u32 = 1_000_000;

/// Compiles the core forms of a well-formed grammar into a program. The instructions are counted before any is emitted.
/// Takes time and memory linear in the number of core forms and instructions. If the code is too large, both are linear
/// in the number of core forms.
///
/// The error is `CodeTooLarge` if the code has more than `MAX_INSTRUCTIONS` instructions, and `Memory` if an
/// allocation fails.
///
/// # Example
///
/// ```
/// let grammar = Grammar::new(alloc, read(alloc, b"S <- 'a' S / 'b'")?)?;
/// let program = compile(alloc, check(alloc, desugar(alloc, &grammar)?)?)?;
/// assert_eq!((program.len(), program.entry(0)), (7, 1));
/// ```
pub fn compile(alloc: Global, checked: Checked) -> Result<Program, CodeFault>
    ensures program { IfOk result (λ program. program ≡ compiled_of checked.core) }
    ensures within { OnOk result (length (program_code (bodies_of checked.core)) ≤ max_instructions) }

    // Unless an allocation fails, `CodeTooLarge` is returned exactly if there are more instructions than the limit.
    ensures too_large { IsErrOf result CodeFault.CodeTooLarge → IsTooLarge checked.core }
    ensures too_large_where { ¬ IsErrOf result CodeFault.Memory
        → (IsErrOf result CodeFault.CodeTooLarge ↔ IsTooLarge checked.core) }
{
    let form_sizes = form_sizes_of(alloc, checked.core())?;
    let count = instruction_count(checked.core(), &form_sizes);
    if count > MAX_INSTRUCTIONS {
        return Err(CodeFault::CodeTooLarge);
    }
    let Code { instrs, entries } = emit_rules(alloc, checked.core(), &form_sizes, count)?;
    Ok(Program::new(checked, instrs, entries))
}

// The number of instructions of all rules, capped at one more than the limit.
fn instruction_count(core: &Core, form_sizes: &[FormSize]) -> u32
    requires form_sizes { AreFormSizes core.now.forms form_sizes.now }
    ensures { result ≡ capped (length (program_code (bodies_of core.now))) }
{
    let mut total = 1;
    for rule in 0..core.rules() {
        let size = form_sizes[core.body(rule) as usize].size;
        total = (total + size + 1).min(MAX_INSTRUCTIONS + 1);
    }
    total
}

// The instructions, and the first instruction of each rule.
#[derive(Drop)]
struct Code {
    instrs: PackedCode,
    entries: Vec<u32>,
}

// Emits the code of the rules one after the other. Memory for `count` instructions is reserved first.
fn emit_rules(
    alloc: Global,
    core: &Core,
    form_sizes: &[FormSize],
    count: u32,
) -> Result<Code, AllocError>
    requires form_sizes { AreFormSizes core.now.forms form_sizes.now }
    requires few { length (program_code (bodies_of core.now)) ≤ max_instructions }
    ensures code { IfOk result (λ code. code.instrs ≡ program_code (bodies_of core.now)) }
    ensures entries { IfOk result (λ code. code.entries.items ≡ entries_of (bodies_of core.now)) }
{
    let mut instrs = PackedCode::with_capacity(alloc, count as usize)?;
    instrs.push(Instr::End)?;
    let mut entries = Vec::with_capacity(alloc, core.rules() as usize)?;
    for rule in 0..core.rules() {
        entries.push(instrs.len() as u32)?;
        emit(alloc, core, form_sizes, core.body(rule), &mut instrs)?;
        instrs.push(Instr::Ret)?;
    }
    Ok(Code { instrs, entries })
}
