//! The program of a checked grammar.
ghost use Rattle.std.specs.Prelude.{◌≡◌, ◌<◌, ◌≤◌, All, length, slice_get, Some};
ghost use Rattle.peg_bytes.specs.Extent.{extent};
ghost use Rattle.peg_semantics.specs.Grammar.{max_parts};
ghost use Rattle.peg_core.specs.Layout.{bodies_of};
ghost use Rattle.peg_check.specs.Verdicts.{AreWellFormedIn};
ghost use Rattle.peg_code.specs.Code.{entries_of, program_code};
ghost use Rattle.peg_code.specs.Compiled.{compiled_of, max_instructions, showing};
ghost use Rattle.peg_code.specs.Instrs.{instruction_of};
ghost use Rattle.peg_code.specs.Instructions.{TestFits};
ghost use Rattle.peg_code.specs.InstrRefs.{instruction_of_op};
ghost use Rattle.peg_code.specs.ShownRules.{is_shown_by};

use crate::packed_code::PackedCode;
use crate::{Instr, InstrRef};
use peg_bytes::Span;
use peg_check::Checked;
use peg_core::Core;
use peg_tree::RuleSet;
use std::marker::Model;

/// The code of a well-formed grammar, the core forms that it was compiled from, and the rules that it shows: matches of
/// these have nodes in a tree.
#[derive(Debug, Drop)]
pub struct Program {
    code: PackedCode,
    entries: Vec<u32>,
    checked: Checked,
    shown: Option<RuleSet>,
}

impl Model for Program {
    ghost use Rattle.peg_code.specs.Compiled.{Compiled};
    ghost use Rattle.peg_code.specs.CompiledCode.{compiled_code};

    ghost Value = { Compiled };

    ghost coded = { compiled_code };

    ghost use Rattle.peg_code.specs.Programs.{program_of, IsProgram};

    ghost view = { program_of };

    ghost invariant = { IsProgram };
}

impl Program {
    // Joins core forms and their code.
    pub(crate) fn new(checked: Checked, code: PackedCode, entries: Vec<u32>) -> Program
        requires code { code ≡ program_code (bodies_of checked.core) }
        requires entries { entries.items ≡ entries_of (bodies_of checked.core) }
        requires few { length code ≤ max_instructions }
        requires tests { All (TestFits (length checked.core.spans)) code }
        ensures { result ≡ compiled_of checked.core }
    {
        Program {
            code,
            entries,
            checked,
            shown: None,
        }
    }

    /// Returns the program with a set of rules to show, or with all for `None`. Its runs make no nodes of other rules:
    /// the children of such a node take its place. The root is always shown. A rule beyond the set's size isn't in it.
    pub fn showing(mut self, rules: Option<RuleSet>) -> Program
        ensures { result ≡ showing rules self }
    {
        self.shown = rules;
        self
    }

    /// Returns whether matches of a rule have nodes. Takes constant time.
    #[inline(always)]
    pub fn shows(&self, rule: u32) -> bool
        ensures { result ≡ is_shown_by self.now.shown rule }
    {
        match &self.shown {
            None => true,
            Some(rules) => rules.contains(rule),
        }
    }

    /// Returns the core forms that the program was compiled from. They are well-formed, and the program is the code
    /// that the definition `compiled_of` gives them, whatever rules it shows. Takes constant time.
    pub fn core(&self) -> &Core
        ensures core { result.now ≡ self.now.core }
        ensures layout { self.now ≡ showing self.now.shown (compiled_of self.now.core) }
        ensures well_formed { ∥ AreWellFormedIn (length self.now.core.forms) self.now.core ∥₁ }
    {
        self.checked.core()
    }

    /// Returns the number of instructions. Takes constant time.
    pub fn len(&self) -> u32
        ensures count { result ≡ length self.now.code }
        ensures most { result ≤ max_instructions }
    {
        self.code.len() as u32
    }

    /// Returns the instruction with a number. Takes constant time.
    pub fn instr(&self, pc: u32) -> Instr
        requires { pc < length self.now.code }
        ensures { slice_get self.now.code pc ≡ Some (instruction_of result) }
    {
        self.instr_ref(pc).instr()
    }

    /// Returns the instruction with a number, with its set borrowed from the program. Takes constant time.
    pub fn instr_ref(&self, pc: u32) -> InstrRef<'_>
        requires { pc < length self.now.code }
        ensures instruction { slice_get self.now.code pc ≡ Some (instruction_of_op result) }
        ensures test { TestFits (length self.now.core.spans) (instruction_of_op result) }
    {
        self.code.instr_ref(pc)
    }

    /// Returns the first instruction of a rule. Takes constant time.
    pub fn entry(&self, rule: u32) -> u32
        requires { rule < length self.now.core.bodies }
        ensures number { slice_get self.now.entries rule ≡ Some result }
        ensures within { result < length self.now.code }
    {
        self.entries[rule as usize]
    }

    /// Returns the number of rules. Takes constant time.
    pub fn rules(&self) -> u32
        ensures count { result ≡ length self.now.core.bodies }
        ensures entries { result ≡ length self.now.entries }
        ensures most { result ≤ max_parts }
    {
        self.checked.core().rules()
    }

    /// Returns the number of terminals in the rules. Takes constant time.
    pub fn terminals(&self) -> u32
        ensures count { result ≡ length self.now.core.spans }
        ensures most { result ≤ max_parts }
    {
        self.core().terminals()
    }

    /// Returns the span of a terminal in the grammar file, in byte offsets. Takes constant time.
    pub fn terminal_span(&self, terminal: u32) -> Span
        requires { terminal < length self.now.core.spans }
        ensures { slice_get self.now.core.spans terminal ≡ Some (extent result) }
    {
        self.core().terminal_span(terminal)
    }
}
