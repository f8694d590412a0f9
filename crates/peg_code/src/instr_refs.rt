//! Instructions as a program lends them.
ghost use Rattle.std.specs.Prelude.{◌≡◌};
ghost use Rattle.peg_code.specs.Instrs.{instruction_of};
ghost use Rattle.peg_code.specs.InstrRefs.{instruction_of_op};

use crate::Instr;
use peg_bytes::ByteSet;

/// An instruction of a program, with the set borrowed from the program. A choice point is the instruction and the
/// position to which the machine backtracks on a failure.
#[derive(Clone, Copy, Debug, PartialEq, Eq)]
pub enum InstrRef<'a> {
    /// Matches one byte of the set, or fails. A failed test is recorded for this terminal.
    Test { set: &'a ByteSet, terminal: u32 },
    /// Calls the rule with this number.
    Call(u32),
    /// Returns from the called rule.
    Ret,
    /// Pushes a choice point with this instruction.
    Choice(u32),
    /// Removes the newest choice point and jumps to this instruction.
    Commit(u32),
    /// Removes the newest choice point, and fails.
    FailTwice,
    /// Ends the run.
    End,
}

impl InstrRef<'_> {
    // Copies the set.
    pub(crate) fn instr(self) -> Instr
        ensures { instruction_of result ≡ instruction_of_op self.entry }
    {
        match self {
            InstrRef::Test { set, terminal } => Instr::Test {
                set: *set,
                terminal,
            },
            InstrRef::Call(rule) => Instr::Call(rule),
            InstrRef::Ret => Instr::Ret,
            InstrRef::Choice(target) => Instr::Choice(target),
            InstrRef::Commit(target) => Instr::Commit(target),
            InstrRef::FailTwice => Instr::FailTwice,
            InstrRef::End => Instr::End,
        }
    }
}
