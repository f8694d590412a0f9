//! Instructions of the parsing machine.
use peg_bytes::ByteSet;

/// An instruction. A choice point is the instruction and the position to which the machine backtracks on a failure.
#[derive(Clone, Copy, Debug, PartialEq, Eq)]
pub enum Instr {
    /// Matches one byte of the set, or fails. A failed test is recorded for this terminal.
    Test { set: ByteSet, terminal: u32 },
    /// Calls the rule with this number.
    Call(u32),
    /// Returns from the called rule.
    Ret,
    /// Pushes a choice point with this instruction.
    Choice(u32),
    /// Removes the newest choice point and jumps to this instruction.
    Commit(u32),
    /// Removes the newest choice point, and fails.
    FailTwice,
    /// Ends the run.
    End,
}
