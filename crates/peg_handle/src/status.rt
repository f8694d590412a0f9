//! The statuses of calls, as in the header of the C library.
ghost use Rattle.std.specs.Prelude.{◌≡◌, ◌≢◌, ◌≤◌, ◌↔◌};

use peg_parser::ParseFault;

/// The call succeeded; of a parse, a prefix of the text matched.
pub const DONE: u32 = 0;
/// No prefix of the text matched.
pub const FAILED: u32 = 1;
/// The grammar file is rejected.
pub const REFUSED: u32 = 2;
/// No rule has the name of the start.
pub const NO_SUCH_START: u32 = 3;
/// The handle is null, or it holds something else.
pub const WRONG_HANDLE: u32 = 4;
/// An allocation failed.
pub const OUT_OF_MEMORY: u32 = 5;
/// The parse takes more steps than the limit allows.
pub const STEP_LIMIT: u32 = 6;
/// The text has more than 67,108,864 bytes.
pub const TEXT_TOO_LONG: u32 = 7;
/// A rule number or an offset is out of range.
pub const OUT_OF_RANGE: u32 = 8;
/// No rule has the name.
pub const NO_SUCH_RULE: u32 = 9;

// The status of a parse that has no answer.
pub(crate) fn fault_status(fault: ParseFault) -> u32
    ensures no_start { (result ≡ NO_SUCH_START) ↔ (fault ≡ ParseFault.NoSuchStart) }
    ensures memory { (result ≡ OUT_OF_MEMORY) ↔ (fault ≡ ParseFault.Memory) }
    ensures limit { (result ≡ STEP_LIMIT) ↔ (fault ≡ ParseFault.StepLimit) }
    ensures long { (result ≡ TEXT_TOO_LONG) ↔ (fault ≡ ParseFault.TextTooLong) }
    ensures least { NO_SUCH_START ≤ result }
    ensures greatest { result ≤ TEXT_TOO_LONG }
    ensures right_handle { result ≢ WRONG_HANDLE }
{
    match fault {
        ParseFault::NoSuchStart => NO_SUCH_START,
        ParseFault::Memory => OUT_OF_MEMORY,
        ParseFault::StepLimit => STEP_LIMIT,
        ParseFault::TextTooLong => TEXT_TOO_LONG,
    }
}
