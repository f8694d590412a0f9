//! Why a run has no answer.
use std::alloc::AllocError;
use thiserror::Error;

/// Why a run ended without an answer.
#[derive(Clone, Copy, Debug, PartialEq, Eq, Error)]
pub enum RunFault {
    /// The text has more than `MAX_TEXT_BYTES` bytes.
    #[error("the text is too long")]
    TextTooLong,
    /// The parse needs more steps than the limit allows.
    #[error("the limit of steps is reached")]
    StepLimit,
    /// Out of memory.
    #[error("out of memory")]
    Memory,
}

impl From<AllocError> for RunFault {
    ghost use Rattle.std.specs.Prelude.{◌≡◌};
    ghost use Rattle.peg_machine.specs.declared.fault.RunFault.TheVariants.{Memory};

    ghost from_gives = { λ _ fault. fault ≡ Memory };

    fn from(_error: AllocError) -> RunFault {
        RunFault::Memory
    }
}
