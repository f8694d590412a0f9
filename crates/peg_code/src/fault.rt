//! Why a grammar has no program.
use std::alloc::AllocError;
use thiserror::Error;

/// Why the core forms of a well-formed grammar can't be compiled.
#[derive(Debug, Drop, Error)]
pub enum CodeFault {
    /// The code has more than `MAX_INSTRUCTIONS` instructions.
    #[error("the code is too large")]
    CodeTooLarge,
    /// An allocation failed.
    #[error("out of memory")]
    Memory,
}

impl From<AllocError> for CodeFault {
    ghost use Rattle.std.specs.Prelude.{◌≡◌};
    ghost use Rattle.peg_code.specs.declared.fault.CodeFault.TheVariants.{Memory};

    ghost from_gives = { λ _ fault. fault ≡ Memory };

    fn from(_error: AllocError) -> CodeFault {
        CodeFault::Memory
    }
}
