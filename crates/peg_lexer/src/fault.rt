//! Why a grammar file could not be split into tokens.
use std::alloc::{AllocError, AllocFailed};
use thiserror::Error;

/// Why a grammar file could not be split into tokens.
#[derive(Clone, Copy, Debug, PartialEq, Eq, Error)]
pub enum LexFault {
    /// The file has more than `MAX_FILE_BYTES` bytes.
    #[error("the grammar file is too long")]
    FileTooLong,
    /// No token begins at byte offset `at`, after spacing, although the file continues there.
    #[error("no token begins at byte {at} of the grammar file")]
    Syntax { at: u32 },
    /// An allocation failed.
    #[error("out of memory")]
    Memory,
}

impl From<AllocError> for LexFault {
    ghost use Rattle.std.specs.Prelude.{◌≡◌};
    ghost use Rattle.peg_lexer.specs.declared.fault.LexFault.TheVariants.{Memory};

    ghost from_gives = { λ _ fault. fault ≡ Memory };

    fn from(_error: AllocError) -> LexFault {
        LexFault::Memory
    }
}

impl<T: Drop> From<AllocFailed<T>> for LexFault {
    ghost use Rattle.std.specs.Prelude.{◌≡◌};
    ghost use Rattle.peg_lexer.specs.declared.fault.LexFault.TheVariants.{Memory};

    ghost from_gives = { λ _ fault. fault ≡ Memory };

    fn from(_error: AllocFailed<T>) -> LexFault {
        LexFault::Memory
    }
}
