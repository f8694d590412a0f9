//! Why a grammar file can't be read.
use peg_lexer::LexFault;
use std::alloc::{AllocError, AllocFailed};
use thiserror::Error;

/// Why a grammar file can't be read. All positions are byte offsets from 0.
#[derive(Clone, Copy, Debug, PartialEq, Eq, Error)]
pub enum NotationFault {
    /// The file has more than `MAX_FILE_BYTES` bytes.
    #[error("the grammar file is too long")]
    FileTooLong,
    /// The file isn't in the notation. Either no token starts at this offset, or no file of the notation begins with
    /// the tokens up to the one at this offset. The offset is the file's length if the file ends too early.
    #[error("the grammar file isn't in the notation, at byte {at}")]
    Syntax { at: u32 },
    /// The parenthesis at this offset is the first that opens while `MAX_OPEN` are open.
    #[error("too many parentheses are open at byte {at} of the grammar file")]
    TooNested { at: u32 },
    /// The count at this offset is used as a suffix and is out of range. Its minimum is greater than its maximum, or
    /// its maximum is not from 1 to 255.
    #[error("the count at byte {at} of the grammar file is out of range")]
    BadCount { at: u32 },
    /// An allocation failed.
    #[error("out of memory")]
    Memory,
}

impl From<AllocError> for NotationFault {
    ghost use Rattle.std.specs.Prelude.{◌≡◌};
    ghost use Rattle.peg_notation.specs.declared.fault.NotationFault.TheVariants.{Memory};

    ghost from_gives = { λ _ fault. fault ≡ Memory };

    fn from(_error: AllocError) -> NotationFault {
        NotationFault::Memory
    }
}

impl<T: Drop> From<AllocFailed<T>> for NotationFault {
    ghost use Rattle.std.specs.Prelude.{◌≡◌};
    ghost use Rattle.peg_notation.specs.declared.fault.NotationFault.TheVariants.{Memory};

    ghost from_gives = { λ _ fault. fault ≡ Memory };

    fn from(_error: AllocFailed<T>) -> NotationFault {
        NotationFault::Memory
    }
}

impl From<LexFault> for NotationFault {
    ghost use Rattle.std.specs.Prelude.{◌≡◌};
    ghost use Rattle.peg_notation.specs.Reads.{fault_of};

    ghost from_gives = { λ lexing fault. fault ≡ fault_of lexing };

    fn from(fault: LexFault) -> NotationFault {
        match fault {
            LexFault::FileTooLong => NotationFault::FileTooLong,
            LexFault::Syntax { at } => NotationFault::Syntax { at },
            LexFault::Memory => NotationFault::Memory,
        }
    }
}
