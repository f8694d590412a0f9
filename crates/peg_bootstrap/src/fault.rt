//! Why a tree denotes no definitions.
use std::alloc::{AllocError, AllocFailed};
use thiserror::Error;

/// Why a metagrammar tree denotes no definitions.
#[derive(Clone, Copy, Debug, PartialEq, Eq, Error)]
pub enum DefinitionsFault {
    /// More than `MAX_OPEN` parentheses are open at once.
    #[error("the grammar's parentheses nest too deep")]
    TooNested,
    /// The first count that is out of range starts at this byte offset. Its maximum is 0 or more than 255, or its
    /// minimum is greater than its maximum.
    #[error("the count at byte {at} of the grammar file is out of range")]
    BadCount { at: u32 },
    /// An allocation failed.
    #[error("out of memory")]
    Memory,
}

impl From<AllocError> for DefinitionsFault {
    ghost use Rattle.std.specs.Prelude.{◌≡◌};
    ghost use Rattle.peg_bootstrap.specs.declared.fault.DefinitionsFault.TheVariants.{Memory};

    ghost from_gives = { λ _ fault. fault ≡ Memory };

    fn from(_error: AllocError) -> DefinitionsFault {
        DefinitionsFault::Memory
    }
}

impl<T: Drop> From<AllocFailed<T>> for DefinitionsFault {
    ghost use Rattle.std.specs.Prelude.{◌≡◌};
    ghost use Rattle.peg_bootstrap.specs.declared.fault.DefinitionsFault.TheVariants.{Memory};

    ghost from_gives = { λ _ fault. fault ≡ Memory };

    fn from(_error: AllocFailed<T>) -> DefinitionsFault {
        DefinitionsFault::Memory
    }
}
