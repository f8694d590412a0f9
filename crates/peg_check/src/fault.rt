//! Why a grammar isn't well-formed.
use peg_bytes::Span;
use std::alloc::{AllocError, AllocFailed};
use thiserror::Error;

/// Why the core forms of a grammar aren't all well-formed (Ford 2004, section 3.6).
#[derive(Debug, Drop, Error)]
pub enum CheckFault {
    /// A star or plus of this rule, at this span of the grammar file, has a part that may succeed without consuming a
    /// byte. It could loop forever.
    #[error("the part of a star or plus may succeed without consuming a byte")]
    EmptyLoop { rule: u32, span: Span },
    /// There is no such loop, but rules call each other, or one calls itself, before a byte is consumed. Each rule of
    /// `path` is left-called by the one before it, and the first by the last. No rule occurs twice.
    #[error("rules call one another before a byte is consumed")]
    LeftRecursion { path: Vec<u32> },
    /// An allocation failed.
    #[error("out of memory")]
    Memory,
}

impl From<AllocError> for CheckFault {
    ghost use Rattle.std.specs.Prelude.{◌≡◌};
    ghost use Rattle.peg_check.specs.declared.fault.CheckFault.TheVariants.{Memory};

    ghost from_gives = { λ _ fault. fault ≡ Memory };

    fn from(_error: AllocError) -> CheckFault {
        CheckFault::Memory
    }
}

impl<T: Drop> From<AllocFailed<T>> for CheckFault {
    ghost use Rattle.std.specs.Prelude.{◌≡◌};
    ghost use Rattle.peg_check.specs.declared.fault.CheckFault.TheVariants.{Memory};

    ghost from_gives = { λ _ fault. fault ≡ Memory };

    fn from(_error: AllocFailed<T>) -> CheckFault {
        CheckFault::Memory
    }
}
