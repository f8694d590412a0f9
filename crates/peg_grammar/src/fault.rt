//! Why definitions are rejected.
use peg_bytes::Span;
use std::alloc::{AllocError, AllocFailed};
use thiserror::Error;

/// Why definitions are not a grammar.
#[derive(Debug, Drop, Error)]
pub enum GrammarFault {
    /// There is no definition.
    #[error("there is no rule")]
    NoRule,
    /// Two definitions have the same name. `span` is the name in the first definition that repeats an earlier name.
    #[error("two rules have the same name")]
    Duplicate { name: String, span: Span },
    /// A name is referred to but not defined. `span` is the first such reference.
    #[error("a name that is referred to has no rule")]
    Undefined { name: String, span: Span },
    /// A count is out of range: `min` is over `max`, or `max` is 0. `span` is the first such counted expression, an
    /// expression before its parts.
    #[error("a count is out of range")]
    BadCount { span: Span },
    /// The weight of the grammar is over `MAX_PARTS`.
    #[error("the grammar has too many parts")]
    TooManyParts,
    /// An allocation failed.
    #[error("out of memory")]
    Memory,
}

impl From<AllocError> for GrammarFault {
    ghost use Rattle.std.specs.Prelude.{◌≡◌};
    ghost use Rattle.peg_grammar.specs.declared.fault.GrammarFault.TheVariants.{Memory};

    ghost from_gives = { λ _ fault. fault ≡ Memory };

    fn from(_error: AllocError) -> GrammarFault {
        GrammarFault::Memory
    }
}

impl<T: Drop> From<AllocFailed<T>> for GrammarFault {
    ghost use Rattle.std.specs.Prelude.{◌≡◌};
    ghost use Rattle.peg_grammar.specs.declared.fault.GrammarFault.TheVariants.{Memory};

    ghost from_gives = { λ _ fault. fault ≡ Memory };

    fn from(_error: AllocFailed<T>) -> GrammarFault {
        GrammarFault::Memory
    }
}
