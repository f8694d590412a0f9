//! Why a grammar has no parser of blame.
use peg_grammar::GrammarFault;
use std::alloc::AllocError;
use thiserror::Error;

/// Why a grammar has no parser of blame. The limits are those of grammars and of code. They apply to the diagnostic
/// grammar, which has each rule twice.
#[derive(Clone, Copy, Debug, PartialEq, Eq, Error)]
pub enum BlameFault {
    /// The grammar isn't well-formed.
    #[error("the grammar isn't well-formed")]
    NotWellFormed,
    /// The name of a rule contains an exclamation mark. No identifier does.
    #[error("the name of a rule contains an exclamation mark")]
    MarkedName,
    /// The weight of the diagnostic grammar is over `MAX_PARTS`.
    #[error("the diagnostic grammar has too many parts")]
    TooManyParts,
    /// The code of the diagnostic grammar has more than 1,000,000 instructions.
    #[error("the code of the diagnostic grammar is too large")]
    CodeTooLarge,
    /// Out of memory.
    #[error("out of memory")]
    Memory,
}

impl From<AllocError> for BlameFault {
    ghost use Rattle.std.specs.Prelude.{◌≡◌};
    ghost use Rattle.peg_blame.specs.declared.fault.BlameFault.TheVariants.{Memory};

    ghost from_gives = { λ _ fault. fault ≡ Memory };

    fn from(_error: AllocError) -> BlameFault {
        BlameFault::Memory
    }
}

impl From<GrammarFault> for BlameFault {
    ghost use Rattle.std.specs.Prelude.{◌≡◌};
    ghost use Rattle.peg_blame.specs.Faults.{of_grammar};

    ghost from_gives = { λ why fault. fault ≡ of_grammar why };

    fn from(why: GrammarFault) -> BlameFault {
        match why {
            GrammarFault::Memory => BlameFault::Memory,
            GrammarFault::TooManyParts => BlameFault::TooManyParts,
            _ => BlameFault::MarkedName,
        }
    }
}
