//! Why a grammar has no parser of coverage.
use peg_grammar::GrammarFault;
use std::alloc::AllocError;
use thiserror::Error;

/// Why a grammar has no parser of coverage. The limits are those of grammars and of code. They apply to the marked
/// grammar, which has two further rules for each alternative and one for each rule.
#[derive(Clone, Copy, Debug, PartialEq, Eq, Error)]
pub enum CoverageFault {
    /// The name of a rule contains an exclamation mark. No identifier does.
    #[error("the name of a rule contains an exclamation mark")]
    MarkedName,
    /// The weight of the marked grammar is over `MAX_PARTS`.
    #[error("the marked grammar has too many parts")]
    TooManyParts,
    /// The code of the marked grammar has more than 1,000,000 instructions.
    #[error("the code of the marked grammar is too large")]
    CodeTooLarge,
    /// Out of memory.
    #[error("out of memory")]
    Memory,
}

impl From<AllocError> for CoverageFault {
    ghost use Rattle.std.specs.Prelude.{◌≡◌};
    ghost use Rattle.peg_coverage.specs.declared.fault.CoverageFault.TheVariants.{Memory};

    ghost from_gives = { λ _ fault. fault ≡ Memory };

    fn from(_error: AllocError) -> CoverageFault {
        CoverageFault::Memory
    }
}

impl From<GrammarFault> for CoverageFault {
    ghost use Rattle.std.specs.Prelude.{◌≡◌};
    ghost use Rattle.peg_coverage.specs.CoverageFaults.{of_grammar};

    ghost from_gives = { λ why fault. fault ≡ of_grammar why };

    fn from(why: GrammarFault) -> CoverageFault {
        match why {
            GrammarFault::Memory => CoverageFault::Memory,
            GrammarFault::TooManyParts => CoverageFault::TooManyParts,
            _ => CoverageFault::MarkedName,
        }
    }
}
